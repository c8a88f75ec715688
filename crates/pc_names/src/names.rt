ghost use Rattle.std.specs.Prelude.{◌≡◌, ◌++◌, ◌∷◌, [], false, not, IfOk, OnOk, position};
ghost use Rattle.pc_grammar.specs.Places.{same_text, is_among};
ghost use Rattle.indexmap.specs.IndexSet.{insert_key};

use indexmap::IndexSet;
use pc_grammar::Word;
use pt_base::Memory;
use std::alloc::Global;
use std::hash::{Hash, Hasher};
use std::marker::Model;

/// A word of the source as a name: two are equal where their texts are.
#[derive(Drop)]
pub struct Name<'a> {
    word: &'a Word,
}

impl<'a> Model for Name<'a> {
    ghost use Rattle.pc_grammar.specs.declared.expressions.Word.{Word as SpecWord};

    ghost Value = { SpecWord };

    ghost view = { λ n. n.word.now };
}

impl<'a> Name<'a> {
    /// The name that a word is.
    pub fn of(word: &'a Word) -> Name<'a>
        ensures { result ≡ word.now }
    {
        Name { word }
    }
}

impl<'a> PartialEq for Name<'a> {
    ghost use Rattle.pc_grammar.specs.Places.{same_text};
    ghost use Rattle.std.specs.Cmp.{partial_equiv_from_equiv};
    ghost use Rattle.pc_names.specs.Equal.{same_text_equiv};

    ghost eq = { same_text };

    ghost laws = { partial_equiv_from_equiv same_text_equiv };

    fn eq(&self, other: &Name<'a>) -> bool {
        self.word.text.bytes() == other.word.text.bytes()
    }
}

impl<'a> Eq for Name<'a> {
    ghost use Rattle.pc_names.specs.Equal.{same_text_equiv};

    ghost laws = { same_text_equiv };
}

impl<'a> Hash for Name<'a> {
    ghost use Rattle.std.specs.Hash as fed;
    ghost use Rattle.pc_names.specs.Equal.{same_input};

    ghost hash_input = { λ n. fed.slice fed.u8 n.text };

    ghost respects_eq = { same_input };

    fn hash<H: Hasher>(&self, state: &mut H) {
        self.word.text.bytes().hash(state);
    }
}

/// Names in order, each once: the number of a name is its place.
#[derive(Drop)]
pub struct Names<'a> {
    names: IndexSet<Name<'a>>,
}

impl<'a> Model for Names<'a> {
    ghost use Rattle.std.specs.Prelude.{List};
    ghost use Rattle.pc_grammar.specs.declared.expressions.Word.{Word as SpecWord};

    ghost Value = { List SpecWord };

    ghost view = { λ n. n.names.keys };
}

impl<'a> Names<'a> {
    /// No names.
    pub fn new(alloc: Global) -> Names<'a>
        ensures { result ≡ [] }
    {
        Names {
            names: IndexSet::new(alloc),
        }
    }

    /// The number of a name.
    pub fn number(&self, word: &Word) -> Option<usize>
        ensures { result ≡ position (same_text word.now) self.now }
    {
        self.names.get_index_of(&Name::of(word))
    }

    /// Whether this name is there.
    pub fn contains(&self, word: &Word) -> bool
        ensures { result ≡ is_among word.now self.now }
    {
        self.names.contains(&Name::of(word))
    }

    /// Adds a name that isn't there, and says whether it was new.
    pub fn insert(&mut self, word: &'a Word) -> Result<bool, Memory>
        ensures is_new { IfOk result (λ is_new. is_new ≡ not (is_among word.now self.old)) }
        ensures names { OnOk result (self.new ≡ insert_key same_text self.old word.now) }
    {
        let is_new = self.names.insert(Name::of(word))?;
        Ok(is_new)
    }

    /// These names and a new one.
    pub fn with(self, word: &'a Word) -> Result<Names<'a>, Memory>
        requires { is_among word.now self ≡ false }
        ensures { IfOk result (λ names. names ≡ self.entry ++ word.now ∷ []) }
    {
        let mut names = self;
        names.insert(word)?;
        Ok(names)
    }
}
