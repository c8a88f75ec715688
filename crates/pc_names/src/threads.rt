ghost use Rattle.std.specs.Prelude.{◌≡◌, ◌||◌, IfOk, map};
ghost use Rattle.pc_grammar.specs.declared.expressions.Word.{Word as SpecWord};
ghost use Rattle.pc_grammar.specs.Places.{is_among};
ghost use Rattle.pc_grammar.specs.Places as places;
ghost use Rattle.pc_names.specs.Sites.{sites_of};
ghost use Rattle.pc_names.specs.Names.{HasNames};
ghost use Rattle.pc_names.specs.Started.{started, started_item, started_items};

use crate::names::Names;
use crate::sites::Site;
use pc_grammar::{Item, Word};
use pt_base::Memory;
use std::alloc::Global;
use std::marker::Model;

/// Whether a name is `main`.
pub fn is_main(word: &Word) -> bool
    ensures { result ≡ places.is_main word.now }
{
    word.text.bytes() == b"main".as_slice()
}

/// The threads of a program: `main`, and the items that its `PAR`s name.
#[derive(Drop)]
pub struct Threads<'a> {
    items: &'a [Item],
    started: Names<'a>,
}

impl<'a> Model for Threads<'a> {
    ghost use Rattle.std.specs.Prelude.{List};
    ghost use Rattle.std.specs.Coded.{codes};
    ghost use Rattle.pc_grammar.specs.contracts.expressions.Word as w;
    ghost use Rattle.pc_grammar.specs.contracts.expressions.Expr as e;
    ghost use Rattle.pc_grammar.specs.contracts.statements.Stmt as s;
    ghost use Rattle.pc_grammar.specs.declared.programs.Item.{Item as SpecItem};
    ghost use Rattle.pc_names.specs.Sites.{sites_of};
    ghost use Rattle.pc_names.specs.Names.{HasNames};
    ghost use Rattle.pc_names.specs.Started.{started_items};

    ghost coded = { Prim.hlevel (codes, (e.the_row w.the_row).coded, (s.the_row w.the_row).coded) };

    ghost Value = { List SpecItem };

    ghost view = { λ t. t.items.now };

    ghost invariant = { λ t. HasNames t.started (started_items (sites_of t.items.now)) };
}

/// These names, and the site's where a `PAR` names an item there.
fn with_started<'a>(names: Names<'a>, site: &Site<'a>) -> Result<Names<'a>, Memory>
    ensures { IfOk result (λ grown. (w : SpecWord) → is_among w grown ≡ (is_among w names.entry || is_among w (started_item site.now))) }
{
    let mut grown = names;
    if !site.starts_item() {
        return Ok(grown);
    }
    grown.insert(site.word())?;
    Ok(grown)
}

fn started_names<'a>(alloc: Global, sites: &[Site<'a>]) -> Result<Names<'a>, Memory>
    ensures { IfOk result (λ names. HasNames names (started_items sites.now)) }
{
    let mut names = Names::new(alloc);
    for site in sites {
        names = with_started(names, site)?;
    }
    Ok(names)
}

impl<'a> Threads<'a> {
    /// The threads of these items, which have these places.
    pub fn of(alloc: Global, items: &'a [Item], sites: &[Site<'a>]) -> Result<Threads<'a>, Memory>
        requires { sites.now ≡ sites_of items.now }
        ensures { IfOk result (λ threads. threads ≡ items.now) }
    {
        let started = started_names(alloc, sites)?;
        Ok(Threads { items, started })
    }

    /// Whether an item of this name is a thread.
    pub fn is_thread(&self, name: &Word) -> bool
        ensures { result ≡ places.is_thread self.now name.now }
    {
        is_main(name) || self.started.contains(name)
    }
}

/// The names in `PAR`s, in order.
pub fn started_words<'a>(alloc: Global, sites: &[Site<'a>]) -> Result<Vec<&'a Word>, Memory>
    ensures { IfOk result (λ words. map (λ w. w.now) words.items ≡ started sites.now) }
{
    let mut words = Vec::new(alloc);
    for site in sites {
        if site.starts() {
            words.push(site.word())?;
        }
    }
    Ok(words)
}
