ghost use Rattle.std.specs.Prelude.{◌≡◌, ◌+◌, ◌<◌, ◌^◌, length};
ghost use Rattle.pc_grammar.specs.Typing.{cells_of};
ghost use Rattle.pc_names.specs.Names.{cell_in, function_in};

use crate::known::Known;
use crate::names::Names;
use pc_grammar::Word;
use std::marker::Model;

/// What the names of a function are numbered by: the items before it, and what it declares itself.
#[derive(Drop)]
pub struct Scope<'a, 'b, 'k, 'o> {
    known: &'a Known<'k>,
    own: &'b Names<'o>,
}

impl<'a, 'b, 'k, 'o> Model for Scope<'a, 'b, 'k, 'o> {
    ghost use Rattle.std.specs.Prelude.{List, ◌+◌, ◌<◌, ◌^◌, length};
    ghost use Rattle.std.specs.Coded.{codes};
    ghost use Rattle.pc_grammar.specs.contracts.expressions.Word as w;
    ghost use Rattle.pc_grammar.specs.contracts.expressions.Expr as e;
    ghost use Rattle.pc_grammar.specs.contracts.statements.Stmt as s;
    ghost use Rattle.pc_grammar.specs.declared.expressions.Word.{Word as SpecWord};
    ghost use Rattle.pc_grammar.specs.declared.programs.Item.{Item as SpecItem};
    ghost use Rattle.pc_grammar.specs.Typing.{cells_of};

    ghost coded = { Prim.hlevel (codes, w.the_row.coded, (e.the_row w.the_row).coded, (s.the_row w.the_row).coded) };

    ghost Value = { List SpecItem × List SpecWord };

    ghost view = { λ s. (s.known.now, s.own.now) };

    ghost invariant = { λ s. length (cells_of s.known.now) + length s.own.now < 2 ^ 32 };
}

impl<'a, 'b, 'k, 'o> Scope<'a, 'b, 'k, 'o> {
    /// The scope behind these items, with these parameters and locals.
    pub fn of(known: &'a Known<'k>, own: &'b Names<'o>) -> Scope<'a, 'b, 'k, 'o>
        requires { length (cells_of known.now) + length own.now < 2 ^ 32 }
        ensures { result ≡ (known.now, own.now) }
    {
        Scope { known, own }
    }

    /// The number of the cell of this name.
    pub fn cell(&self, name: &Word) -> u32
        ensures { result ≡ cell_in self.now name.now }
    {
        match self.own.number(name) {
            Some(place) => self.known.cell_count() + place as u32,
            None => self.known.item_cell(name),
        }
    }

    /// The number of the function of this name.
    pub fn function(&self, name: &Word) -> u32
        ensures { result ≡ function_in self.now name.now }
    {
        self.known.function(name)
    }
}
