ghost use Rattle.std.specs.Prelude.{◌≡◌};
ghost use Rattle.pc_grammar.specs.Trees.{IsTree};

use crate::programs::Item;
use sqlite_items::Items;
use std::marker::Model;

/// A program: the items of a source in order, and the number of its bytes. It keeps that the tokens of a source spell it.
#[derive(Drop)]
pub struct Program {
    items: Items<Item>,
    length: u32,
}

impl Model for Program {
    ghost use Rattle.pc_grammar.specs.Trees.{Program, program_code, IsTree};

    ghost Value = { Program };

    ghost coded = { program_code };

    ghost view = { λ program. record { items = program.items; length = program.length } };

    ghost invariant = { λ program. IsTree (record { items = program.items; length = program.length }) };
}

impl Program {
    /// A program of these items, which the tokens of a source of this length spell.
    pub fn of(items: Items<Item>, length: u32) -> Program
        requires { IsTree (record { items = items; length = length }) }
        ensures { result ≡ record { items = items; length = length } }
    {
        Program { items, length }
    }

    /// The items, in order.
    pub fn items(&self) -> &[Item]
        ensures items { result.now ≡ self.now.items }
        ensures tree { IsTree self.now }
    {
        self.items.as_slice()
    }

    /// The number of the source's bytes.
    pub fn length(&self) -> u32
        ensures length { result ≡ self.now.length }
        ensures tree { IsTree self.now }
    {
        self.length
    }
}
