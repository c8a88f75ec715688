ghost use Rattle.std.specs.Prelude.{◌≡◌, ◌+◌, ◌<◌, [], IfOk, length, take, find};
ghost use Rattle.std.specs.Option.{option_map};
ghost use Rattle.pc_grammar.specs.Places.{has_name};

use crate::names::Name;
use crate::sites::name_of;
use indexmap::IndexMap;
use pc_grammar::{Item, Word};
use pt_base::Memory;
use std::alloc::Global;
use std::marker::Model;

/// The items before a function, with the first of each name at hand.
#[derive(Drop)]
pub struct Before<'a> {
    items: &'a [Item],
    first: IndexMap<Name<'a>, &'a Item>,
}

impl<'a> Model for Before<'a> {
    ghost use Rattle.std.specs.Prelude.{List};
    ghost use Rattle.std.specs.Option.{option_map};
    ghost use Rattle.std.specs.Coded.{codes};
    ghost use Rattle.indexmap.specs.IndexMap.{get};
    ghost use Rattle.pc_grammar.specs.contracts.expressions.Word as w;
    ghost use Rattle.pc_grammar.specs.contracts.expressions.Expr as e;
    ghost use Rattle.pc_grammar.specs.contracts.statements.Stmt as s;
    ghost use Rattle.pc_grammar.specs.declared.programs.Item.{Item as SpecItem};
    ghost use Rattle.pc_grammar.specs.Places.{same_text};
    ghost use Rattle.pc_names.specs.Names.{FindsItems};

    ghost coded = { Prim.hlevel (codes, (e.the_row w.the_row).coded, (s.the_row w.the_row).coded) };

    ghost Value = { List SpecItem };

    ghost view = { λ b. b.items.now };

    ghost invariant = { λ b. FindsItems (λ name. option_map (λ i. i.now) (get same_text b.first name)) b.items.now };
}

impl<'a> Before<'a> {
    /// Before all items.
    pub fn none(alloc: Global, items: &'a [Item]) -> Before<'a>
        ensures { result ≡ [] }
    {
        Before {
            items: &items[..0],
            first: IndexMap::new(alloc),
        }
    }

    /// With one more item.
    pub fn with(self, items: &'a [Item], place: usize) -> Result<Before<'a>, Memory>
        requires inside { place < length items.now }
        requires before { self ≡ take place items.now }
        ensures { IfOk result (λ before. before ≡ take (place + 1) items.now) }
    {
        let Before {
            items: _,
            mut first,
        } = self;
        let item = &items[place];
        let name = Name::of(name_of(item));
        if !first.contains_key(&name) {
            first.insert(name, item)?;
        }
        Ok(Before {
            items: &items[..place + 1],
            first,
        })
    }

    /// The first item of this name.
    pub fn item(&self, word: &Word) -> Option<&'a Item>
        ensures { option_map (λ i. i.now) result ≡ find (has_name word.now) self.now }
    {
        self.first.get(&Name::of(word)).copied()
    }
}
