ghost use Rattle.std.specs.Prelude.{◌≡◌, ◌+◌, ◌<◌, ◌^◌, [], ◌∷◌, IfOk, length, take, slice_get, unwrap_or};
ghost use Rattle.pc_grammar.specs.Typing.{item_cells, cells_of, until, functions_in, function_number};
ghost use Rattle.pc_names.specs.Names.{CanBeNumbered};

use crate::names::Names;
use crate::sites::name_of;
use pc_grammar::{Item, Word};
use pt_base::Memory;
use std::alloc::Global;
use std::marker::Model;

/// The number of cells with those of one more item.
fn cells_with(count: u32, item: &Item) -> u32
    requires { count + length (item_cells item.now) < 2 ^ 32 }
    ensures { result ≡ count + length (item_cells item.now) }
{
    match item {
        Item::Scalar { .. } | Item::Array { .. } => count + 1,
        Item::Function {
            parameters,
            locals,
            ..
        } => count + parameters.len() as u32 + locals.len() as u32,
    }
}

/// The number of functions with one more item.
pub fn functions_with(count: u32, item: &Item) -> u32
    requires { count + functions_in (item.now ∷ []) < 2 ^ 32 }
    ensures { result ≡ count + functions_in (item.now ∷ []) }
{
    match item {
        Item::Function { .. } => count + 1,
        _ => count,
    }
}

/// The start at a place, and 0 where there is none.
fn start_at(starts: &[u32], place: Option<usize>) -> u32
    ensures { result ≡ unwrap_or (slice_get starts.now (unwrap_or place 0)) 0 }
{
    let place = place.unwrap_or(0);
    starts.get(place).copied().unwrap_or(0)
}

/// The items before a function, and the numbers of their cells and functions.
#[derive(Drop)]
pub struct Known<'a> {
    before: &'a [Item],
    names: Names<'a>,
    cells: Vec<u32>,
    functions: Vec<u32>,
    cell_count: u32,
    function_count: u32,
}

impl<'a> Model for Known<'a> {
    ghost use Rattle.std.specs.Prelude.{List};
    ghost use Rattle.std.specs.Coded.{codes};
    ghost use Rattle.pc_grammar.specs.contracts.expressions.Word as w;
    ghost use Rattle.pc_grammar.specs.contracts.expressions.Expr as e;
    ghost use Rattle.pc_grammar.specs.contracts.statements.Stmt as s;
    ghost use Rattle.pc_grammar.specs.declared.programs.Item.{Item as SpecItem};
    ghost use Rattle.pc_names.specs.Known.{IsKnown};

    ghost coded = { Prim.hlevel (codes, (e.the_row w.the_row).coded, (s.the_row w.the_row).coded) };

    ghost Value = { List SpecItem };

    ghost view = { λ k. k.before.now };

    ghost invariant = { λ k. IsKnown k.before.now k.names k.cells.items k.functions.items k.cell_count k.function_count };
}

impl<'a> Known<'a> {
    /// Before all items.
    pub fn none(alloc: Global, items: &'a [Item]) -> Known<'a>
        ensures { result ≡ [] }
    {
        Known {
            before: &items[..0],
            names: Names::new(alloc),
            cells: Vec::new(alloc),
            functions: Vec::new(alloc),
            cell_count: 0,
            function_count: 0,
        }
    }

    /// With one more item.
    pub fn with(self, items: &'a [Item], place: usize) -> Result<Known<'a>, Memory>
        requires numbered { CanBeNumbered items.now }
        requires inside { place < length items.now }
        requires before { self ≡ take place items.now }
        ensures { IfOk result (λ known. known ≡ take (place + 1) items.now) }
    {
        let Known {
            before: _,
            names,
            mut cells,
            mut functions,
            cell_count,
            function_count,
        } = self;
        let item = &items[place];
        let names = names.with(name_of(item))?;
        cells.push(cell_count)?;
        functions.push(function_count)?;
        let cell_count = cells_with(cell_count, item);
        let function_count = functions_with(function_count, item);
        Ok(Known {
            before: &items[..place + 1],
            names,
            cells,
            functions,
            cell_count,
            function_count,
        })
    }

    /// The number of cells.
    pub fn cell_count(&self) -> u32
        ensures { result ≡ length (cells_of self.now) }
    {
        self.cell_count
    }

    /// The number of the first cell of the first item of this name.
    pub fn item_cell(&self, name: &Word) -> u32
        ensures { result ≡ length (cells_of (until name.now self.now)) }
    {
        start_at(&self.cells, self.names.number(name))
    }

    /// The number of the function of this name.
    pub fn function(&self, name: &Word) -> u32
        ensures { result ≡ function_number self.now name.now }
    {
        start_at(&self.functions, self.names.number(name))
    }
}
