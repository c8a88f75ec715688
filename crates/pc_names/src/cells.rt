ghost use Rattle.std.specs.Prelude.{◌≡◌, ◌++◌, OnOk, IfOk, map};
ghost use Rattle.pc_grammar.specs.Places.{names_of};
ghost use Rattle.pc_grammar.specs.Typing.{cell_of, item_cells, cells_of};

use pc_grammar::{Cell, CellKind, Expr, Item, Word};
use pt_base::{Memory, Text};
use std::alloc::Global;

fn cell(alloc: Global, name: &Word, kind: CellKind, size: u32, start: i32) -> Result<Cell, Memory>
    ensures { IfOk result (λ cell. cell ≡ record { name = name.now.text; kind = kind; size = size; start = start }) }
{
    Ok(Cell {
        name: Text::of(alloc, name.text.bytes())?,
        kind,
        size,
        start,
    })
}

fn add_parameters(alloc: Global, cells: &mut Vec<Cell>, parameters: &[Word]) -> Result<(), Memory>
    ensures { OnOk result (cells.new.items ≡ cells.old.items ++ map (cell_of CellKind.Parameter) parameters.now) }
{
    for name in parameters {
        cells.push(cell(alloc, name, CellKind::Parameter, 1, 0)?)?;
    }
    Ok(())
}

fn add_locals(
    alloc: Global,
    cells: &mut Vec<Cell>,
    locals: &[(Word, Option<Expr<Word>>)],
) -> Result<(), Memory>
    ensures { OnOk result (cells.new.items ≡ cells.old.items ++ map (cell_of CellKind.Local) (names_of locals.now)) }
{
    for (name, _) in locals {
        cells.push(cell(alloc, name, CellKind::Local, 1, 0)?)?;
    }
    Ok(())
}

fn add_item(alloc: Global, cells: &mut Vec<Cell>, item: &Item) -> Result<(), Memory>
    ensures { OnOk result (cells.new.items ≡ cells.old.items ++ item_cells item.now) }
{
    match item {
        Item::Scalar { kind, name, start } => {
            cells.push(cell(alloc, name, *kind, 1, *start)?)?;
        }
        Item::Array { name, size } => {
            cells.push(cell(alloc, name, CellKind::Array, *size, 0)?)?;
        }
        Item::Function {
            parameters,
            locals,
            ..
        } => {
            add_parameters(alloc, cells, parameters.as_slice())?;
            add_locals(alloc, cells, locals.as_slice())?;
        }
    }
    Ok(())
}

/// The cells of the items, in order of declaration.
pub fn cells(alloc: Global, items: &[Item]) -> Result<Vec<Cell>, Memory>
    ensures { IfOk result (λ cells. cells.items ≡ cells_of items.now) }
{
    let mut cells = Vec::new(alloc);
    for item in items {
        add_item(alloc, &mut cells, item)?;
    }
    Ok(cells)
}
