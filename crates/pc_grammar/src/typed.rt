ghost use Rattle.std.specs.Prelude.{◌≡◌, IfOk};
ghost use Rattle.pc_grammar.specs.Keeping.{IsTyped};
ghost use Rattle.pc_grammar.specs.Finishing.{finishes, finishing};
ghost use Rattle.pc_grammar.specs.Meant.{NamesMeanWell};

use crate::expressions::{Expr, Word};
use crate::finishing::{may, of_each};
use crate::programs::CellKind;
use crate::statements::Stmt;
use pt_base::{Memory, Text};
use sqlite_items::Items;
use std::alloc::Global;
use std::marker::Model;

/// A cell: its name, what it is, how many words it has, and the word with which each of them starts.
#[derive(Drop)]
pub struct Cell {
    pub name: Text,
    pub kind: CellKind,
    pub size: u32,
    pub start: i32,
}

/// A function. Parameters and locals are cells by their numbers, a local with its value where it has one;
/// `thread` says whether it is `main` or a `PAR` names it.
#[derive(Drop)]
pub struct Function {
    pub name: Word,
    pub thread: bool,
    pub gives: bool,
    pub parameters: Items<u32>,
    pub locals: Items<(u32, Option<Expr<u32>>)>,
    pub body: Items<Stmt<u32>>,
    pub result: Option<Expr<u32>>,
}

/// A program with numbers for names. It keeps that it is that of a program of the grammar that breaks no
/// rule on names.
#[derive(Drop)]
pub struct Typed {
    cells: Vec<Cell>,
    functions: Vec<Function>,
    main: u32,
    length: u32,
    /// Of each function whether it may finish.
    finishing: Vec<bool>,
}

impl Model for Typed {
    ghost use Rattle.pc_grammar.specs.Typing.{Typing};
    ghost use Rattle.pc_grammar.specs.Keeping.{Keeps};
    ghost use Rattle.std.specs.Coded.{codes};
    ghost use denote.Builtin.{u32};
    ghost use Rattle.pc_grammar.specs.contracts.expressions.Expr as e;
    ghost use Rattle.pc_grammar.specs.contracts.statements.Stmt as s;

    ghost coded = { Prim.hlevel (codes, (e.the_row u32).coded, (s.the_row u32).coded) };

    ghost Value = { Typing };

    ghost view = { λ t. record { cells = t.cells.items; functions = t.functions.items; main = t.main; length = t.length } };

    ghost invariant = { λ t. Keeps (record { cells = t.cells.items; functions = t.functions.items; main = t.main; length = t.length }) t.finishing.items };
}

impl Typed {
    /// A program of these cells and functions.
    pub fn of(
        alloc: Global,
        cells: Vec<Cell>,
        functions: Vec<Function>,
        main: u32,
        length: u32,
    ) -> Result<Typed, Memory>
        requires { IsTyped (record { cells = cells.items; functions = functions.items; main = main; length = length }) }
        ensures { IfOk result (λ typed. typed ≡ record { cells = cells.items; functions = functions.items; main = main; length = length }) }
    {
        let finishing = of_each(alloc, &functions)?;
        Ok(Typed {
            cells,
            functions,
            main,
            length,
            finishing,
        })
    }

    /// The cells, in order of declaration.
    pub fn cells(&self) -> &[Cell]
        ensures cells { result.now ≡ self.now.cells }
        ensures typed { IsTyped self.now }
    {
        &self.cells
    }

    /// The functions, in the order of the text.
    pub fn functions(&self) -> &[Function]
        ensures functions { result.now ≡ self.now.functions }
        ensures typed { IsTyped self.now }
    {
        &self.functions
    }

    /// The number of the function `main`.
    pub fn main(&self) -> u32
        ensures { result ≡ self.now.main }
    {
        self.main
    }

    /// The number of bytes of the source.
    pub fn length(&self) -> u32
        ensures { result ≡ self.now.length }
    {
        self.length
    }
}

/// Each number of a program names what is asked of it: an expression items and its own function's cells, each of the right
/// kind, a call an earlier routine with as many parameters, a `PAR` earlier threads, each at most once.
pub fn names_mean_well()
    ensures { NamesMeanWell }
{}

/// Whether a statement of the program may finish.
pub fn may_finish(typed: &Typed, statement: &Stmt<u32>) -> bool
    ensures { result ≡ finishes (finishing typed.now.functions) statement.now }
{
    may(statement, &typed.finishing)
}
