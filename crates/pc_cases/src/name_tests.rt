use pc_grammar::{Expr, Function, Goal, Stmt, Typed};
use pc_names::resolve;
use pc_rules::source_of;
use pt_base::{Refusal, Text};
use std::alloc::Global;
use std::test::Fail;

fn typed(alloc: Global, text: &[u8]) -> Result<Typed, Refusal> {
    let program = source_of(alloc, &Text::of(alloc, text)?)?;
    resolve(alloc, &program)
}

// Whether the value is that of this cell.
fn is_cell(value: &Option<Expr<u32>>, cell: u32) -> bool {
    match value {
        Some(Expr::Var(read)) => *read == cell,
        _ => false,
    }
}

// Whether the statement assigns cell 0 to cell 3.
fn is_assignment(statement: &Stmt<u32>) -> bool {
    match statement {
        Stmt::Assign {
            goal: Goal::Var(goal),
            value: Expr::Var(read),
        } => *goal == 3 && *read == 0,
        _ => false,
    }
}

// Whether `g` has the parameter 2, the local 3 with the value of cell 2, and one assignment.
fn is_called_function(g: &Function) -> bool {
    let [parameter] = g.parameters.as_slice() else {
        return false;
    };
    let [(local, value)] = g.locals.as_slice() else {
        return false;
    };
    let [statement] = g.body.as_slice() else {
        return false;
    };
    g.gives
        && !g.thread
        && *parameter == 2
        && *local == 3
        && is_cell(value, 2)
        && is_assignment(statement)
}

// Whether `main` calls function 1 for cell 4, starts function 0 and assigns cell 4 to an element of cell 1.
fn is_main_function(main: &Function) -> bool {
    let [
        Stmt::Call {
            goal: Goal::Var(4),
            function: 1,
            ..
        },
        Stmt::Par { threads, .. },
        Stmt::Assign {
            goal: Goal::Elem(1, Expr::Number(0)),
            value: Expr::Var(4),
        },
    ] = main.body.as_slice()
    else {
        return false;
    };
    let [0] = threads.as_slice() else {
        return false;
    };
    main.thread
}

fn are_numbered(functions: &[Function]) -> bool {
    let [f, g, main] = functions else {
        return false;
    };
    f.thread && is_called_function(g) && is_main_function(main)
}

/// Whether the program has five cells, `main` is function 2, and the functions have their numbers.
fn is_numbered(alloc: Global, text: &[u8]) -> Result<bool, Refusal> {
    let program = typed(alloc, text)?;
    let counted = program.cells().len() == 5 && program.main() == 2;
    Ok(counted && are_numbered(program.functions()))
}

const NUMBERED: &[u8] = b"int x = 7; int v[3]; void f() { EOT; }
int g(int p) { int l = p; l = x; return l + p; }
void main() { int t; t = g(1); PAR(f); v[0] = t; }";

#[test]
fn cells_and_functions_have_their_numbers(rt: HostRuntime) -> Result<(), Fail> {
    assert!(rt; is_numbered(rt.alloc(), NUMBERED)?);
    Ok(())
}
