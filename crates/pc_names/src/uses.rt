ghost use Rattle.std.specs.Prelude.{◌≡◌, ◌++◌, ◌∷◌, OnOk, map, length};
ghost use Rattle.pc_grammar.specs.Uses.{use_of, expression_uses, expressions_uses, value_uses, goal_uses, is_taken, statement_uses, statements_uses};
ghost use Rattle.pc_names.specs.Rest.{chain_uses};

use pc_grammar::{Expr, Goal, Role, Stmt, Word};
use pt_base::{BinOp, Memory};
use std::marker::Model;

/// A name, and what it does where it stands.
#[derive(Drop)]
pub struct Use<'a> {
    role: Role,
    word: &'a Word,
}

impl<'a> Model for Use<'a> {
    ghost use Rattle.pc_grammar.specs.Uses.{Use as SpecUse, use_of};
    ghost use Rattle.pc_grammar.specs.declared.expressions.Word.{Word};

    ghost Value = { SpecUse Word };

    ghost view = { λ u. use_of u.role u.word.now };
}

impl<'a> Use<'a> {
    fn of(role: Role, word: &'a Word) -> Use<'a>
        ensures { result ≡ use_of role word.now }
    {
        Use { role, word }
    }

    /// What the name does.
    pub fn role(&self) -> Role
        ensures { result ≡ self.now.role }
    {
        self.role
    }

    /// The name.
    pub fn word(&self) -> &'a Word
        ensures { result.now ≡ self.now.word }
    {
        self.word
    }
}

/// Lists the names of an expression.
#[cycle(expression)]
#[tactic(auto, using(crate::proofs::Walks::chains))]
pub fn expression<'a>(uses: &mut Vec<Use<'a>>, e: &'a Expr<Word>) -> Result<(), Memory>
    ensures { OnOk result (uses.new.items ≡ uses.old.items ++ expression_uses e.now) }
{
    match e {
        Expr::Number(_) => {}
        Expr::Var(word) => uses.push(Use::of(Role::Reads, word))?,
        Expr::Elem(word, index) => {
            uses.push(Use::of(Role::ReadsElement, word))?;
            expression(uses, index.get())?;
        }
        Expr::Unary(_, e) => expression(uses, e.get())?,
        Expr::Chain(first, rest) => {
            expression(uses, first.get())?;
            operands(uses, rest.as_slice())?;
        }
    }
    Ok(())
}

#[cycle(expression)]
#[tactic(auto, using(crate::proofs::Walks::chains))]
fn operands<'a>(uses: &mut Vec<Use<'a>>, rest: &'a [(BinOp, Expr<Word>)]) -> Result<(), Memory>
    ensures { OnOk result (uses.new.items ≡ uses.old.items ++ chain_uses rest.now) }
{
    for (_, e) in rest {
        expression(uses, e)?;
    }
    Ok(())
}

/// Lists the names of a value, where there is one.
pub fn value<'a>(uses: &mut Vec<Use<'a>>, value: &'a Option<Expr<Word>>) -> Result<(), Memory>
    ensures { OnOk result (uses.new.items ≡ uses.old.items ++ value_uses value.now) }
{
    match value {
        Some(e) => expression(uses, e),
        None => Ok(()),
    }
}

fn expressions<'a>(uses: &mut Vec<Use<'a>>, all: &'a [Expr<Word>]) -> Result<(), Memory>
    ensures { OnOk result (uses.new.items ≡ uses.old.items ++ expressions_uses all.now) }
{
    for e in all {
        expression(uses, e)?;
    }
    Ok(())
}

fn goal<'a>(uses: &mut Vec<Use<'a>>, goal: &'a Goal<Word>) -> Result<(), Memory>
    ensures { OnOk result (uses.new.items ≡ uses.old.items ++ goal_uses goal.now) }
{
    match goal {
        Goal::Nothing => {}
        Goal::Var(word) => uses.push(Use::of(Role::Writes, word))?,
        Goal::Elem(word, index) => {
            uses.push(Use::of(Role::WritesElement, word))?;
            expression(uses, index)?;
        }
    }
    Ok(())
}

fn is_target(goal: &Goal<Word>) -> bool
    ensures { result ≡ is_taken goal.now }
{
    match goal {
        Goal::Nothing => false,
        _ => true,
    }
}

fn call<'a>(
    uses: &mut Vec<Use<'a>>,
    to: &'a Goal<Word>,
    function: &'a Word,
    arguments: &'a [Expr<Word>],
) -> Result<(), Memory>
    ensures { OnOk result (uses.new.items ≡
        uses.old.items ++
        (goal_uses to.now ++
        (use_of (Role.Calls (length arguments.now) (is_taken to.now)) function.now ∷ expressions_uses arguments.now))) }
{
    goal(uses, to)?;
    let role = Role::Calls {
        arguments: arguments.len(),
        taken: is_target(to),
    };
    uses.push(Use::of(role, function))?;
    expressions(uses, arguments)
}

fn threads<'a>(uses: &mut Vec<Use<'a>>, threads: &'a [Word]) -> Result<(), Memory>
    ensures { OnOk result (uses.new.items ≡ uses.old.items ++ map (use_of Role.Starts) threads.now) }
{
    for word in threads {
        uses.push(Use::of(Role::Starts, word))?;
    }
    Ok(())
}

#[cycle(statement)]
#[tactic(auto, using(crate::proofs::Walks::walks))]
fn statement<'a>(uses: &mut Vec<Use<'a>>, s: &'a Stmt<Word>) -> Result<(), Memory>
    ensures { OnOk result (uses.new.items ≡ uses.old.items ++ statement_uses s.now) }
{
    match s {
        Stmt::Skip | Stmt::Eot(_) => Ok(()),
        Stmt::Assign { goal: to, value } => {
            goal(uses, to)?;
            expression(uses, value)
        }
        Stmt::Call {
            goal,
            function,
            arguments,
        } => call(uses, goal, function, arguments.as_slice()),
        Stmt::Block(all) => statements(uses, all.as_slice()),
        Stmt::If { test, yes, no } => {
            expression(uses, test)?;
            statement(uses, yes.get())?;
            match no {
                Some(no) => statement(uses, no.get()),
                None => Ok(()),
            }
        }
        Stmt::While { test, body, .. } => {
            expression(uses, test)?;
            statement(uses, body.get())
        }
        Stmt::Par { threads: all, .. } => threads(uses, all.as_slice()),
        Stmt::Abort { body, test, .. } => {
            statement(uses, body.get())?;
            expression(uses, test)
        }
    }
}

/// Lists the names of statements.
#[cycle(statement)]
#[tactic(auto, using(crate::proofs::Walks::walks))]
pub fn statements<'a>(uses: &mut Vec<Use<'a>>, all: &'a [Stmt<Word>]) -> Result<(), Memory>
    ensures { OnOk result (uses.new.items ≡ uses.old.items ++ statements_uses all.now) }
{
    for s in all {
        statement(uses, s)?;
    }
    Ok(())
}
