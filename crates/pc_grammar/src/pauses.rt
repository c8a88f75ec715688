ghost use Rattle.std.specs.Prelude.{◌≡◌};
ghost use Rattle.std.specs.List.{list_any};
ghost use Rattle.pc_grammar.specs.Uses as uses;

use crate::statements::Stmt;

/// Whether `EOT`, `PAR` or an abort stands in the statement.
#[cycle(holds_pause)]
#[tactic(auto, using(crate::proofs::Pausing::pauses))]
pub fn holds_pause<N>(s: &Stmt<N>) -> bool
    ensures { result ≡ uses.holds_pause s.now }
{
    match s {
        Stmt::Eot(_) | Stmt::Par { .. } | Stmt::Abort { .. } => true,
        Stmt::Block(all) => hold_pauses(all.as_slice()),
        Stmt::If { yes, no, .. } => {
            if holds_pause(yes.get()) {
                return true;
            }
            match no {
                Some(no) => holds_pause(no.get()),
                None => false,
            }
        }
        Stmt::While { body, .. } => holds_pause(body.get()),
        Stmt::Skip | Stmt::Assign { .. } | Stmt::Call { .. } => false,
    }
}

/// Whether `EOT`, `PAR` or an abort stands in one of the statements.
#[cycle(holds_pause)]
#[tactic(auto, using(crate::proofs::Pausing::pauses))]
pub fn hold_pauses<N>(all: &[Stmt<N>]) -> bool
    ensures { result ≡ list_any uses.holds_pause all.now }
{
    for s in all {
        if holds_pause(s) {
            return true;
        }
    }
    false
}
