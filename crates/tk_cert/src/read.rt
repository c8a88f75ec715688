ghost use Rattle.std.specs.Prelude.{◌≡◌, ℕ, List, IfOk, option_map};
ghost use Rattle.tk_cert.specs.declared.cert.CertParts.{CertParts as Lists};
ghost use Rattle.tk_cert.specs.Text.{text_of};
ghost use Rattle.tk_cert.specs.Whole.{Answers, heading_at, ended_at, parts_at};
ghost use Rattle.tk_cert.specs.Form.{IsInForm, IsRead, FaultIsFirst};

use crate::cert::{Cert, CertParts};
use crate::fault::{CertFault, fault};
use crate::lists::{bound_of, loops_of, places_of, slots_of};
use crate::walk::walk_of;
use pt_base::{Many, Text, past_all};
use std::alloc::Global;

// What follows the heading of a text that isn't too long.
#[tactic(auto, unfolding(crate::specs::Whole::heading_at))]
fn heading(bytes: &[u8]) -> Option<&[u8]>
    ensures { option_map (λ x. x.now) result ≡ heading_at bytes.now }
{
    if bytes.len() > 1_099_511_627_776 {
        return None;
    }
    past_all(bytes, b"PRETCERT 1\n")
}

// The lists, where nothing stands behind them.
fn ended(parts: CertParts, rest: &[u8]) -> Result<CertParts, CertFault>
    ensures { Answers (λ p. p) result (ended_at parts rest.now) }
{
    match rest {
        [] => Ok(parts),
        [_, ..] => Err(CertFault::Form { number: 7 }),
    }
}

// The lists of a certificate's text.
#[tactic(auto, unfolding(crate::specs::Whole::parts_at))]
fn parts_of(alloc: Global, bytes: &[u8]) -> Result<CertParts, CertFault>
    ensures { Answers (λ p. p) result (parts_at bytes.now) }
{
    let rest = heading(bytes).ok_or(CertFault::Form { number: 1 })?;
    let (bound, rest) = bound_of(rest).ok_or(CertFault::Form { number: 2 })?;
    let (lines, rest) = places_of(alloc, rest).map_err(|why| fault(3, why))?;
    let (weights, rest) = loops_of(alloc, rest).map_err(|why| fault(4, why))?;
    let (slot_bounds, rest) = slots_of(alloc, rest).map_err(|why| fault(5, why))?;
    let (walk, rest) = walk_of(alloc, rest).map_err(|why| fault(6, why))?;
    let parts = CertParts {
        bound,
        lines: Many::of(lines),
        weights: Many::of(weights),
        slot_bounds: Many::of(slot_bounds),
        walk,
    };
    ended(parts, rest)
}

impl Cert {
    /// The certificate whose text it is; linear in the text. Else the number of the first group of lines at fault, from 1
    /// to 7.
    pub fn read(alloc: Global, text: &Text) -> Result<Cert, CertFault>
        ensures spelled { IfOk result (λ cert. text.now ≡ text_of cert) }
        ensures ranges { IfOk result (λ cert. IsInForm cert) }
        ensures only { (c : Lists) → IsInForm c → text.now ≡ text_of c → IsRead c result }
        ensures fault { FaultIsFirst text.now result }
    {
        let parts = parts_of(alloc, text.bytes())?;
        Ok(Cert::of(parts))
    }
}
