ghost use Rattle.std.specs.Prelude.{◌≡◌, ◌++◌, IfOk, OnOk};
ghost use Rattle.tk_cert.specs.Text.{text_of, walk_text};

use crate::cert::{Cert, Walk};
use crate::writing::{put_choices, put_lines, put_slots, put_states, put_weights};
use pt_base::{Memory, Text, put_count};
use std::alloc::{AllocError, Global};

// Puts a walk at the end.
#[tactic(auto, using(crate::proofs::Putting::in_order))]
fn put_walk(out: &mut Vec<u8>, walk: &Walk) -> Result<(), AllocError>
    ensures { OnOk result (out.new.items ≡ out.old.items ++ walk_text walk.now) }
{
    let states = walk.states.items();
    let choices = walk.choices.items();
    put_count(out, b"walk ", states.len() as u64)?;
    put_states(out, states)?;
    put_count(out, b"choices ", choices.len() as u64)?;
    put_choices(out, choices)?;
    out.push(b'\n')?;
    Ok(())
}

impl Cert {
    /// The one text of the certificate.
    #[tactic(auto, using(crate::proofs::Putting::in_order), unfolding(crate::specs::Text::text_of, crate::specs::Text::groups))]
    pub fn write(&self, alloc: Global) -> Result<Text, Memory>
        ensures { IfOk result (λ text. text ≡ text_of self.now) }
    {
        let mut out = Vec::new(alloc);
        out.extend_from_slice(b"PRETCERT 1\n")?;
        put_count(&mut out, b"bound ", self.bound())?;
        put_count(&mut out, b"at ", self.lines().len() as u64)?;
        put_lines(&mut out, self.lines())?;
        put_count(&mut out, b"loops ", self.weights().len() as u64)?;
        put_weights(&mut out, self.weights())?;
        put_count(&mut out, b"slots ", self.slot_bounds().len() as u64)?;
        put_slots(&mut out, self.slot_bounds())?;
        put_walk(&mut out, self.walk())?;
        Ok(Text::from_vec(out))
    }
}
