ghost use Rattle.std.specs.Prelude.{◌≡◌, ℕ, List, IfOk, option_map};
ghost use Rattle.pt_image.specs.declared.image.Parts.{Parts as Lists};
ghost use Rattle.pt_image.specs.Ranges.{IsImage};
ghost use Rattle.pt_image.specs.Text.{text_of};
ghost use Rattle.pt_image.specs.Whole.{Answers, heading_at, ended_at, parts_at};
ghost use Rattle.pt_image.specs.Form.{AreWords, IsRead, FaultIsFirst};

use crate::fault::{ImageFault, fault};
use crate::image::{Image, Parts};
use crate::points::points_of;
use crate::reading::{aborts_of, code_of, memory_of, signals_of, slots_of};
use pt_base::{Many, Text, past_all};
use std::alloc::Global;

// What follows the heading of a text that isn't too long.
#[tactic(auto, unfolding(crate::specs::Whole::heading_at))]
fn heading(bytes: &[u8]) -> Option<&[u8]>
    ensures { option_map (λ x. x.now) result ≡ heading_at bytes.now }
{
    if bytes.len() > 16_777_216 {
        return None;
    }
    past_all(bytes, b"ARPRET 1\n")
}

// The lists, where nothing stands behind them.
fn ended(parts: Parts, rest: &[u8]) -> Result<Parts, ImageFault>
    ensures { Answers (λ p. p) result (ended_at parts rest.now) }
{
    match rest {
        [] => Ok(parts),
        [_, ..] => Err(ImageFault::Form { number: 10 }),
    }
}

// The lists of an image's text.
#[tactic(auto, unfolding(crate::specs::Whole::parts_at))]
fn parts_of(alloc: Global, bytes: &[u8]) -> Result<Parts, ImageFault>
    ensures { Answers (λ p. p) result (parts_at bytes.now) }
{
    let rest = heading(bytes).ok_or(ImageFault::Form { number: 1 })?;
    let (code, rest) = code_of(alloc, rest).map_err(|why| fault(2, why))?;
    let places = code.len() as u64;
    let (memory, rest) = memory_of(alloc, rest).map_err(|why| fault(3, why))?;
    let words = memory.len() as u64;
    let (inputs, rest) = signals_of(alloc, rest, b"inputs ", words).map_err(|why| fault(4, why))?;
    let (outputs, rest) = signals_of(alloc, rest, b"outputs ", words).map_err(|why| fault(5, why))?;
    let (slots, rest) = slots_of(alloc, rest, places).map_err(|why| fault(6, why))?;
    let threads = slots.len() as u64;
    let (aborts, rest) = aborts_of(alloc, rest, places).map_err(|why| fault(7, why))?;
    let lines = aborts.len() as u64;
    let (pauses, rest) = points_of(alloc, rest, b"pauses ", places, threads, lines).map_err(
        |why| fault(8, why),
    )?;
    let (forks, rest) = points_of(alloc, rest, b"forks ", places, threads, lines).map_err(
        |why| fault(9, why),
    )?;
    let parts = Parts {
        code: Many::of(code),
        memory: Many::of(memory),
        inputs: Many::of(inputs),
        outputs: Many::of(outputs),
        slots: Many::of(slots),
        aborts: Many::of(aborts),
        pauses: Many::of(pauses),
        forks: Many::of(forks),
    };
    ended(parts, rest)
}

impl Image {
    /// The image whose text it is; linear in the text. Else the number of the first group of lines at fault, from 1 to 10.
    pub fn read(alloc: Global, text: &Text) -> Result<Image, ImageFault>
        ensures spelled { IfOk result (λ image. text.now ≡ text_of image) }
        ensures words { IfOk result (λ image. AreWords image) }
        ensures only { (p : Lists) → IsImage p → AreWords p → text.now ≡ text_of p → IsRead p result }
        ensures fault { FaultIsFirst text.now result }
    {
        let parts = parts_of(alloc, text.bytes())?;
        Ok(Image::of(parts))
    }
}
