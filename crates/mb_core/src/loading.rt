ghost use Rattle.std.specs.Prelude.{◌≡◌, ◌<◌, IfOk, IsTrue, length, map, option_map, slice_get};
ghost use Rattle.mb_isa.specs.Candidates.{decoded};
ghost use Rattle.pt_image.specs.Listed.{is_listed};

use crate::tables::{is_in, table_of};
use mb_isa::{Instr, decode};
use pt_base::{Many, Memory};
use pt_image::{Image, Parts, Point};
use std::alloc::Global;
use std::marker::Model;

// A copy of a list of points.
fn points(alloc: Global, points: &[Point]) -> Result<Many<Point>, Memory>
    ensures { IfOk result (λ copy. copy ≡ points.now) }
{
    let mut copy = Vec::new(alloc);
    for point in points {
        let stack = point.stack.items().to_vec(alloc)?;
        let pushed = copy.push(Point {
            at: point.at,
            slot: point.slot,
            stack: Many::of(stack),
        });
        if pushed.is_err() {
            return Err(Memory);
        }
    }
    Ok(Many::of(copy))
}

// A copy of an image's lists.
fn parts(alloc: Global, image: &Image) -> Result<Parts, Memory>
    ensures { IfOk result (λ copy. copy ≡ image.now) }
{
    Ok(Parts {
        code: Many::of(image.code().to_vec(alloc)?),
        memory: Many::of(image.memory().to_vec(alloc)?),
        inputs: Many::of(image.inputs().to_vec(alloc)?),
        outputs: Many::of(image.outputs().to_vec(alloc)?),
        slots: Many::of(image.slots().to_vec(alloc)?),
        aborts: Many::of(image.aborts().to_vec(alloc)?),
        pauses: points(alloc, image.pauses())?,
        forks: points(alloc, image.forks())?,
    })
}

// A copy of an image.
fn copied(alloc: Global, image: &Image) -> Result<Image, Memory>
    ensures { IfOk result (λ copy. copy ≡ image.now) }
{
    image.ranges();
    let copy = parts(alloc, image)?;
    Ok(Image::of(copy))
}

// The words of a code, decoded.
fn words(alloc: Global, code: &[u32]) -> Result<Vec<Option<Instr>>, Memory>
    ensures { IfOk result (λ words. words.items ≡ map decoded code.now) }
{
    let mut words = Vec::new(alloc);
    for word in code {
        if words.push(decode(*word)).is_err() {
            return Err(Memory);
        }
    }
    Ok(words)
}

/// An image made ready to run: its code is decoded, and its listed pauses and forks stand in tables by place.
#[derive(Drop)]
pub struct Loaded {
    image: Image,
    words: Vec<Option<Instr>>,
    pauses: Vec<Option<u32>>,
    forks: Vec<Option<u32>>,
}

impl Model for Loaded {
    ghost use Rattle.std.specs.Prelude.{◌≡◌, map};
    ghost use Rattle.mb_isa.specs.Candidates.{decoded};
    ghost use Rattle.pt_image.specs.declared.Parts.{Parts};
    ghost use Rattle.mb_core.specs.Tables.{IsTable};

    ghost Value = { Parts };

    ghost view = { λ l. l.image };

    ghost invariant = { λ l. (l.words.items ≡ map decoded l.image.code) × IsTable l.image.pauses l.pauses.items ×
        IsTable l.image.forks l.forks.items };
}

impl Loaded {
    /// A copy of an image, made ready to run.
    pub fn of(alloc: Global, image: &Image) -> Result<Loaded, Memory>
        ensures { IfOk result (λ loaded. loaded ≡ image.now) }
    {
        let image = copied(alloc, image)?;
        image.ranges();
        let words = words(alloc, image.code())?;
        let pauses = table_of(alloc, image.code().len(), image.pauses())?;
        let forks = table_of(alloc, image.code().len(), image.forks())?;
        Ok(Loaded {
            image,
            words,
            pauses,
            forks,
        })
    }

    /// The image.
    pub fn image(&self) -> &Image
        ensures { result.now ≡ self.now }
    {
        &self.image
    }

    /// The word at a place of the code, decoded; none where it doesn't decode.
    pub fn word(&self, place: usize) -> Option<Option<Instr>>
        ensures { result ≡ option_map decoded (slice_get self.now.code place) }
    {
        self.words.get(place).copied()
    }

    /// Whether a pause is listed with this place, slot and stack of abort numbers.
    pub fn is_pause(&self, place: u32, slot: u32, stack: &[u32]) -> bool
        ensures { result ≡ is_listed self.now.pauses place slot stack.now }
    {
        is_in(self.image.pauses(), &self.pauses, place, slot, stack)
    }

    /// Whether a fork is listed with this place, slot and stack of abort numbers.
    pub fn is_fork(&self, place: u32, slot: u32, stack: &[u32]) -> bool
        ensures { result ≡ is_listed self.now.forks place slot stack.now }
    {
        is_in(self.image.forks(), &self.forks, place, slot, stack)
    }
}
