ghost use Rattle.std.specs.Prelude.{◌≡◌, ◌∷◌, [], OnOk, IsTrue, length};
ghost use Rattle.pc_regs.specs.Writings.{instrs};
ghost use Rattle.pc_regs.specs.Placement.{IsPlacement};
ghost use Rattle.pc_regs.specs.Words.{steps_words, test_words, are_written, is_test_written};
ghost use Rattle.pc_emit.specs.Part.{joined, just, pausing, forking, entering};

use mb_isa::Instr;
use pc_lower::{Step, Test};
use pc_regs::{Placement, push_steps, push_test};
use pt_base::{Many, Memory};
use pt_image::Point;
use std::alloc::Global;
use std::marker::Model;

/// The words and tables so far.
#[derive(Drop)]
pub struct Draft {
    words: Vec<Instr>,
    pauses: Vec<Point>,
    forks: Vec<Point>,
    handlers: Vec<u32>,
}

impl Model for Draft {
    ghost use Rattle.pc_emit.specs.Part.{Part};

    ghost Value = { Part };

    ghost view = { λ d. record { words = d.words.items; pauses = d.pauses.items; forks = d.forks.items; handlers = d.handlers.items } };
}

impl Draft {
    /// Nothing yet.
    pub fn new(alloc: Global) -> Draft
        ensures { result ≡ just [] }
    {
        Draft {
            words: Vec::new(alloc),
            pauses: Vec::new(alloc),
            forks: Vec::new(alloc),
            handlers: Vec::new(alloc),
        }
    }

    /// The words.
    pub fn words(&self) -> &[Instr]
        ensures { result.now ≡ self.now.words }
    {
        &self.words
    }

    /// The handlers of aborts.
    pub fn handlers(&self) -> &[u32]
        ensures { result.now ≡ self.now.handlers }
    {
        &self.handlers
    }

    /// The pauses and the forks.
    pub fn points(self) -> (Many<Point>, Many<Point>)
        ensures { (result.0 ≡ self.pauses) × (result.1 ≡ self.forks) }
    {
        (Many::of(self.pauses), Many::of(self.forks))
    }

    /// The next place.
    pub fn place(&self) -> usize
        ensures { result ≡ length self.now.words }
    {
        self.words.len()
    }

    /// Puts words at the end.
    pub fn push_all(&mut self, words: &[Instr]) -> Result<(), Memory>
        ensures { OnOk result (self.new ≡ joined self.old (just words.now)) }
    {
        self.words.extend_from_slice(words)?;
        Ok(())
    }

    /// Puts the words of steps at the end.
    pub fn push_steps(&mut self, placement: Placement, steps: &[Step]) -> Result<(), Memory>
        requires room { IsPlacement placement }
        requires written { IsTrue (are_written placement steps.now) }
        ensures { OnOk result (self.new ≡ joined self.old (just (instrs (steps_words placement steps.now)))) }
    {
        push_steps(&mut self.words, placement, steps)?;
        Ok(())
    }

    /// Puts the words of a test at the end.
    pub fn push_test(&mut self, placement: Placement, test: &Test) -> Result<(), Memory>
        requires room { IsPlacement placement }
        requires written { IsTrue (is_test_written placement test.now) }
        ensures { OnOk result (self.new ≡ joined self.old (just (instrs (test_words placement test.now)))) }
    {
        push_test(&mut self.words, placement, test)?;
        Ok(())
    }

    /// Puts an `eot` at the end, and its point into the list.
    pub fn push_pause(&mut self, point: Point) -> Result<(), Memory>
        ensures { OnOk result (self.new ≡ joined self.old (pausing point)) }
    {
        self.pauses.push(point)?;
        self.words.push(Instr::Eot)?;
        Ok(())
    }

    /// Puts a `fork` at the end, and its point into the list.
    pub fn push_fork(&mut self, lo: u8, count: u8, point: Point) -> Result<(), Memory>
        ensures { OnOk result (self.new ≡ joined self.old (forking lo count point)) }
    {
        self.forks.push(point)?;
        self.words.push(Instr::Fork { lo, count })?;
        Ok(())
    }

    /// Puts an `abrt` at the end, and its handler into the list.
    pub fn push_abort(&mut self, number: u16, handler: u32) -> Result<(), Memory>
        ensures { OnOk result (self.new ≡ joined self.old (entering number handler)) }
    {
        self.handlers.push(handler)?;
        self.words.push(Instr::Abrt { number })?;
        Ok(())
    }
}
