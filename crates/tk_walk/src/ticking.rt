ghost use Rattle.std.specs.Prelude.{◌≡◌, ◌≤◌, IfSome, IsTrue, is_some, length, None, Some, Ok};
ghost use Rattle.mb_isa.specs.Costs.{IsCosts};
ghost use Rattle.mb_pfu.specs.Tree.{next_test};
ghost use Rattle.mb_isa.specs.Control.{turns_on, tests_on};
ghost use Rattle.tk_walk.specs.Going.{KeepsTurn};
ghost use Rattle.tk_walk.specs.Listing.{AreListings};
ghost use Rattle.tk_walk.specs.Phases.{place_in, control_of, IsPhase, IsMoved, IsAdvance, IsAfter, IsRun, IsTick};

use crate::free_core::FreeCore;
use crate::listing::Listing;
use crate::parts::{Moved, Phase, Stop, To, Went};
use mb_isa::Costs;
use mb_pfu::{Slot, TrapKind};
use pt_image::Image;

// The place where a tick is, unless no slot is ready.
fn place_in(phase: Phase) -> Option<u32>
    ensures { result ≡ place_in phase }
{
    match phase {
        Phase::Testing(place) => Some(place),
        Phase::Running { place, .. } => Some(place),
        Phase::Resting => None,
    }
}

impl FreeCore {
    // The first ready slot takes its turn.
    fn begin_turn(&mut self) -> Phase
        ensures control { control_of result self.new ≡ turns_on self.old.unit }
        ensures state { self.new ≡ record self.old { upper = None } }
        ensures phase { IsPhase result self.new.unit }
    {
        self.clear();
        match self.unit().next_job() {
            None => Phase::Resting,
            Some(s) => match self.unit().slot(s) {
                Slot::Free => Phase::Resting,
                Slot::Ready(place) => Phase::Running { s, place },
                Slot::Paused(_) => Phase::Resting,
                Slot::Waiting { .. } => Phase::Resting,
                Slot::Ended => Phase::Resting,
            },
        }
    }

    // The condition of the first due test runs; where none is due, the paused slots wake, and the turns begin.
    fn begin_test(&mut self) -> Phase
        ensures control { control_of result self.new ≡ tests_on self.old.unit }
        ensures used { self.new.used ≡ self.old.used }
        ensures phase { IsPhase result self.new.unit }
    {
        self.clear();
        match self.unit().next_test() {
            None => {
                self.wake();
                self.begin_turn()
            }
            Some((s, i)) => Phase::Testing(self.unit().entry(s, i).cond),
        }
    }

    // What comes after a step of a condition.
    #[tactic(auto, using(crate::proofs::Spending::samples_none))]
    fn after_test(&mut self, choices: &[bool], did: Went) -> Moved
        requires due { IsTrue (is_some (next_test self.old.unit.tree)) }
        ensures step { IsAfter choices.now None did self.old result self.new }
        ensures phase { IsPhase result.phase self.new.unit }
    {
        match did.to {
            To::On(place) => Moved {
                charge: did.charge,
                phase: Phase::Testing(place),
            },
            To::Rest => {
                let phase = self.begin_turn();
                Moved {
                    charge: did.charge,
                    phase,
                }
            }
            To::Conclude(holds) => {
                self.answer(holds);
                let phase = self.begin_test();
                Moved {
                    charge: did.charge,
                    phase,
                }
            }
        }
    }

    // What comes after a step of a slot in its turn.
    fn after_turn(&mut self, choices: &[bool], s: u32, did: Went) -> Moved
        requires kept { KeepsTurn s did.to self.old.unit }
        ensures step { IsAfter choices.now (Some s) did self.old result self.new }
        ensures phase { IsPhase result.phase self.new.unit }
    {
        match did.to {
            To::On(place) => Moved {
                charge: did.charge,
                phase: Phase::Running { s, place },
            },
            To::Rest => {
                let phase = self.begin_turn();
                Moved {
                    charge: did.charge,
                    phase,
                }
            }
            To::Conclude(_) => Moved {
                charge: did.charge,
                phase: Phase::Resting,
            },
        }
    }

    // The step of a phase, and what comes after it.
    fn advance(
        &mut self,
        choices: &[bool],
        image: &Image,
        listing: &Listing,
        costs: &Costs,
        phase: Phase,
        place: u32,
    ) -> Result<Moved, Stop>
        requires listing { AreListings image.now listing.now }
        requires size { length image.now.code ≤ 65536 }
        requires phase { IsPhase phase self.old.unit }
        requires place { place_in phase ≡ Some place }
        ensures step { IsAdvance choices.now image.now costs.now phase self.old result self.new }
        ensures phase { IsMoved result self.new.unit }
    {
        match phase {
            Phase::Testing(_) => match self.step(choices, image, listing, costs, None, place) {
                Err(stop) => Err(stop),
                Ok(did) => Ok(self.after_test(choices, did)),
            },
            Phase::Running { s, .. } => {
                match self.step(choices, image, listing, costs, Some(s), place) {
                    Err(stop) => Err(stop),
                    Ok(did) => Ok(self.after_turn(choices, s, did)),
                }
            }
            Phase::Resting => Err(Stop::Trap(TrapKind::Late)),
        }
    }

    // Steps, until no slot is ready; nothing where one isn't done, or where the cycles pass `most`.
    fn run(
        &mut self,
        choices: &[bool],
        image: &Image,
        listing: &Listing,
        costs: &Costs,
        most: u64,
        begin: u64,
        start: Phase,
    ) -> Option<u64>
        requires listing { AreListings image.now listing.now }
        requires begin { begin ≤ most }
        requires priced { IsCosts costs.now }
        requires size { length image.now.code ≤ 65536 }
        requires phase { IsPhase start self.old.unit }
        ensures steps { IsRun choices.now image.now costs.now most begin start self.old result self.new }
        ensures within { IfSome result (λ cycles. cycles ≤ most) }
    {
        let mut charged = begin;
        let mut phase = start;
        'steps: while let Some(place) = place_in(phase) {
            match self.advance(choices, image, listing, costs, phase, place) {
                Err(_) => return None,
                Ok(moved) => {
                    if most - charged < moved.charge {
                        return None;
                    }
                    charged += moved.charge;
                    phase = moved.phase;
                }
            }
        }
        Some(charged)
    }

    /// The cycles of a whole tick with these choices; `None` where it doesn't come to its end within `most` cycles.
    pub fn tick(
        &mut self,
        choices: &[bool],
        image: &Image,
        listing: &Listing,
        costs: &Costs,
        most: u64,
    ) -> Option<u64>
        requires listing { AreListings image.now listing.now }
        ensures tick { IsTick choices.now image.now costs.now most self.old result self.new }
        ensures within { IfSome result (λ cycles. cycles ≤ most) }
    {
        image.ranges();
        let base = costs.tick(image.inputs().len(), image.outputs().len());
        if most < base {
            return None;
        }
        self.begin_tests();
        let start = self.begin_test();
        self.run(choices, image, listing, costs, most, base, start)
    }
}
