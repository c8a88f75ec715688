ghost use Rattle.std.specs.Prelude.{◌≡◌, ◌≤◌, IfOk, IsTrue, is_some, is_ok, length, None, Some, Ok, if◌then◌else◌};
ghost use Rattle.mb_isa.specs.Costs.{IsCosts};
ghost use Rattle.mb_pfu.specs.Tree.{next_test};
ghost use Rattle.mb_isa.specs.Control.{turns_on, tests_on};
ghost use Rattle.mb_isa.specs.Step.{samples_on};
ghost use Rattle.mb_isa.specs.Cells.{machine, outputs_of};
ghost use Rattle.mb_core.specs.Going.{went, KeepsTurn};
ghost use Rattle.mb_core.specs.Phases.{slot_in, place_in, control_of, moved, IsPhase, IsMoved, IsAdvance, IsAfterTurn, IsRun, IsTick};

use crate::core_state::Core;
use crate::loading::Loaded;
use crate::parts::{Moved, Phase, To, Trap, Went};
use mb_isa::Costs;
use mb_pfu::{Slot, TrapKind};

// The place where a tick is, unless no slot is ready.
fn place_in(phase: Phase) -> Option<u32>
    ensures { result ≡ place_in phase }
{
    match phase {
        Phase::Testing(place) => Some(place),
        Phase::Running { place, .. } => Some(place),
        Phase::Resting => None,
    }
}

// The slot whose turn it is, in a turn.
fn slot_in(phase: Phase) -> Option<u32>
    ensures { result ≡ slot_in phase }
{
    match phase {
        Phase::Testing(_) => None,
        Phase::Running { s, .. } => Some(s),
        Phase::Resting => None,
    }
}

impl Core {
    // The first ready slot takes its turn.
    fn begin_turn(&mut self) -> Phase
        ensures control { control_of result self.new ≡ turns_on self.old.unit }
        ensures state { self.new ≡ record self.old { upper = None } }
        ensures phase { IsPhase result self.new.unit }
    {
        self.clear();
        match self.unit().next_job() {
            None => Phase::Resting,
            Some(s) => match self.unit().slot(s) {
                Slot::Free => Phase::Resting,
                Slot::Ready(place) => Phase::Running { s, place },
                Slot::Paused(_) => Phase::Resting,
                Slot::Waiting { .. } => Phase::Resting,
                Slot::Ended => Phase::Resting,
            },
        }
    }

    // The condition of the first due test runs; where none is due, the inputs are sampled, the paused slots wake, and
    // the turns begin.
    fn begin_test(&mut self, loaded: &Loaded, values: &[i32]) -> Phase
        requires row { length values.now ≡ length loaded.now.inputs }
        ensures control { control_of result self.new ≡ tests_on self.old.unit }
        ensures cells { self.new.cells ≡ samples_on (machine loaded.now values.now) self.old.unit self.old.cells }
        ensures phase { IsPhase result self.new.unit }
    {
        self.clear();
        match self.unit().next_test() {
            None => {
                self.sample(loaded, values);
                self.wake();
                self.begin_turn()
            }
            Some((s, i)) => Phase::Testing(self.unit().entry(s, i).cond),
        }
    }

    // The step of a phase, and what comes after it.
    fn advance(
        &mut self,
        loaded: &Loaded,
        costs: &Costs,
        values: &[i32],
        phase: Phase,
        place: u32,
    ) -> Result<Moved, TrapKind>
        requires row { length values.now ≡ length loaded.now.inputs }
        requires size { length loaded.now.code ≤ 65536 }
        requires phase { IsPhase phase self.old.unit }
        requires place { place_in phase ≡ Some place }
        ensures step { IsAdvance loaded.now costs.now values.now phase self.old result self.new }
        ensures phase { IsMoved result self.new.unit }
    {
        match self.step(loaded, costs, slot_in(phase), place) {
            Err(kind) => Err(kind),
            Ok(did) => match phase {
                Phase::Testing(_) => Ok(self.after_test(loaded, values, did)),
                Phase::Running { s, .. } => Ok(self.after_turn(s, did)),
                Phase::Resting => Err(TrapKind::Late),
            },
        }
    }

    // What comes after a step of a condition.
    fn after_test(&mut self, loaded: &Loaded, values: &[i32], did: Went) -> Moved
        requires row { length values.now ≡ length loaded.now.inputs }
        requires due { IsTrue (is_some (next_test self.old.unit.tree)) }
        ensures step { went (machine loaded.now values.now) None (Ok did) self.old ≡ moved (Ok result) self.new }
        ensures phase { IsPhase result.phase self.new.unit }
    {
        match did.to {
            To::On(place) => Moved {
                charge: did.charge,
                phase: Phase::Testing(place),
            },
            To::Rest => {
                let phase = self.begin_turn();
                Moved {
                    charge: did.charge,
                    phase,
                }
            }
            To::Conclude(holds) => {
                self.answer(holds);
                let phase = self.begin_test(loaded, values);
                Moved {
                    charge: did.charge,
                    phase,
                }
            }
        }
    }

    // What comes after a step of a slot in its turn.
    fn after_turn(&mut self, s: u32, did: Went) -> Moved
        requires kept { KeepsTurn s did.to self.old.unit }
        ensures step { IsAfterTurn s did self.old result self.new }
        ensures phase { IsPhase result.phase self.new.unit }
    {
        match did.to {
            To::On(place) => Moved {
                charge: did.charge,
                phase: Phase::Running { s, place },
            },
            To::Rest => {
                let phase = self.begin_turn();
                Moved {
                    charge: did.charge,
                    phase,
                }
            }
            To::Conclude(_) => Moved {
                charge: did.charge,
                phase: Phase::Resting,
            },
        }
    }

    // Steps, until no slot is ready.
    fn run(
        &mut self,
        loaded: &Loaded,
        costs: &Costs,
        values: &[i32],
        most: u64,
        begin: u64,
        start: Phase,
    ) -> Result<u64, Trap>
        requires row { length values.now ≡ length loaded.now.inputs }
        requires begin { begin ≤ most }
        requires priced { IsCosts costs.now }
        requires size { length loaded.now.code ≤ 65536 }
        requires phase { IsPhase start self.old.unit }
        ensures steps { IsRun loaded.now costs.now values.now most begin start self.old result self.new }
        ensures within { IfOk result (λ cycles. cycles ≤ most) }
    {
        let mut charged = begin;
        let mut phase = start;
        'steps: while let Some(place) = place_in(phase) {
            match self.advance(loaded, costs, values, phase, place) {
                Err(kind) => return Err(Trap { kind, at: place }),
                Ok(moved) => {
                    if most - charged < moved.charge {
                        return Err(Trap {
                            kind: TrapKind::Late,
                            at: place,
                        });
                    }
                    charged += moved.charge;
                    phase = moved.phase;
                }
            }
        }
        Ok(charged)
    }
}

// The outputs' words.
fn take_outputs(core: &Core, loaded: &Loaded, out: &mut [i32])
    requires out { length out.old ≡ length loaded.now.outputs }
    ensures { out.new ≡ outputs_of loaded.now core.now.cells }
{
    for (i, place) in loaded.image().outputs().iter().enumerate() {
        out[i] = core.word_at(*place as usize);
    }
}

/// The next tick, on one value per input, with one place per output in `out`. `Ok` gives the cycles and fills `out`; a
/// trap leaves it.
pub fn tick(
    core: &mut Core,
    loaded: &Loaded,
    costs: &Costs,
    values: &[i32],
    out: &mut [i32],
    most: u64,
) -> Result<u64, Trap>
    requires row { length values.now ≡ length loaded.now.inputs }
    requires out { length out.old ≡ length loaded.now.outputs }
    ensures tick { IsTick loaded.now costs.now values.now most core.old result core.new }
    ensures within { IfOk result (λ cycles. cycles ≤ most) }
    ensures outputs { out.new ≡ (if is_ok result then outputs_of loaded.now core.new.cells else out.old) }
{
    let image = loaded.image();
    image.ranges();
    let base = costs.tick(image.inputs().len(), image.outputs().len());
    if most < base {
        return Err(Trap {
            kind: TrapKind::Late,
            at: 0,
        });
    }
    core.begin_tests();
    let start = core.begin_test(loaded, values);
    match core.run(loaded, costs, values, most, base, start) {
        Err(trap) => Err(trap),
        Ok(cycles) => {
            take_outputs(core, loaded, out);
            Ok(cycles)
        }
    }
}
