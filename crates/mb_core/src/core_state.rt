ghost use Rattle.std.specs.Prelude.{◌≡◌, ◌≤◌, ◌<◌, ◌+◌, ◌^◌, ℕ, Option, IsTrue, is_some, Some, None, Ok, length};
ghost use Rattle.mb_pfu.specs.Tree.{slot_of, next_test};
ghost use Rattle.mb_isa.specs.declared.Instr.TheVariants as words;
ghost use Rattle.mb_isa.specs.Control.{wakes, answered};
ghost use Rattle.mb_isa.specs.Cells.{machine, word_at};
ghost use Rattle.mb_isa.specs.Tick.{begun};
ghost use Rattle.mb_core.specs.Going.{core_of, work_at, branch_at, branched_at, found_at, plan_there};
ghost use Rattle.mb_core.specs.Going.{IsStep, IsWord, IsLed, IsTarget, IsTurn, Keeps};

use crate::loading::Loaded;
use crate::parts::{To, Went};
use mb_isa::{
    Class, Costs, Instr, Reg, Store, branch_place, class, immediate, sample, takes_upper,
};
use mb_pfu::{Slot, TrapKind, Unit};
use std::marker::Model;

/// The registers and the memory, the unit, and the upper half that stands.
#[derive(Drop)]
pub struct Core {
    store: Store,
    pub(crate) unit: Unit,
    pub(crate) upper: Option<i16>,
}

impl Model for Core {
    ghost use Rattle.mb_isa.specs.Tick.{begun};
    ghost use Rattle.mb_core.specs.Going.{CoreState};
    ghost use Rattle.mb_pfu.specs.Stored.{state_code};
    ghost use Rattle.std.specs.Coded.{codes};

    ghost Value = { CoreState };

    ghost coded = { Prim.hlevel (codes, state_code) };

    ghost view = { λ c. record { cells = c.store; unit = c.unit; upper = c.upper } };
}

impl Core {
    /// The loaded state: all registers are 0, and no upper half stands.
    pub fn of(memory: Vec<i32>, unit: Unit) -> Core
        ensures { result ≡ core_of memory.items unit }
    {
        Core {
            store: Store::of(memory),
            unit,
            upper: None,
        }
    }

    // The data do a word.
    fn work(
        &mut self,
        loaded: &Loaded,
        costs: &Costs,
        slot: Option<u32>,
        place: u32,
        i: Instr,
    ) -> Result<Went, TrapKind>
        requires low { place < 2 ^ 20 }
        requires ready { IsTurn slot self.old.unit }
        ensures step { IsStep loaded.now costs.now slot (work_at slot place self.old i) self.old result self.new }
        ensures kept { Keeps slot self.old.unit result self.new.unit }
    {
        let charge = costs.cost(class(&i, false));
        if !self.store.work(i, self.upper) {
            return Err(TrapKind::BadAddress);
        }
        self.upper = None;
        Ok(Went {
            charge,
            to: To::On(place + 1),
        })
    }

    // The place to which a branch leads, if it is one of the code.
    fn target(&self, loaded: &Loaded, place: u32, imm: i16) -> Option<u32>
        requires low { place < 2 ^ 20 }
        ensures { IsTarget loaded.now place self.now imm result }
    {
        branch_place(
            loaded.image().code().len(),
            place,
            immediate(self.upper, imm),
        )
    }

    // It goes on at the next word.
    fn pass(&mut self, charge: u64, place: u32, upper: Option<i16>) -> Result<Went, TrapKind>
        requires low { place < 2 ^ 20 }
        ensures done { result ≡ Ok (record { charge = charge; to = To.On (place + 1) }) }
        ensures state { self.new ≡ record self.old { upper = upper } }
    {
        self.upper = upper;
        Ok(Went {
            charge,
            to: To::On(place + 1),
        })
    }

    // It goes on where a branch leads that is taken.
    fn lead(
        &mut self,
        loaded: &Loaded,
        costs: &Costs,
        slot: Option<u32>,
        place: u32,
        imm: i16,
    ) -> Result<Went, TrapKind>
        requires low { place < 2 ^ 20 }
        requires ready { IsTurn slot self.old.unit }
        ensures step { IsLed loaded.now costs.now slot (branched_at loaded.now slot place self.old imm) self.old result self.new }
        ensures kept { Keeps slot self.old.unit result self.new.unit }
    {
        match self.target(loaded, place, imm) {
            None => Err(TrapKind::OutOfCode),
            Some(to) => {
                self.upper = None;
                Ok(Went {
                    charge: costs.cost(Class::Taken),
                    to: To::On(to),
                })
            }
        }
    }

    // `bri`.
    fn jump(
        &mut self,
        loaded: &Loaded,
        costs: &Costs,
        slot: Option<u32>,
        place: u32,
        imm: i16,
    ) -> Result<Went, TrapKind>
        requires low { place < 2 ^ 20 }
        requires ready { IsTurn slot self.old.unit }
        ensures step { IsWord loaded.now costs.now slot place (words.Bri imm) self.old result self.new }
        ensures kept { Keeps slot self.old.unit result self.new.unit }
    {
        match self.target(loaded, place, imm) {
            None => Err(TrapKind::OutOfCode),
            Some(to) => {
                self.upper = None;
                Ok(Went {
                    charge: costs.cost(Class::Jump),
                    to: To::On(to),
                })
            }
        }
    }

    // A conditional branch.
    #[inline(always)]
    fn branch(
        &mut self,
        loaded: &Loaded,
        costs: &Costs,
        slot: Option<u32>,
        place: u32,
        i: Instr,
        imm: i16,
    ) -> Result<Went, TrapKind>
        requires low { place < 2 ^ 20 }
        requires ready { IsTurn slot self.old.unit }
        ensures step { IsStep loaded.now costs.now slot (branch_at loaded.now slot place self.old i imm) self.old result self.new }
        ensures kept { Keeps slot self.old.unit result self.new.unit }
    {
        if self.store.is_taken(i) {
            return self.lead(loaded, costs, slot, place, imm);
        }
        self.pass(costs.cost(Class::Untaken), place, None)
    }

    // `imm`.
    fn imm(
        &mut self,
        loaded: &Loaded,
        costs: &Costs,
        slot: Option<u32>,
        place: u32,
        imm: i16,
    ) -> Result<Went, TrapKind>
        requires low { place < 2 ^ 20 }
        requires ready { IsTurn slot self.old.unit }
        ensures step { IsWord loaded.now costs.now slot place (words.Imm imm) self.old result self.new }
        ensures kept { Keeps slot self.old.unit result self.new.unit }
    {
        self.pass(costs.cost(Class::Imm), place, Some(imm))
    }

    // `cend`.
    fn cend(
        &mut self,
        loaded: &Loaded,
        costs: &Costs,
        slot: Option<u32>,
        place: u32,
        ra: Reg,
    ) -> Result<Went, TrapKind>
        requires ready { IsTurn slot self.old.unit }
        ensures step { IsWord loaded.now costs.now slot place (words.Cend ra) self.old result self.new }
        ensures kept { Keeps slot self.old.unit result self.new.unit }
    {
        match slot {
            Some(_) => Err(TrapKind::WrongPlace),
            None => Ok(Went {
                charge: costs.cost(Class::Cend),
                to: To::Conclude(self.store.register(ra) != 0),
            }),
        }
    }

    // A word is done.
    fn word(
        &mut self,
        loaded: &Loaded,
        costs: &Costs,
        slot: Option<u32>,
        place: u32,
        i: Instr,
    ) -> Result<Went, TrapKind>
        requires low { place < 2 ^ 20 }
        requires ready { IsTurn slot self.old.unit }
        ensures step { IsWord loaded.now costs.now slot place i self.old result self.new }
        ensures kept { Keeps slot self.old.unit result self.new.unit }
    {
        match i {
            Instr::Addk { .. }
            | Instr::Rsubk { .. }
            | Instr::Cmp { .. }
            | Instr::Or { .. }
            | Instr::And { .. }
            | Instr::Xor { .. }
            | Instr::Mul { .. }
            | Instr::Idiv { .. }
            | Instr::Bsrl { .. }
            | Instr::Bsra { .. }
            | Instr::Bsll { .. }
            | Instr::Addik { .. }
            | Instr::Ori { .. }
            | Instr::Andi { .. }
            | Instr::Xori { .. }
            | Instr::Lw { .. }
            | Instr::Sw { .. }
            | Instr::Lwi { .. }
            | Instr::Swi { .. } => self.work(loaded, costs, slot, place, i),
            Instr::Imm { imm } => self.imm(loaded, costs, slot, place, imm),
            Instr::Bri { imm } => self.jump(loaded, costs, slot, place, imm),
            Instr::Beqi { imm, .. } => self.branch(loaded, costs, slot, place, i, imm),
            Instr::Bnei { imm, .. } => self.branch(loaded, costs, slot, place, i, imm),
            Instr::Blti { imm, .. } => self.branch(loaded, costs, slot, place, i, imm),
            Instr::Blei { imm, .. } => self.branch(loaded, costs, slot, place, i, imm),
            Instr::Bgti { imm, .. } => self.branch(loaded, costs, slot, place, i, imm),
            Instr::Bgei { imm, .. } => self.branch(loaded, costs, slot, place, i, imm),
            Instr::Fork { lo, count } => self.fork_in(loaded, costs, slot, place, lo, count),
            Instr::Eot => self.eot_in(loaded, costs, slot, place),
            Instr::End => self.end_in(loaded, costs, slot, place),
            Instr::Abrt { number } => self.abrt_in(loaded, costs, slot, place, number),
            Instr::Leave => self.leave_in(loaded, costs, slot, place),
            Instr::Call { target } => self.call_in(loaded, costs, slot, place, target),
            Instr::Ret => self.ret_in(loaded, costs, slot, place),
            Instr::Loop { turns } => self.loop_in(loaded, costs, slot, place, turns),
            Instr::Next { target } => self.next_in(loaded, costs, slot, place, target),
            Instr::Drop => self.drop_in(loaded, costs, slot, place),
            Instr::Cend { ra } => self.cend(loaded, costs, slot, place, ra),
        }
    }

    // The step of a word that was looked up.
    fn found(
        &mut self,
        loaded: &Loaded,
        costs: &Costs,
        slot: Option<u32>,
        place: u32,
        word: Option<Option<Instr>>,
    ) -> Result<Went, TrapKind>
        requires low { place < 2 ^ 20 }
        requires ready { IsTurn slot self.old.unit }
        ensures step { IsStep loaded.now costs.now slot (found_at loaded.now slot place self.old word) self.old result self.new }
        ensures kept { Keeps slot self.old.unit result self.new.unit }
    {
        match word {
            None => Err(TrapKind::OutOfCode),
            Some(None) => Err(TrapKind::BadWord),
            Some(Some(i)) => {
                if self.upper.is_some() && !takes_upper(&i) {
                    return Err(TrapKind::WrongPlace);
                }
                self.word(loaded, costs, slot, place, i)
            }
        }
    }

    /// The step of a slot in its turn, or of a condition, at a place.
    #[tactic(auto, using(crate::proofs::Phases::found_word))]
    pub fn step(
        &mut self,
        loaded: &Loaded,
        costs: &Costs,
        slot: Option<u32>,
        place: u32,
    ) -> Result<Went, TrapKind>
        requires size { length loaded.now.code ≤ 65536 }
        requires ready { IsTurn slot self.old.unit }
        ensures step { IsStep loaded.now costs.now slot (plan_there loaded.now slot place self.old) self.old result self.new }
        ensures kept { Keeps slot self.old.unit result self.new.unit }
    {
        if place as usize >= loaded.image().code().len() {
            return Err(TrapKind::OutOfCode);
        }
        self.found(loaded, costs, slot, place, loaded.word(place as usize))
    }

    /// The unit.
    pub fn unit(&self) -> &Unit
        ensures { result.now ≡ self.now.unit }
    {
        &self.unit
    }

    /// No upper half stands.
    pub fn clear(&mut self)
        ensures { self.new ≡ record self.old { upper = None } }
    {
        self.upper = None;
    }

    /// The inputs are sampled.
    pub fn sample(&mut self, loaded: &Loaded, values: &[i32])
        requires row { length values.now ≡ length loaded.now.inputs }
        ensures { self.new ≡ record self.old { cells = (machine loaded.now values.now).sampled self.old.cells } }
    {
        sample(&mut self.store, loaded.image().inputs(), values);
    }

    /// The paused slots are ready one word on.
    pub fn wake(&mut self)
        ensures { self.new ≡ record self.old { unit = wakes self.old.unit } }
    {
        self.unit.wake();
    }

    /// A condition has ended.
    pub fn answer(&mut self, holds: bool)
        requires due { IsTrue (is_some (next_test self.old.unit.tree)) }
        ensures { self.new ≡ record self.old { unit = answered holds self.old.unit } }
    {
        self.unit.answer(holds);
    }

    /// Every entry is aged and not fired, and its condition is due.
    pub fn begin_tests(&mut self)
        ensures { self.new ≡ record self.old { unit = begun self.old.unit } }
    {
        self.unit.begin_tests();
    }

    /// What a slot does.
    pub fn slot(&self, s: u32) -> Slot
        ensures { result ≡ slot_of s self.now.unit.tree }
    {
        self.unit.slot(s)
    }

    /// What a memory word reads.
    pub fn word_at(&self, i: usize) -> i32
        ensures { result ≡ word_at self.now.cells i }
    {
        self.store.word(i)
    }
}
