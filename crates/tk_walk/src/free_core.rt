ghost use Rattle.std.specs.Prelude.{◌≡◌, ◌≤◌, ◌<◌, ◌+◌, ◌^◌, ℕ, Option, IsTrue, is_some, Some, None, Ok, length, drop, option_map};
ghost use Rattle.mb_pfu.specs.Tree.{next_test};
ghost use Rattle.mb_isa.specs.declared.Instr.TheVariants as words;
ghost use Rattle.mb_isa.specs.Control.{wakes, answered};
ghost use Rattle.mb_isa.specs.Free.{chosen};
ghost use Rattle.mb_isa.specs.Tick.{begun};
ghost use Rattle.tk_walk.specs.Going.{left, chose, IsSpent, work_at, branch_at, branched_at, decoded_at, plan_there};
ghost use Rattle.tk_walk.specs.Going.{IsStep, IsWord, IsLed, IsTarget, IsTurn, Keeps};
ghost use Rattle.tk_walk.specs.Listing.{AreListings};

use crate::listing::Listing;
use crate::parts::{Stop, To, Went};
use mb_isa::{Class, Costs, Instr, Reg, branch_place, class, decode, immediate, takes_upper};
use mb_pfu::{TrapKind, Unit};
use pt_image::Image;
use std::marker::Model;

/// The unit, the upper half that stands, and how many choices were taken.
#[derive(Drop)]
pub struct FreeCore {
    pub(crate) unit: Unit,
    pub(crate) upper: Option<i16>,
    used: usize,
}

impl Model for FreeCore {
    ghost use Rattle.tk_walk.specs.Going.{FreeState};
    ghost use Rattle.mb_pfu.specs.Stored.{state_code};
    ghost use Rattle.std.specs.Coded.{codes};

    ghost Value = { FreeState };

    ghost coded = { Prim.hlevel (codes, state_code) };

    ghost view = { λ c. record { unit = c.unit; upper = c.upper; used = c.used } };
}

impl FreeCore {
    /// No upper half stands, and no choice was taken.
    pub fn of(unit: Unit) -> FreeCore
        ensures { result ≡ record { unit = unit; upper = None; used = 0 } }
    {
        FreeCore {
            unit,
            upper: None,
            used: 0,
        }
    }

    /// Whether no choice is left.
    pub fn is_spent(&self, choices: &[bool]) -> bool
        ensures { IsSpent choices.now self.now result }
    {
        self.used >= choices.len()
    }

    // The next choice.
    fn choose(&mut self, choices: &[bool]) -> Option<bool>
        ensures choice { chosen (left choices.now self.old) ≡ chose result (left choices.now self.new) }
        ensures rest { self.new ≡ record self.old { used = self.new.used } }
    {
        if self.used < choices.len() {
            let choice = choices[self.used];
            self.used += 1;
            Some(choice)
        } else {
            None
        }
    }

    // A word that computes, loads or stores.
    fn work(
        &mut self,
        choices: &[bool],
        costs: &Costs,
        slot: Option<u32>,
        place: u32,
        i: Instr,
    ) -> Result<Went, Stop>
        requires low { place < 2 ^ 20 }
        requires ready { IsTurn slot self.old.unit }
        ensures step { IsStep choices.now costs.now slot (work_at slot place self.old i) self.old result self.new }
        ensures kept { Keeps slot self.old.unit result self.new.unit }
    {
        self.pass(costs.cost(class(&i, false)), place, None)
    }

    // The place to which a branch leads, if it is one of the code.
    fn target(&self, image: &Image, place: u32, imm: i16) -> Option<u32>
        requires low { place < 2 ^ 20 }
        ensures { IsTarget image.now place self.now imm result }
    {
        branch_place(image.code().len(), place, immediate(self.upper, imm))
    }

    // It goes on at the next word.
    fn pass(&mut self, charge: u64, place: u32, upper: Option<i16>) -> Result<Went, Stop>
        requires low { place < 2 ^ 20 }
        ensures done { result ≡ Ok (record { charge = charge; to = To.On (place + 1) }) }
        ensures state { self.new ≡ record self.old { upper = upper } }
    {
        self.upper = upper;
        Ok(Went {
            charge,
            to: To::On(place + 1),
        })
    }

    // It goes on where a branch leads that is taken.
    fn lead(
        &mut self,
        choices: &[bool],
        image: &Image,
        costs: &Costs,
        slot: Option<u32>,
        place: u32,
        imm: i16,
    ) -> Result<Went, Stop>
        requires low { place < 2 ^ 20 }
        requires ready { IsTurn slot self.old.unit }
        ensures step { IsLed choices.now costs.now slot (branched_at image.now slot place self.old imm) self.old result self.new }
        ensures kept { Keeps slot self.old.unit result self.new.unit }
    {
        match self.target(image, place, imm) {
            None => Err(Stop::Trap(TrapKind::OutOfCode)),
            Some(to) => {
                self.upper = None;
                Ok(Went {
                    charge: costs.cost(Class::Taken),
                    to: To::On(to),
                })
            }
        }
    }

    // `bri`.
    fn jump(
        &mut self,
        choices: &[bool],
        image: &Image,
        costs: &Costs,
        slot: Option<u32>,
        place: u32,
        imm: i16,
    ) -> Result<Went, Stop>
        requires low { place < 2 ^ 20 }
        requires ready { IsTurn slot self.old.unit }
        ensures step { IsWord choices.now image.now costs.now slot place (words.Bri imm) self.old result self.new }
        ensures kept { Keeps slot self.old.unit result self.new.unit }
    {
        match self.target(image, place, imm) {
            None => Err(Stop::Trap(TrapKind::OutOfCode)),
            Some(to) => {
                self.upper = None;
                Ok(Went {
                    charge: costs.cost(Class::Jump),
                    to: To::On(to),
                })
            }
        }
    }

    // A conditional branch.
    fn branch(
        &mut self,
        choices: &[bool],
        image: &Image,
        costs: &Costs,
        slot: Option<u32>,
        place: u32,
        i: Instr,
        imm: i16,
    ) -> Result<Went, Stop>
        requires low { place < 2 ^ 20 }
        requires ready { IsTurn slot self.old.unit }
        ensures step { IsStep choices.now costs.now slot (branch_at image.now slot place self.old i imm) self.old result self.new }
        ensures kept { Keeps slot self.old.unit result self.new.unit }
    {
        match self.choose(choices) {
            None => Err(Stop::Open),
            Some(true) => self.lead(choices, image, costs, slot, place, imm),
            Some(false) => self.pass(costs.cost(Class::Untaken), place, None),
        }
    }

    // `imm`.
    fn imm(
        &mut self,
        choices: &[bool],
        image: &Image,
        costs: &Costs,
        slot: Option<u32>,
        place: u32,
        imm: i16,
    ) -> Result<Went, Stop>
        requires low { place < 2 ^ 20 }
        requires ready { IsTurn slot self.old.unit }
        ensures step { IsWord choices.now image.now costs.now slot place (words.Imm imm) self.old result self.new }
        ensures kept { Keeps slot self.old.unit result self.new.unit }
    {
        self.pass(costs.cost(Class::Imm), place, Some(imm))
    }

    // `cend`.
    fn cend(
        &mut self,
        choices: &[bool],
        image: &Image,
        costs: &Costs,
        slot: Option<u32>,
        place: u32,
        ra: Reg,
    ) -> Result<Went, Stop>
        requires ready { IsTurn slot self.old.unit }
        ensures step { IsWord choices.now image.now costs.now slot place (words.Cend ra) self.old result self.new }
        ensures kept { Keeps slot self.old.unit result self.new.unit }
    {
        match slot {
            Some(_) => Err(Stop::Trap(TrapKind::WrongPlace)),
            None => match self.choose(choices) {
                None => Err(Stop::Open),
                Some(holds) => Ok(Went {
                    charge: costs.cost(Class::Cend),
                    to: To::Conclude(holds),
                }),
            },
        }
    }

    // A word is done.
    fn word(
        &mut self,
        choices: &[bool],
        image: &Image,
        listing: &Listing,
        costs: &Costs,
        slot: Option<u32>,
        place: u32,
        i: Instr,
    ) -> Result<Went, Stop>
        requires listing { AreListings image.now listing.now }
        requires low { place < 2 ^ 20 }
        requires ready { IsTurn slot self.old.unit }
        ensures step { IsWord choices.now image.now costs.now slot place i self.old result self.new }
        ensures kept { Keeps slot self.old.unit result self.new.unit }
    {
        match i {
            Instr::Addk { .. } => self.work(choices, costs, slot, place, i),
            Instr::Rsubk { .. } => self.work(choices, costs, slot, place, i),
            Instr::Cmp { .. } => self.work(choices, costs, slot, place, i),
            Instr::Or { .. } => self.work(choices, costs, slot, place, i),
            Instr::And { .. } => self.work(choices, costs, slot, place, i),
            Instr::Xor { .. } => self.work(choices, costs, slot, place, i),
            Instr::Mul { .. } => self.work(choices, costs, slot, place, i),
            Instr::Idiv { .. } => self.work(choices, costs, slot, place, i),
            Instr::Bsrl { .. } => self.work(choices, costs, slot, place, i),
            Instr::Bsra { .. } => self.work(choices, costs, slot, place, i),
            Instr::Bsll { .. } => self.work(choices, costs, slot, place, i),
            Instr::Addik { .. } => self.work(choices, costs, slot, place, i),
            Instr::Ori { .. } => self.work(choices, costs, slot, place, i),
            Instr::Andi { .. } => self.work(choices, costs, slot, place, i),
            Instr::Xori { .. } => self.work(choices, costs, slot, place, i),
            Instr::Lw { .. } => self.work(choices, costs, slot, place, i),
            Instr::Sw { .. } => self.work(choices, costs, slot, place, i),
            Instr::Lwi { .. } => self.work(choices, costs, slot, place, i),
            Instr::Swi { .. } => self.work(choices, costs, slot, place, i),
            Instr::Imm { imm } => self.imm(choices, image, costs, slot, place, imm),
            Instr::Bri { imm } => self.jump(choices, image, costs, slot, place, imm),
            Instr::Beqi { imm, .. } => self.branch(choices, image, costs, slot, place, i, imm),
            Instr::Bnei { imm, .. } => self.branch(choices, image, costs, slot, place, i, imm),
            Instr::Blti { imm, .. } => self.branch(choices, image, costs, slot, place, i, imm),
            Instr::Blei { imm, .. } => self.branch(choices, image, costs, slot, place, i, imm),
            Instr::Bgti { imm, .. } => self.branch(choices, image, costs, slot, place, i, imm),
            Instr::Bgei { imm, .. } => self.branch(choices, image, costs, slot, place, i, imm),
            Instr::Fork { lo, count } => self.fork_in(
                choices, image, listing, costs, slot, place, lo, count,
            ),
            Instr::Eot => self.eot_in(choices, image, listing, costs, slot, place),
            Instr::End => self.end_in(choices, image, costs, slot, place),
            Instr::Abrt { number } => self.abrt_in(choices, image, costs, slot, place, number),
            Instr::Leave => self.leave_in(choices, image, costs, slot, place),
            Instr::Call { target } => self.call_in(choices, image, costs, slot, place, target),
            Instr::Ret => self.ret_in(choices, image, costs, slot, place),
            Instr::Loop { turns } => self.loop_in(choices, image, costs, slot, place, turns),
            Instr::Next { target } => self.next_in(choices, image, costs, slot, place, target),
            Instr::Drop => self.drop_in(choices, image, costs, slot, place),
            Instr::Cend { ra } => self.cend(choices, image, costs, slot, place, ra),
        }
    }

    // The step of a word that was decoded.
    fn found(
        &mut self,
        choices: &[bool],
        image: &Image,
        listing: &Listing,
        costs: &Costs,
        slot: Option<u32>,
        place: u32,
        word: Option<Instr>,
    ) -> Result<Went, Stop>
        requires listing { AreListings image.now listing.now }
        requires low { place < 2 ^ 20 }
        requires ready { IsTurn slot self.old.unit }
        ensures step { IsStep choices.now costs.now slot (decoded_at image.now slot place self.old word) self.old result self.new }
        ensures kept { Keeps slot self.old.unit result self.new.unit }
    {
        match word {
            None => Err(Stop::Trap(TrapKind::BadWord)),
            Some(i) => {
                if self.upper.is_some() && !takes_upper(&i) {
                    return Err(Stop::Trap(TrapKind::WrongPlace));
                }
                self.word(choices, image, listing, costs, slot, place, i)
            }
        }
    }

    /// The step of a slot in its turn, or of a condition, at a place.
    pub fn step(
        &mut self,
        choices: &[bool],
        image: &Image,
        listing: &Listing,
        costs: &Costs,
        slot: Option<u32>,
        place: u32,
    ) -> Result<Went, Stop>
        requires listing { AreListings image.now listing.now }
        requires size { length image.now.code ≤ 65536 }
        requires ready { IsTurn slot self.old.unit }
        ensures step { IsStep choices.now costs.now slot (plan_there image.now slot place self.old) self.old result self.new }
        ensures kept { Keeps slot self.old.unit result self.new.unit }
    {
        match image.code().get(place as usize) {
            None => Err(Stop::Trap(TrapKind::OutOfCode)),
            Some(word) => self.found(choices, image, listing, costs, slot, place, decode(*word)),
        }
    }

    /// The unit.
    pub fn unit(&self) -> &Unit
        ensures { result.now ≡ self.now.unit }
    {
        &self.unit
    }

    /// No upper half stands.
    pub fn clear(&mut self)
        ensures { self.new ≡ record self.old { upper = None } }
    {
        self.upper = None;
    }

    /// The paused slots are ready one word on.
    pub fn wake(&mut self)
        ensures { self.new ≡ record self.old { unit = wakes self.old.unit } }
    {
        self.unit.wake();
    }

    /// A condition has ended.
    pub fn answer(&mut self, holds: bool)
        requires due { IsTrue (is_some (next_test self.old.unit.tree)) }
        ensures { self.new ≡ record self.old { unit = answered holds self.old.unit } }
    {
        self.unit.answer(holds);
    }

    /// Every entry is aged and not fired, and its condition is due.
    pub fn begin_tests(&mut self)
        ensures { self.new ≡ record self.old { unit = begun self.old.unit } }
    {
        self.unit.begin_tests();
    }
}
