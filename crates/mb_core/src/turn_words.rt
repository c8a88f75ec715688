//! The unit words as steps: each stands in the turn of a slot.

ghost use Rattle.std.specs.Prelude.{◌≡◌, ◌<◌, ◌+◌, ◌^◌, Some};
ghost use Rattle.mb_isa.specs.declared.Instr.TheVariants as words;
ghost use Rattle.mb_isa.specs.Came.{came, IsStillReady};
ghost use Rattle.mb_core.specs.Going.{IsStep, IsWord, IsTurn, Keeps};

use crate::core_state::Core;
use crate::loading::Loaded;
use crate::parts::{To, Went};
use mb_isa::{
    Class, Costs, abrt, call, drop_word, end, eot, fork_word, leave_word, loop_word, next, ret,
    stack_of, turns,
};
use mb_pfu::TrapKind;

impl Core {
    // A unit word has been done, or refused.
    fn come(
        &mut self,
        loaded: &Loaded,
        costs: &Costs,
        s: u32,
        kind: Class,
        did: Result<Option<u32>, TrapKind>,
    ) -> Result<Went, TrapKind>
        requires ready { IsStillReady s did self.old.unit }
        ensures step { IsStep loaded.now costs.now (Some s) (came kind s did self.old.unit) self.old result self.new }
        ensures kept { Keeps (Some s) self.old.unit result self.new.unit }
    {
        match did {
            Err(kind) => Err(kind),
            Ok(None) => Ok(Went {
                charge: costs.cost(kind),
                to: To::Rest,
            }),
            Ok(Some(place)) => {
                self.upper = None;
                Ok(Went {
                    charge: costs.cost(kind),
                    to: To::On(place),
                })
            }
        }
    }

    /// `end`.
    pub fn end_in(
        &mut self,
        loaded: &Loaded,
        costs: &Costs,
        slot: Option<u32>,
        place: u32,
    ) -> Result<Went, TrapKind>
        requires low { place < 2 ^ 20 }
        requires ready { IsTurn slot self.old.unit }
        ensures step { IsWord loaded.now costs.now slot place words.End self.old result self.new }
        ensures kept { Keeps slot self.old.unit result self.new.unit }
    {
        match slot {
            None => Err(TrapKind::WrongPlace),
            Some(s) => {
                let did = end(&mut self.unit, s, place);
                self.come(loaded, costs, s, Class::End, did)
            }
        }
    }

    /// `leave`.
    pub fn leave_in(
        &mut self,
        loaded: &Loaded,
        costs: &Costs,
        slot: Option<u32>,
        place: u32,
    ) -> Result<Went, TrapKind>
        requires low { place < 2 ^ 20 }
        requires ready { IsTurn slot self.old.unit }
        ensures step { IsWord loaded.now costs.now slot place words.Leave self.old result self.new }
        ensures kept { Keeps slot self.old.unit result self.new.unit }
    {
        match slot {
            None => Err(TrapKind::WrongPlace),
            Some(s) => {
                let did = leave_word(&mut self.unit, s, place);
                self.come(loaded, costs, s, Class::Leave, did)
            }
        }
    }

    /// `abrt`.
    pub fn abrt_in(
        &mut self,
        loaded: &Loaded,
        costs: &Costs,
        slot: Option<u32>,
        place: u32,
        number: u16,
    ) -> Result<Went, TrapKind>
        requires low { place < 2 ^ 20 }
        requires ready { IsTurn slot self.old.unit }
        ensures step { IsWord loaded.now costs.now slot place (words.Abrt number) self.old result self.new }
        ensures kept { Keeps slot self.old.unit result self.new.unit }
    {
        match slot {
            None => Err(TrapKind::WrongPlace),
            Some(s) => {
                let did = abrt(&mut self.unit, loaded.image(), s, place, number);
                self.come(loaded, costs, s, Class::Abrt, did)
            }
        }
    }

    /// `call`.
    pub fn call_in(
        &mut self,
        loaded: &Loaded,
        costs: &Costs,
        slot: Option<u32>,
        place: u32,
        target: u16,
    ) -> Result<Went, TrapKind>
        requires low { place < 2 ^ 20 }
        requires ready { IsTurn slot self.old.unit }
        ensures step { IsWord loaded.now costs.now slot place (words.Call target) self.old result self.new }
        ensures kept { Keeps slot self.old.unit result self.new.unit }
    {
        match slot {
            None => Err(TrapKind::WrongPlace),
            Some(s) => {
                let did = call(&mut self.unit, s, place, target);
                self.come(loaded, costs, s, Class::Call, did)
            }
        }
    }

    /// `ret`.
    pub fn ret_in(
        &mut self,
        loaded: &Loaded,
        costs: &Costs,
        slot: Option<u32>,
        place: u32,
    ) -> Result<Went, TrapKind>
        requires low { place < 2 ^ 20 }
        requires ready { IsTurn slot self.old.unit }
        ensures step { IsWord loaded.now costs.now slot place words.Ret self.old result self.new }
        ensures kept { Keeps slot self.old.unit result self.new.unit }
    {
        match slot {
            None => Err(TrapKind::WrongPlace),
            Some(s) => {
                let did = ret(&mut self.unit, s, place);
                self.come(loaded, costs, s, Class::Ret, did)
            }
        }
    }

    /// `next`.
    pub fn next_in(
        &mut self,
        loaded: &Loaded,
        costs: &Costs,
        slot: Option<u32>,
        place: u32,
        target: u16,
    ) -> Result<Went, TrapKind>
        requires low { place < 2 ^ 20 }
        requires ready { IsTurn slot self.old.unit }
        ensures step { IsWord loaded.now costs.now slot place (words.Next target) self.old result self.new }
        ensures kept { Keeps slot self.old.unit result self.new.unit }
    {
        match slot {
            None => Err(TrapKind::WrongPlace),
            Some(s) => {
                let did = next(&mut self.unit, s, place, target);
                self.come(loaded, costs, s, Class::Next, did)
            }
        }
    }

    /// `drop`.
    pub fn drop_in(
        &mut self,
        loaded: &Loaded,
        costs: &Costs,
        slot: Option<u32>,
        place: u32,
    ) -> Result<Went, TrapKind>
        requires low { place < 2 ^ 20 }
        requires ready { IsTurn slot self.old.unit }
        ensures step { IsWord loaded.now costs.now slot place words.Drop self.old result self.new }
        ensures kept { Keeps slot self.old.unit result self.new.unit }
    {
        match slot {
            None => Err(TrapKind::WrongPlace),
            Some(s) => {
                let did = drop_word(&mut self.unit, s, place);
                self.come(loaded, costs, s, Class::Drop, did)
            }
        }
    }

    /// `loop`.
    pub fn loop_in(
        &mut self,
        loaded: &Loaded,
        costs: &Costs,
        slot: Option<u32>,
        place: u32,
        low: u16,
    ) -> Result<Went, TrapKind>
        requires low { place < 2 ^ 20 }
        requires ready { IsTurn slot self.old.unit }
        ensures step { IsWord loaded.now costs.now slot place (words.Loop low) self.old result self.new }
        ensures kept { Keeps slot self.old.unit result self.new.unit }
    {
        match slot {
            None => Err(TrapKind::WrongPlace),
            Some(s) => {
                let turns = turns(self.upper, low);
                let did = loop_word(&mut self.unit, s, place, turns, self.upper, low);
                self.come(loaded, costs, s, Class::Loop, did)
            }
        }
    }

    /// `eot`.
    pub fn eot_in(
        &mut self,
        loaded: &Loaded,
        costs: &Costs,
        slot: Option<u32>,
        place: u32,
    ) -> Result<Went, TrapKind>
        requires low { place < 2 ^ 20 }
        requires ready { IsTurn slot self.old.unit }
        ensures step { IsWord loaded.now costs.now slot place words.Eot self.old result self.new }
        ensures kept { Keeps slot self.old.unit result self.new.unit }
    {
        match slot {
            None => Err(TrapKind::WrongPlace),
            Some(s) => {
                let listed = loaded.is_pause(place, s, &stack_of(&self.unit, s));
                let did = eot(&mut self.unit, loaded.image(), listed, s, place);
                self.come(loaded, costs, s, Class::Eot, did)
            }
        }
    }

    /// `fork`.
    pub fn fork_in(
        &mut self,
        loaded: &Loaded,
        costs: &Costs,
        slot: Option<u32>,
        place: u32,
        lo: u8,
        count: u8,
    ) -> Result<Went, TrapKind>
        requires low { place < 2 ^ 20 }
        requires ready { IsTurn slot self.old.unit }
        ensures step { IsWord loaded.now costs.now slot place (words.Fork lo count) self.old result self.new }
        ensures kept { Keeps slot self.old.unit result self.new.unit }
    {
        match slot {
            None => Err(TrapKind::WrongPlace),
            Some(s) => {
                let listed = loaded.is_fork(place, s, &stack_of(&self.unit, s));
                let did = fork_word(&mut self.unit, loaded.image(), listed, s, place, lo, count);
                self.come(loaded, costs, s, Class::Fork, did)
            }
        }
    }
}
