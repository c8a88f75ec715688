//! A slow machine, by the rules as they are written: it decodes a word when it meets it, looks through all listed points,
//! and holds its slots in the slow unit.

use crate::slow_unit::SlowUnit;
use mb_core::Trap;
use mb_isa::{Class, Costs, Instr, Reg, class, decode, takes_upper};
use mb_pfu::{AbortParts, Slot, TrapKind};
use pt_image::{Image, Point};

// Where a step leads: on, at a place; or the slot rests; or a condition has ended, and holds or not.
#[derive(Clone, Copy)]
enum Led {
    On(u32),
    Rest,
    Concludes(bool),
}

// The machine of an image with four memory words.
#[derive(Drop)]
pub(crate) struct SlowMachine {
    registers: [i32; 32],
    memory: [i32; 4],
    unit: SlowUnit,
    upper: Option<i16>,
    charged: u64,
}

impl SlowMachine {
    pub(crate) fn load(image: &Image) -> SlowMachine {
        image.ranges();
        let mut memory = [0; 4];
        for (word, value) in memory.iter_mut().zip(image.memory()) {
            *word = *value;
        }
        SlowMachine {
            registers: [0; 32],
            memory,
            unit: SlowUnit::begin(image.slots().len() as u32, image.slots()[0]),
            upper: None,
            charged: 0,
        }
    }

    /// What a slot does.
    pub(crate) fn slot(&self, s: u32) -> Slot {
        self.unit.state(s)
    }

    fn read(&self, r: Reg) -> i32 {
        match r {
            Reg::R0 => 0,
            _ => self.registers[r.number() as usize],
        }
    }

    fn write(&mut self, r: Reg, value: i32) {
        self.registers[r.number() as usize] = value;
    }

    // The imm of a word after an upper half or none.
    fn imm(upper: Option<i16>, imm: i16) -> i32 {
        match upper {
            None => i32::from(imm),
            Some(half) => i32::from(half)
                .wrapping_mul(65536)
                .wrapping_add(i32::from(imm.cast_unsigned())),
        }
    }

    // The memory word of a byte, and its value.
    fn cell(&self, byte: i32) -> Result<(usize, i32), TrapKind> {
        let byte = byte.cast_unsigned();
        let place = (byte / 4) as usize;
        match self.memory.get(place) {
            Some(value) if byte % 4 == 0 => Ok((place, *value)),
            _ => Err(TrapKind::BadAddress),
        }
    }

    fn store(&mut self, place: usize, value: i32) {
        if let Some(word) = self.memory.get_mut(place) {
            *word = value;
        }
    }

    // What two registers give.
    fn binary(&self, i: Instr) -> Option<(Reg, i32)> {
        match i {
            Instr::Addk { rd, ra, rb } => Some((rd, self.read(ra).wrapping_add(self.read(rb)))),
            Instr::Rsubk { rd, ra, rb } => Some((rd, self.read(rb).wrapping_sub(self.read(ra)))),
            Instr::Cmp { rd, ra, rb } => {
                let low = self.read(rb).wrapping_sub(self.read(ra)) & i32::MAX;
                let less = self.read(rb) < self.read(ra);
                Some((rd, if less { low | i32::MIN } else { low }))
            }
            Instr::Or { rd, ra, rb } => Some((rd, self.read(ra) | self.read(rb))),
            Instr::And { rd, ra, rb } => Some((rd, self.read(ra) & self.read(rb))),
            Instr::Xor { rd, ra, rb } => Some((rd, self.read(ra) ^ self.read(rb))),
            Instr::Mul { rd, ra, rb } => Some((rd, self.read(ra).wrapping_mul(self.read(rb)))),
            Instr::Idiv { rd, ra, rb } => match self.read(ra) {
                0 => Some((rd, 0)),
                by => Some((rd, self.read(rb).wrapping_div(by))),
            },
            Instr::Bsrl { rd, ra, rb } => {
                let value = self.read(ra).cast_unsigned();
                let shifted = value.wrapping_shr(self.read(rb).cast_unsigned());
                Some((rd, shifted.cast_signed()))
            }
            Instr::Bsra { rd, ra, rb } => {
                let value = self.read(ra);
                Some((rd, value.wrapping_shr(self.read(rb).cast_unsigned())))
            }
            Instr::Bsll { rd, ra, rb } => {
                let value = self.read(ra);
                Some((rd, value.wrapping_shl(self.read(rb).cast_unsigned())))
            }
            _ => None,
        }
    }

    // What a register and an imm give.
    fn unary(&self, i: Instr, upper: Option<i16>) -> Option<(Reg, i32)> {
        match i {
            Instr::Addik { rd, ra, imm } => {
                Some((rd, self.read(ra).wrapping_add(SlowMachine::imm(upper, imm))))
            }
            Instr::Ori { rd, ra, imm } => Some((rd, self.read(ra) | SlowMachine::imm(upper, imm))),
            Instr::Andi { rd, ra, imm } => Some((rd, self.read(ra) & SlowMachine::imm(upper, imm))),
            Instr::Xori { rd, ra, imm } => Some((rd, self.read(ra) ^ SlowMachine::imm(upper, imm))),
            _ => None,
        }
    }

    // A load's register and byte.
    fn load_of(&self, i: Instr, upper: Option<i16>) -> Option<(Reg, i32)> {
        match i {
            Instr::Lw { rd, ra, rb } => Some((rd, self.read(ra).wrapping_add(self.read(rb)))),
            Instr::Lwi { rd, ra, imm } => {
                Some((rd, self.read(ra).wrapping_add(SlowMachine::imm(upper, imm))))
            }
            _ => None,
        }
    }

    // A store's register and byte.
    fn store_of(&self, i: Instr, upper: Option<i16>) -> Option<(Reg, i32)> {
        match i {
            Instr::Sw { rd, ra, rb } => Some((rd, self.read(ra).wrapping_add(self.read(rb)))),
            Instr::Swi { rd, ra, imm } => {
                Some((rd, self.read(ra).wrapping_add(SlowMachine::imm(upper, imm))))
            }
            _ => None,
        }
    }

    // Whether a branch is taken, and its imm.
    fn branch_of(&self, i: Instr) -> Option<(bool, i16)> {
        match i {
            Instr::Bri { imm } => Some((true, imm)),
            Instr::Beqi { ra, imm } => Some((self.read(ra) == 0, imm)),
            Instr::Bnei { ra, imm } => Some((self.read(ra) != 0, imm)),
            Instr::Blti { ra, imm } => Some((self.read(ra) < 0, imm)),
            Instr::Blei { ra, imm } => Some((self.read(ra) <= 0, imm)),
            Instr::Bgti { ra, imm } => Some((self.read(ra) > 0, imm)),
            Instr::Bgei { ra, imm } => Some((self.read(ra) >= 0, imm)),
            _ => None,
        }
    }

    // Whether one of the points has this place and slot, and the numbers of the slot's aborts.
    fn is_listed(&self, points: &[Point], place: u32, s: u32) -> bool {
        let depth = self.unit.depth(s);
        points.iter().any(|p| {
            p.at == place
                && p.slot == s
                && p.stack.items().len() == depth
                && (0..depth).all(|i| p.stack.items().get(i) == Some(&self.unit.entry(s, i).number))
        })
    }

    // What a unit word does in the turn of a slot.
    fn unit_word(
        &mut self,
        image: &Image,
        s: u32,
        place: u32,
        i: Instr,
        upper: Option<i16>,
    ) -> Result<Led, TrapKind> {
        let next = place.wrapping_add(1);
        match i {
            Instr::Fork { lo, count } => {
                let starts = image.slots();
                let (lo, count) = (usize::from(lo), usize::from(count));
                if !self.is_listed(image.forks(), place, s) || starts.len() < lo + count {
                    return Err(TrapKind::WrongPlace);
                }
                self.unit
                    .fork(s, place, lo as u32, &starts[lo..lo + count])?;
                Ok(Led::Rest)
            }
            Instr::Eot => {
                if !self.is_listed(image.pauses(), place, s) {
                    return Err(TrapKind::WrongPlace);
                }
                self.unit.pause(s, place)?;
                Ok(Led::Rest)
            }
            Instr::End => {
                self.unit.finish(s)?;
                Ok(Led::Rest)
            }
            Instr::Abrt { number } => {
                let Some(line) = image.aborts().get(usize::from(number)) else {
                    return Err(TrapKind::WrongPlace);
                };
                let parts = AbortParts {
                    weak: line.weak,
                    cond: line.cond,
                    handler: line.handler,
                };
                self.unit.enter(s, u32::from(number), &parts)?;
                Ok(Led::On(next))
            }
            Instr::Leave => {
                self.unit.leave(s)?;
                Ok(Led::On(next))
            }
            Instr::Call { target } => {
                self.unit.call(next)?;
                Ok(Led::On(u32::from(target)))
            }
            Instr::Ret => Ok(Led::On(self.unit.ret()?)),
            Instr::Loop { turns } => {
                let turns = match upper {
                    None => u32::from(turns),
                    Some(half) => u32::from(half.cast_unsigned()) * 65536 + u32::from(turns),
                };
                self.unit.loop_set(turns)?;
                Ok(Led::On(next))
            }
            Instr::Next { target } => match self.unit.loop_next()? {
                true => Ok(Led::On(next)),
                false => Ok(Led::On(u32::from(target))),
            },
            Instr::Drop => {
                self.unit.drop_loop()?;
                Ok(Led::On(next))
            }
            _ => Err(TrapKind::BadWord),
        }
    }

    // One step of a slot in its turn, or of a condition: its class, and where it leads.
    fn step(
        &mut self,
        image: &Image,
        slot: Option<u32>,
        place: u32,
    ) -> Result<(Class, Led), TrapKind> {
        let word = image.code().get(place as usize).ok_or(TrapKind::OutOfCode)?;
        let i = decode(*word).ok_or(TrapKind::BadWord)?;
        let upper = self.upper;
        self.upper = None;
        if upper.is_some() && !takes_upper(&i) {
            return Err(TrapKind::WrongPlace);
        }
        let next = Led::On(place.wrapping_add(1));
        if let Some((rd, value)) = self.binary(i) {
            self.write(rd, value);
            return Ok((class(&i, false), next));
        }
        if let Some((rd, value)) = self.unary(i, upper) {
            self.write(rd, value);
            return Ok((class(&i, false), next));
        }
        if let Some((rd, byte)) = self.load_of(i, upper) {
            let (_, value) = self.cell(byte)?;
            self.write(rd, value);
            return Ok((class(&i, false), next));
        }
        if let Some((rd, byte)) = self.store_of(i, upper) {
            let (place, _) = self.cell(byte)?;
            self.store(place, self.read(rd));
            return Ok((class(&i, false), next));
        }
        if let Some((taken, imm)) = self.branch_of(i) {
            if !taken {
                return Ok((class(&i, false), next));
            }
            let byte = place
                .wrapping_mul(4)
                .wrapping_add(SlowMachine::imm(upper, imm).cast_unsigned());
            if byte % 4 != 0 || (byte / 4) as usize >= image.code().len() {
                return Err(TrapKind::OutOfCode);
            }
            return Ok((class(&i, true), Led::On(byte / 4)));
        }
        match (i, slot) {
            (Instr::Imm { imm }, _) => {
                self.upper = Some(imm);
                Ok((Class::Imm, next))
            }
            (Instr::Cend { ra }, None) => Ok((Class::Cend, Led::Concludes(self.read(ra) != 0))),
            (Instr::Cend { .. }, Some(_)) => Err(TrapKind::WrongPlace),
            (_, None) => Err(TrapKind::WrongPlace),
            (_, Some(s)) => {
                let led = self.unit_word(image, s, place, i, upper)?;
                Ok((class(&i, false), led))
            }
        }
    }

    // Steps of a slot in its turn until it rests, or of a condition until it ends: whether the condition holds.
    fn steps(
        &mut self,
        image: &Image,
        costs: &Costs,
        most: u64,
        slot: Option<u32>,
        from: u32,
    ) -> Result<bool, Trap> {
        self.upper = None;
        let mut place = from;
        for _ in 0..=most {
            let did = self.step(image, slot, place);
            let (class, led) = did.map_err(|kind| Trap { kind, at: place })?;
            self.charged = self.charged.saturating_add(costs.cost(class));
            if self.charged > most {
                return Err(Trap {
                    kind: TrapKind::Late,
                    at: place,
                });
            }
            match led {
                Led::On(to) => place = to,
                Led::Rest => return Ok(false),
                Led::Concludes(holds) => return Ok(holds),
            }
        }
        Ok(false)
    }

    // The conditions, then sampling and waking, then the turns.
    fn phases(
        &mut self,
        image: &Image,
        costs: &Costs,
        inputs: &[i32],
        most: u64,
    ) -> Result<(), Trap> {
        self.unit.begin_tests();
        for _ in 0..=512u32 {
            let Some((s, i)) = self.unit.next_test() else {
                break;
            };
            let from = self.unit.entry(s, i as usize).cond;
            let holds = self.steps(image, costs, most, None, from)?;
            self.unit.answer(holds);
        }
        for (place, value) in image.inputs().iter().zip(inputs) {
            self.store(*place as usize, *value);
        }
        self.unit.wake();
        for _ in 0..=most {
            let Some(s) = self.unit.next_job() else {
                return Ok(());
            };
            if let Slot::Ready(from) = self.unit.state(s) {
                self.steps(image, costs, most, Some(s), from)?;
            }
        }
        Ok(())
    }

    /// One tick: its cycles, or its trap.
    pub(crate) fn tick(
        &mut self,
        image: &Image,
        costs: &Costs,
        inputs: &[i32],
        most: u64,
    ) -> Result<u64, Trap> {
        let signals = 1 + image.inputs().len() as u64 + image.outputs().len() as u64;
        self.charged = costs.cost(Class::Tick).wrapping_mul(signals);
        if self.charged > most {
            return Err(Trap {
                kind: TrapKind::Late,
                at: 0,
            });
        }
        self.phases(image, costs, inputs, most)?;
        Ok(self.charged)
    }

    /// Whether the outputs have these values.
    pub(crate) fn gives(&self, image: &Image, values: &[i32]) -> bool {
        let places = image.outputs();
        for (i, place) in places.iter().enumerate() {
            if values.get(i) != self.memory.get(*place as usize) {
                return false;
            }
        }
        places.len() == values.len()
    }
}
