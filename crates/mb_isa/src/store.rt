ghost use Rattle.std.specs.Prelude.{◌≡◌, ◌+◌, ◌<◌, ◌/◌, ◌%◌, ◌^◌, int_lt, cond, true, length, pos, replicate};
ghost use Rattle.std.specs.Ordering.{int_eq};
ghost use Rattle.std.specs.Int.{w32, cast_signed, cast_unsigned};
ghost use Rattle.pt_base.specs.Operators.{binary_of};
ghost use Rattle.mb_isa.specs.Operands.{immediate};
ghost use Rattle.mb_isa.specs.Cells.{register, with_register, word_at, with_word, with_top, compared, logical_right, value_of};
ghost use Rattle.mb_isa.specs.Cells.{value_with, loaded, stored, cells_do, is_taken, with_inputs};
ghost use Rattle.mb_isa.specs.Doing.{DoesWork};

use crate::operands::{immediate, word_at_byte};
use crate::registers::Reg;
use crate::words::Instr;
use pt_base::{BinOp, binary};
use std::marker::Model;

/// The registers and the memory.
#[derive(Drop)]
pub struct Store {
    registers: [i32; 32],
    memory: Vec<i32>,
}

impl Model for Store {
    ghost use Rattle.mb_isa.specs.Cells.{Cells};

    ghost Value = { Cells };

    ghost view = { λ s. record { registers = s.registers; memory = s.memory.items } };
}

// A word with its top bit set or not.
fn with_top(set: bool, value: i32) -> i32
    ensures { result ≡ with_top set value }
{
    let low = value.cast_unsigned() % 0x8000_0000;
    if set {
        (low + 0x8000_0000).cast_signed()
    } else {
        low.cast_signed()
    }
}

// The difference, whose top bit is set exactly where `b` is less.
fn compared(a: i32, b: i32) -> i32
    ensures { result ≡ compared a b }
{
    with_top(b < a, binary(BinOp::Sub, b, a))
}

// Shifted right, filled with zeros.
fn logical_right(a: i32, b: i32) -> i32
    ensures { result ≡ logical_right a b }
{
    a.cast_unsigned()
        .wrapping_shr(b.cast_unsigned())
        .cast_signed()
}

impl Store {
    /// All registers are 0.
    pub fn of(memory: Vec<i32>) -> Store
        ensures { result ≡ record { registers = replicate 32 (pos 0); memory = memory.items } }
    {
        Store {
            registers: [0; 32],
            memory,
        }
    }

    /// What a register reads.
    pub fn register(&self, r: Reg) -> i32
        ensures { result ≡ register self.now r }
    {
        match r.number() {
            0 => 0,
            n => self.registers[n as usize],
        }
    }

    // Writes a register, but for `R0`.
    fn set(&mut self, r: Reg, value: i32)
        ensures { self.new ≡ with_register r value self.old }
    {
        let i = r.number() as usize;
        if i != 0 {
            self.registers[i] = value;
        }
    }

    // A register is written from a byte's memory word.
    fn load(&mut self, rd: Reg, byte: i32) -> bool
        ensures { DoesWork (loaded rd byte self.old) result self.new }
    {
        match word_at_byte(self.memory.len(), byte.cast_unsigned()) {
            None => false,
            Some(i) => {
                let value = self.memory[i as usize];
                self.set(rd, value);
                true
            }
        }
    }

    // A byte's memory word is written.
    fn store(&mut self, rd: Reg, byte: i32) -> bool
        ensures { DoesWork (stored rd byte self.old) result self.new }
    {
        match word_at_byte(self.memory.len(), byte.cast_unsigned()) {
            None => false,
            Some(i) => {
                self.memory[i as usize] = self.register(rd);
                true
            }
        }
    }

    // A register is written from two others.
    fn put(&mut self, rd: Reg, value: i32) -> bool
        ensures { (result ≡ true) × (self.new ≡ with_register rd value self.old) }
    {
        self.set(rd, value);
        true
    }

    // The word that an operator gives for two registers.
    fn both(&self, op: BinOp, ra: Reg, rb: Reg) -> i32
        ensures { result ≡ value_of (binary_of op) ra rb self.now }
    {
        binary(op, self.register(ra), self.register(rb))
    }

    // The word that an operator gives for a register and an imm.
    fn with_imm(&self, op: BinOp, ra: Reg, imm: i16, upper: Option<i16>) -> i32
        ensures { result ≡ value_with (binary_of op) ra imm upper self.now }
    {
        binary(op, self.register(ra), immediate(upper, imm))
    }

    /// Does a word that is no unit word and no branch, with the upper half that stands; false where its address is bad.
    pub fn work(&mut self, i: Instr, upper: Option<i16>) -> bool
        ensures { DoesWork (cells_do i upper self.old) result self.new }
    {
        match i {
            Instr::Addk { rd, ra, rb } => {
                let value = self.both(BinOp::Add, ra, rb);
                self.put(rd, value)
            }
            Instr::Rsubk { rd, ra, rb } => {
                let value = self.both(BinOp::Sub, rb, ra);
                self.put(rd, value)
            }
            Instr::Cmp { rd, ra, rb } => {
                let value = compared(self.register(ra), self.register(rb));
                self.put(rd, value)
            }
            Instr::Or { rd, ra, rb } => {
                let value = self.both(BinOp::BitOr, ra, rb);
                self.put(rd, value)
            }
            Instr::And { rd, ra, rb } => {
                let value = self.both(BinOp::BitAnd, ra, rb);
                self.put(rd, value)
            }
            Instr::Xor { rd, ra, rb } => {
                let value = self.both(BinOp::BitXor, ra, rb);
                self.put(rd, value)
            }
            Instr::Mul { rd, ra, rb } => {
                let value = self.both(BinOp::Mul, ra, rb);
                self.put(rd, value)
            }
            Instr::Idiv { rd, ra, rb } => {
                let value = self.both(BinOp::Div, rb, ra);
                self.put(rd, value)
            }
            Instr::Bsrl { rd, ra, rb } => {
                let value = logical_right(self.register(ra), self.register(rb));
                self.put(rd, value)
            }
            Instr::Bsra { rd, ra, rb } => {
                let value = self.both(BinOp::ShiftRight, ra, rb);
                self.put(rd, value)
            }
            Instr::Bsll { rd, ra, rb } => {
                let value = self.both(BinOp::ShiftLeft, ra, rb);
                self.put(rd, value)
            }
            Instr::Addik { rd, ra, imm } => {
                let value = self.with_imm(BinOp::Add, ra, imm, upper);
                self.put(rd, value)
            }
            Instr::Ori { rd, ra, imm } => {
                let value = self.with_imm(BinOp::BitOr, ra, imm, upper);
                self.put(rd, value)
            }
            Instr::Andi { rd, ra, imm } => {
                let value = self.with_imm(BinOp::BitAnd, ra, imm, upper);
                self.put(rd, value)
            }
            Instr::Xori { rd, ra, imm } => {
                let value = self.with_imm(BinOp::BitXor, ra, imm, upper);
                self.put(rd, value)
            }
            Instr::Lw { rd, ra, rb } => {
                let byte = self.both(BinOp::Add, ra, rb);
                self.load(rd, byte)
            }
            Instr::Sw { rd, ra, rb } => {
                let byte = self.both(BinOp::Add, ra, rb);
                self.store(rd, byte)
            }
            Instr::Lwi { rd, ra, imm } => {
                let byte = self.with_imm(BinOp::Add, ra, imm, upper);
                self.load(rd, byte)
            }
            Instr::Swi { rd, ra, imm } => {
                let byte = self.with_imm(BinOp::Add, ra, imm, upper);
                self.store(rd, byte)
            }
            Instr::Imm { .. } => true,
            Instr::Bri { .. } => true,
            Instr::Beqi { .. } => true,
            Instr::Bnei { .. } => true,
            Instr::Blti { .. } => true,
            Instr::Blei { .. } => true,
            Instr::Bgti { .. } => true,
            Instr::Bgei { .. } => true,
            Instr::Fork { .. } => true,
            Instr::Abrt { .. } => true,
            Instr::Call { .. } => true,
            Instr::Loop { .. } => true,
            Instr::Next { .. } => true,
            Instr::Cend { .. } => true,
            Instr::Eot => true,
            Instr::End => true,
            Instr::Leave => true,
            Instr::Ret => true,
            Instr::Drop => true,
        }
    }

    /// Whether a conditional branch is taken.
    pub fn is_taken(&self, i: Instr) -> bool
        ensures { result ≡ is_taken i self.now }
    {
        match i {
            Instr::Beqi { ra, .. } => self.register(ra) == 0,
            Instr::Bnei { ra, .. } => self.register(ra) != 0,
            Instr::Blti { ra, .. } => self.register(ra) < 0,
            Instr::Blei { ra, .. } => self.register(ra) <= 0,
            Instr::Bgti { ra, .. } => self.register(ra) > 0,
            Instr::Bgei { ra, .. } => self.register(ra) >= 0,
            _ => false,
        }
    }

    /// What a memory word reads; 0 where it isn't there.
    pub fn word(&self, i: usize) -> i32
        ensures { result ≡ word_at self.now i }
    {
        if i < self.memory.len() {
            return self.memory[i];
        }
        0
    }

    // A memory word is written, where it is there.
    fn set_word(&mut self, i: usize, value: i32)
        ensures { self.new ≡ with_word i value self.old }
    {
        if i < self.memory.len() {
            self.memory[i] = value;
        }
    }
}

/// The inputs' words are set in order.
pub fn sample(store: &mut Store, places: &[u32], values: &[i32])
    requires { length values.now ≡ length places.now }
    ensures { store.new ≡ record store.old { memory = with_inputs places.now values.now store.old.memory } }
{
    for (i, place) in places.iter().enumerate() {
        store.set_word(*place as usize, values[i]);
    }
}
