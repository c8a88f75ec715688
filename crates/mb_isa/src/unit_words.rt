//! The unit's words, of a slot in its turn: what each does to the unit, and where the slot goes on. They know nothing of
//! registers and memory.

ghost use Rattle.std.specs.Prelude.{◌≡◌, ℤ, Option, ◌+◌, ◌^◌, ◌<◌, ◌≤◌, ◌-◌, ◌++◌, [], ◌∷◌};
ghost use Rattle.std.specs.Prelude.{IsTrue, None, Ok, length, map, slice_get, take, drop, Some};
ghost use Rattle.mb_isa.specs.declared.costs.Class.TheVariants as class;
ghost use Rattle.mb_isa.specs.declared.words.Instr.TheVariants as words;
ghost use Rattle.mb_pfu.specs.Rows.{is_ready};
ghost use Rattle.mb_pfu.specs.Tree.{slot_of};
ghost use Rattle.mb_pfu.specs.Unit.{State, fresh};
ghost use Rattle.mb_isa.specs.Control.{Turn, stack_of};
ghost use Rattle.mb_isa.specs.Operands.{turns_of};
ghost use Rattle.mb_isa.specs.Words.{plan_of, enters};
ghost use Rattle.mb_isa.specs.Came.{came, IsTurnPlan, IsStillReady};
ghost use Rattle.pt_image.specs.declared.image.Parts.{Parts};
ghost use Rattle.pt_image.specs.Listed.{is_listed};

use arrayvec::ArrayVec;
use mb_pfu::{AbortParts, TrapKind, Unit};
use pt_image::{AbortLine, Image};

/// The numbers of the aborts that a slot is inside, from the outermost.
pub fn stack_of(unit: &Unit, s: u32) -> ArrayVec<u32, 8>
    ensures { result.items ≡ stack_of s unit.now }
{
    let mut stack = ArrayVec::new();
    for i in 0..unit.depth(s) {
        stack.push(unit.entry(s, i).number);
    }
    stack
}

/// `eot`, which is listed with the slot's aborts or isn't.
pub fn eot(
    unit: &mut Unit,
    image: &Image,
    listed: bool,
    s: u32,
    place: u32,
) -> Result<Option<u32>, TrapKind>
    requires ready { IsTrue (is_ready (slot_of s unit.old.tree)) }
    requires low { place < 2 ^ 20 }
    requires listed { listed ≡ is_listed image.now.pauses place s (stack_of s unit.old) }
    ensures plan { IsTurnPlan image.now s place unit.old words.Eot (came class.Eot s result unit.new) }
    ensures kept { IsStillReady s result unit.new }
{
    if !listed {
        return Err(TrapKind::WrongPlace);
    }
    match unit.pause(s, place) {
        Err(kind) => Err(kind),
        Ok(_) => Ok(None),
    }
}

/// `fork`, which is listed with the slot's aborts or isn't.
pub fn fork_word(
    unit: &mut Unit,
    image: &Image,
    listed: bool,
    s: u32,
    place: u32,
    lo: u8,
    count: u8,
) -> Result<Option<u32>, TrapKind>
    requires ready { IsTrue (is_ready (slot_of s unit.old.tree)) }
    requires low { place < 2 ^ 20 }
    requires listed { listed ≡ is_listed image.now.forks place s (stack_of s unit.old) }
    ensures plan { IsTurnPlan image.now s place unit.old (words.Fork lo count) (came class.Fork s result unit.new) }
    ensures kept { IsStillReady s result unit.new }
{
    if !listed {
        return Err(TrapKind::WrongPlace);
    }
    let from = usize::from(lo);
    let to = from + usize::from(count);
    if image.slots().len() < to {
        return Err(TrapKind::WrongPlace);
    }
    match unit.fork(s, place, u32::from(lo), &image.slots()[from..to]) {
        Err(kind) => Err(kind),
        Ok(()) => Ok(None),
    }
}

/// `end`.
pub fn end(unit: &mut Unit, s: u32, place: u32) -> Result<Option<u32>, TrapKind>
    requires ready { IsTrue (is_ready (slot_of s unit.old.tree)) }
    ensures plan { (image : Parts) → plan_of image (Turn s) place None unit.old words.End ≡ came class.End s result unit.new }
    ensures kept { IsStillReady s result unit.new }
{
    match unit.finish(s) {
        Err(kind) => Err(kind),
        Ok(()) => Ok(None),
    }
}

/// `leave`.
pub fn leave_word(unit: &mut Unit, s: u32, place: u32) -> Result<Option<u32>, TrapKind>
    requires ready { IsTrue (is_ready (slot_of s unit.old.tree)) }
    requires low { place < 2 ^ 20 }
    ensures plan { (image : Parts) → plan_of image (Turn s) place None unit.old words.Leave ≡ came class.Leave s result unit.new }
    ensures kept { IsStillReady s result unit.new }
{
    match unit.leave(s) {
        Err(kind) => Err(kind),
        Ok(()) => Ok(Some(place + 1)),
    }
}

// A slot enters the abort of a line.
fn enter_line(
    unit: &mut Unit,
    s: u32,
    place: u32,
    number: u32,
    line: &AbortLine,
) -> Result<Option<u32>, TrapKind>
    requires ready { IsTrue (is_ready (slot_of s unit.old.tree)) }
    requires low { place < 2 ^ 20 }
    ensures plan { enters s place number unit.old (Some line.now) ≡ came class.Abrt s result unit.new }
    ensures kept { IsStillReady s result unit.new }
{
    let parts = AbortParts {
        weak: line.weak,
        cond: line.cond,
        handler: line.handler,
    };
    match unit.enter(s, number, &parts) {
        Err(kind) => Err(kind),
        Ok(()) => Ok(Some(place + 1)),
    }
}

// An abort line.
fn line_of(image: &Image, number: u16) -> Option<AbortLine>
    ensures { result ≡ slice_get image.now.aborts number }
{
    image.aborts().get(number as usize).copied()
}

/// `abrt`.
pub fn abrt(
    unit: &mut Unit,
    image: &Image,
    s: u32,
    place: u32,
    number: u16,
) -> Result<Option<u32>, TrapKind>
    requires ready { IsTrue (is_ready (slot_of s unit.old.tree)) }
    requires low { place < 2 ^ 20 }
    ensures plan { plan_of image.now (Turn s) place None unit.old (words.Abrt number) ≡ came class.Abrt s result unit.new }
    ensures kept { IsStillReady s result unit.new }
{
    match line_of(image, number) {
        None => Err(TrapKind::WrongPlace),
        Some(line) => enter_line(unit, s, place, u32::from(number), &line),
    }
}

/// `loop`, with the upper half that stands.
pub fn loop_word(
    unit: &mut Unit,
    s: u32,
    place: u32,
    turns: u32,
    upper: Option<i16>,
    low: u16,
) -> Result<Option<u32>, TrapKind>
    requires ready { IsTrue (is_ready (slot_of s unit.old.tree)) }
    requires low { place < 2 ^ 20 }
    requires turns { turns ≡ turns_of upper low }
    ensures plan { (image : Parts) → plan_of image (Turn s) place upper unit.old (words.Loop low) ≡ came class.Loop s result unit.new }
    ensures kept { IsStillReady s result unit.new }
{
    match unit.loop_set(turns) {
        Err(kind) => Err(kind),
        Ok(()) => Ok(Some(place + 1)),
    }
}

/// `call`.
pub fn call(unit: &mut Unit, s: u32, place: u32, target: u16) -> Result<Option<u32>, TrapKind>
    requires ready { IsTrue (is_ready (slot_of s unit.old.tree)) }
    requires low { place < 2 ^ 20 }
    ensures plan { (image : Parts) → plan_of image (Turn s) place None unit.old (words.Call target) ≡ came class.Call s result unit.new }
    ensures kept { IsStillReady s result unit.new }
{
    match unit.call(place + 1) {
        Err(kind) => Err(kind),
        Ok(()) => Ok(Some(u32::from(target))),
    }
}

/// `ret`.
pub fn ret(unit: &mut Unit, s: u32, place: u32) -> Result<Option<u32>, TrapKind>
    requires ready { IsTrue (is_ready (slot_of s unit.old.tree)) }
    ensures plan { (image : Parts) → plan_of image (Turn s) place None unit.old words.Ret ≡ came class.Ret s result unit.new }
    ensures kept { IsStillReady s result unit.new }
{
    match unit.ret() {
        Err(kind) => Err(kind),
        Ok(back) => Ok(Some(back)),
    }
}

/// `next`.
pub fn next(unit: &mut Unit, s: u32, place: u32, target: u16) -> Result<Option<u32>, TrapKind>
    requires ready { IsTrue (is_ready (slot_of s unit.old.tree)) }
    requires low { place < 2 ^ 20 }
    ensures plan { (image : Parts) → plan_of image (Turn s) place None unit.old (words.Next target) ≡ came class.Next s result unit.new }
    ensures kept { IsStillReady s result unit.new }
{
    match unit.loop_next() {
        Err(kind) => Err(kind),
        Ok(true) => Ok(Some(place + 1)),
        Ok(false) => Ok(Some(u32::from(target))),
    }
}

/// `drop`.
pub fn drop_word(unit: &mut Unit, s: u32, place: u32) -> Result<Option<u32>, TrapKind>
    requires ready { IsTrue (is_ready (slot_of s unit.old.tree)) }
    requires low { place < 2 ^ 20 }
    ensures plan { (image : Parts) → plan_of image (Turn s) place None unit.old words.Drop ≡ came class.Drop s result unit.new }
    ensures kept { IsStillReady s result unit.new }
{
    match unit.drop_loop() {
        Err(kind) => Err(kind),
        Ok(()) => Ok(Some(place + 1)),
    }
}
