ghost use Rattle.std.specs.Prelude.{◌≡◌, ◌+◌, ◌≤◌, IsTrue, IfOk, IfSome};
ghost use Rattle.pc_lower_cases.specs.Ports.{HasPorts};
ghost use Rattle.pc_regs.specs.Placement.{is_placed};
ghost use Rattle.pc_regs.specs.Assignment.{with_temporaries};

use crate::runs::{comes_of, machine_of};
use mb_core::Machine;
use pc_lower::{Place, Step};
use pc_regs::Placement;
use pt_base::Memory;
use std::alloc::Global;
use std::test::Fail;

const SIZES: [u32; 3] = [0, 1, 15_000];

// Two inputs and an output stand before an array of so many words, which stands last.
const FIRST: u32 = 3;

// What stands in the first element; each further one has 1 more.
const DECLARED: i32 = 100;

// An array of this size begins at the fourth cell, and ten temporaries stand in registers and three in the memory.
fn placement_of(size: u32) -> Placement
    requires { size ≤ 15000 }
    ensures { result ≡ with_temporaries (3 + size) 13 }
{
    Placement {
        cells: 3 + size as usize,
        temporaries: 13,
        held: 0,
    }
}

fn memory_of(alloc: Global, size: u32) -> Result<Vec<i32>, Memory> {
    let mut memory = vec![in alloc; 0; 3]?;
    for i in 0..size {
        memory.push(DECLARED.wrapping_add(i.cast_signed()))?;
    }
    for _ in 0..3 {
        memory.push(0)?;
    }
    Ok(memory)
}

// The machine that reads an element.
fn reader(alloc: Global, size: u32, to: Place, index: Place) -> Result<Option<Machine>, Memory>
    requires size { size ≤ 15000 }
    requires to { IsTrue (is_placed (with_temporaries (3 + size) 13) to) }
    requires index { IsTrue (is_placed (with_temporaries (3 + size) 13) index) }
    ensures { IfOk result (λ machine. IfSome machine HasPorts) }
{
    let steps = [
        Step::Load { to: index, word: 0 },
        Step::TakeElement {
            to,
            first: FIRST,
            size,
            index,
        },
        Step::Save { word: 2, by: to },
    ];
    machine_of(alloc, placement_of(size), &steps, &memory_of(alloc, size)?)
}

// The machine that writes an element and reads the one of the same index.
fn writer(alloc: Global, size: u32, by: Place, index: Place) -> Result<Option<Machine>, Memory>
    requires size { size ≤ 15000 }
    requires by { IsTrue (is_placed (with_temporaries (3 + size) 13) by) }
    requires index { IsTrue (is_placed (with_temporaries (3 + size) 13) index) }
    ensures { IfOk result (λ machine. IfSome machine HasPorts) }
{
    let steps = [
        Step::Load { to: index, word: 0 },
        Step::Load { to: by, word: 1 },
        Step::PutElement {
            first: FIRST,
            size,
            index,
            by,
        },
        Step::TakeElement {
            to: by,
            first: FIRST,
            size,
            index,
        },
        Step::Save { word: 2, by },
    ];
    machine_of(alloc, placement_of(size), &steps, &memory_of(alloc, size)?)
}

// Whether an index is within an array of so many words.
fn is_within(size: u32, index: i32) -> bool {
    0 <= index && index.cast_unsigned() < size
}

// Whether elements are read as they are declared, and 0 outside.
fn reads_so(alloc: Global, size: u32, to: Place, index: Place) -> Result<bool, Memory>
    requires size { size ≤ 15000 }
    requires to { IsTrue (is_placed (with_temporaries (3 + size) 13) to) }
    requires index { IsTrue (is_placed (with_temporaries (3 + size) 13) index) }
{
    let Some(mut machine) = reader(alloc, size, to, index)? else {
        return Ok(false);
    };
    let last = size.cast_signed().wrapping_sub(1);
    let behind = size.cast_signed();
    for i in &[-1, 0, last, behind, i32::MIN, i32::MAX] {
        let declared = DECLARED.wrapping_add(*i);
        let there = if is_within(size, *i) { declared } else { 0 };
        if comes_of(&mut machine, *i, 0) != Some(there) {
            return Ok(false);
        }
    }
    Ok(true)
}

// Whether elements are read as they were written, and nothing is written outside.
fn writes_so(alloc: Global, size: u32, by: Place, index: Place) -> Result<bool, Memory>
    requires size { size ≤ 15000 }
    requires by { IsTrue (is_placed (with_temporaries (3 + size) 13) by) }
    requires index { IsTrue (is_placed (with_temporaries (3 + size) 13) index) }
{
    let Some(mut machine) = writer(alloc, size, by, index)? else {
        return Ok(false);
    };
    let last = size.cast_signed().wrapping_sub(1);
    let behind = size.cast_signed();
    for i in &[-1, 0, last, behind, i32::MIN, i32::MAX] {
        for word in &[7, -7, i32::MIN] {
            let there = if is_within(size, *i) { *word } else { 0 };
            if comes_of(&mut machine, *i, *word) != Some(there) {
                return Ok(false);
            }
        }
    }
    Ok(true)
}

#[test]
fn elements_within_and_outside(rt: HostRuntime) -> Result<(), Fail> {
    for size in SIZES {
        assert!(rt; reads_so(rt.alloc(), size, Place::Temp(0), Place::Temp(1))?);
        assert!(rt; reads_so(rt.alloc(), size, Place::Temp(1), Place::Temp(1))?);
        assert!(rt; reads_so(rt.alloc(), size, Place::Temp(10), Place::Temp(11))?);
        assert!(rt; writes_so(rt.alloc(), size, Place::Temp(0), Place::Temp(1))?);
        assert!(rt; writes_so(rt.alloc(), size, Place::Temp(10), Place::Temp(11))?);
    }
    Ok(())
}
