use crate::costs::{CostFault, key, read_costs};
use mb_isa::{Class, Costs};
use pt_base::{Memory, Text};
use std::alloc::Global;
use std::test::Fail;

const TABLE: &[u8] =
    b"# cycles of each class\nalu = 1\nshift = 2\nmul = 3\ndiv = 32\nimm = 1\nload = 2\nstore = 2\njump = 2\ntaken = 2\nuntaken = 1\nfork = 4\neot = 7\nend = 3\nabrt = 2\nleave = 2\ncall = 2\nret = 2\nloop = 1\nnext = 2\ndrop = 1\ncend = 255\ntick = 10\n";

// no class is left out here but `cend`, and `alu` is too low
const NO_CEND: &[u8] =
    b"alu = 0\nshift = 2\nmul = 3\ndiv = 32\nimm = 1\nload = 2\nstore = 2\njump = 2\ntaken = 2\nuntaken = 1\nfork = 4\neot = 7\nend = 3\nabrt = 2\nleave = 2\ncall = 2\nret = 2\nloop = 1\nnext = 2\ndrop = 1\ntick = 10\n";

const HIGH: &[u8] =
    b"alu = 1\nshift = 2\nmul = 256\ndiv = 'x'\nimm = 1\nload = 2\nstore = 2\njump = 2\ntaken = 2\nuntaken = 1\nfork = 4\neot = 7\nend = 3\nabrt = 2\nleave = 2\ncall = 2\nret = 2\nloop = 1\nnext = 2\ndrop = 1\ncend = 255\ntick = 10\nnop = 1\n";

const FURTHER: &[u8] =
    b"alu = 1\nshift = 2\nmul = 3\ndiv = 32\nimm = 1\nload = 2\nstore = 2\njump = 2\ntaken = 2\nuntaken = 1\nfork = 4\neot = 7\nend = 3\nabrt = 2\nleave = 2\ncall = 2\nret = 2\nloop = 1\nnext = 2\ndrop = 1\ncend = 255\ntick = 10\nnop = 1\n";

// A number for each way in which reading comes out, and the key that is named.
fn outcome(read: &Result<Costs, CostFault>) -> (u8, &'static str) {
    match read {
        Ok(_) => (0, ""),
        Err(CostFault::Form) => (1, ""),
        Err(CostFault::Missing(class)) => (2, key(*class)),
        Err(CostFault::Range(class)) => (3, key(*class)),
        Err(CostFault::Unknown) => (4, ""),
        Err(CostFault::Memory) => (5, ""),
    }
}

// What reading a text comes to.
fn comes_to(alloc: Global, bytes: &[u8], number: u8, named: &str) -> Result<bool, Memory> {
    let text = Text::of(alloc, bytes)?;
    let read = read_costs(alloc, &text);
    let (n, word) = outcome(&read);
    Ok(n == number && word == named)
}

#[test]
fn each_fault_in_its_order(rt: HostRuntime) -> Result<(), Fail> {
    let alloc = rt.alloc();
    assert!(rt; comes_to(alloc, TABLE, 0, "")?);
    assert!(rt; comes_to(alloc, b"alu = ", 1, "")?);
    assert!(rt; comes_to(alloc, b"", 2, "alu")?);
    assert!(rt; comes_to(alloc, NO_CEND, 2, "cend")?);
    assert!(rt; comes_to(alloc, HIGH, 3, "mul")?);
    assert!(rt; comes_to(alloc, FURTHER, 4, "")?);
    Ok(())
}

#[test]
fn the_numbers_of_a_table(rt: HostRuntime) -> Result<(), Fail> {
    let alloc = rt.alloc();
    let text = Text::of(alloc, TABLE)?;
    match read_costs(alloc, &text) {
        Ok(costs) => {
            assert!(rt; costs.cost(Class::Alu) == 1 && costs.cost(Class::Div) == 32);
            assert!(rt; costs.cost(Class::Cend) == 255 && costs.cost(Class::Tick) == 10);
        }
        Err(_) => assert!(rt; false),
    }
    Ok(())
}
