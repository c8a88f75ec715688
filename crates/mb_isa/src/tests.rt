//! The code words of the hand-written images, and a sweep over all words.

use crate::{Class, Costs, Instr, Reg, class, decode, encode, unit_costs};

// How many of 2^16 words, that lie `step` apart from 0 on, decode, by opcode.
fn decodable(step: u32) -> [u32; 64] {
    let mut counts = [0u32; 64];
    for k in 0..65536u32 {
        let word = k.wrapping_mul(step);
        if decode(word).is_some() {
            let op = (word / 67108864) as usize;
            counts[op] = counts[op].wrapping_add(1);
        }
    }
    counts
}

// The code that decoding and encoding leave.
fn through(word: u32) -> Option<u32> {
    match decode(word) {
        Some(i) => Some(encode(&i)),
        None => None,
    }
}

#[test]
fn words_of_the_images(rt: HostRuntime) {
    assert!(rt;
        matches!(
            decode(0xe8600000),
            Some(Instr::Lwi {
                rd: Reg::R3,
                ra: Reg::R0,
                imm: 0
            })
        )
    );
    assert!(rt;
        matches!(
            decode(0xe8600008),
            Some(Instr::Lwi {
                rd: Reg::R3,
                ra: Reg::R0,
                imm: 8
            })
        )
    );
    assert!(rt;
        matches!(
            decode(0xe8800000),
            Some(Instr::Lwi {
                rd: Reg::R4,
                ra: Reg::R0,
                imm: 0
            })
        )
    );
    assert!(rt;
        matches!(
            decode(0x30630001),
            Some(Instr::Addik {
                rd: Reg::R3,
                ra: Reg::R3,
                imm: 1
            })
        )
    );
    assert!(rt;
        matches!(
            decode(0x30600001),
            Some(Instr::Addik {
                rd: Reg::R3,
                ra: Reg::R0,
                imm: 1
            })
        )
    );
    assert!(rt;
        matches!(
            decode(0xf8600004),
            Some(Instr::Swi {
                rd: Reg::R3,
                ra: Reg::R0,
                imm: 4
            })
        )
    );
    assert!(rt; matches!(decode(0xb800fff0), Some(Instr::Bri { imm: -16 })));
    assert!(rt; matches!(decode(0xb800fff8), Some(Instr::Bri { imm: -8 })));
    assert!(rt; matches!(decode(0xb800fffc), Some(Instr::Bri { imm: -4 })));
    assert!(rt; matches!(decode(0xb800fff4), Some(Instr::Bri { imm: -12 })));
    assert!(rt; matches!(decode(0xb800ffec), Some(Instr::Bri { imm: -20 })));
    assert!(rt; matches!(decode(0xb8000000), Some(Instr::Bri { imm: 0 })));
    assert!(rt; matches!(decode(0xfc000101), Some(Instr::Fork { lo: 1, count: 1 })));
    assert!(rt; matches!(decode(0xfc000102), Some(Instr::Fork { lo: 1, count: 2 })));
    assert!(rt; matches!(decode(0xfc200000), Some(Instr::Eot)));
    assert!(rt; matches!(decode(0xfc400000), Some(Instr::End)));
    assert!(rt; matches!(decode(0xfc600000), Some(Instr::Abrt { number: 0 })));
    assert!(rt; matches!(decode(0xfc800000), Some(Instr::Leave)));
    assert!(rt; matches!(decode(0xfca00002), Some(Instr::Call { target: 2 })));
    assert!(rt; matches!(decode(0xfcc00000), Some(Instr::Ret)));
    assert!(rt; matches!(decode(0xfce00003), Some(Instr::Loop { turns: 3 })));
    assert!(rt; matches!(decode(0xfd000004), Some(Instr::Next { target: 4 })));
    assert!(rt; matches!(decode(0xfd440000), Some(Instr::Cend { ra: Reg::R4 })));
    assert!(rt; matches!(decode(0xfd400000), Some(Instr::Cend { ra: Reg::R0 })));
}

#[test]
fn words_encode_back(rt: HostRuntime) {
    let words = [
        0xe8600000, 0xe8600008, 0xe8800000, 0x30630001, 0x30600001, 0xf8600004, 0xb800fff0,
        0xb800fff8, 0xb800fffc, 0xb800fff4, 0xb800ffec, 0xb8000000, 0xfc000101, 0xfc000102,
        0xfc200000, 0xfc400000, 0xfc600000, 0xfc800000, 0xfca00002, 0xfcc00000, 0xfce00003,
        0xfd000004, 0xfd440000, 0xfd400000,
    ];
    for word in words {
        assert_eq!(rt; through(word), Some(word), "{word:08x}");
    }
    for word in [
        0xffffffff, 0x10000001, 0x44000001, 0xb0200000, 0xbcc00000, 0xfc200001, 0xfd600000,
    ] {
        assert_eq!(rt; through(word), None, "{word:08x}");
    }
}

// Of the words k * 65536 the low half is 0, so a word of type A has all registers free. Of the words
// k * 65537 it is the high half again, so the first register is also the place of the low bits.
#[test]
fn sweeps(rt: HostRuntime) {
    let upper = decodable(65536);
    let both = decodable(65537);
    for op in 0..64usize {
        let (in_upper, in_both) = match op {
            4 | 16 | 18 | 32 | 33 | 34 | 50 | 54 => (1024, if op == 33 { 0 } else { 1 }),
            5 => (1024, 0),
            17 => (1024, 1),
            12 | 40 | 41 | 42 | 58 | 62 => (1024, 1024),
            44 | 46 => (1, 1),
            47 => (192, 192),
            63 => (42, 5),
            _ => (0, 0),
        };
        assert_eq!(rt; upper[op], in_upper, "opcode {op}");
        assert_eq!(rt; both[op], in_both, "opcode {op}");
    }
}

#[test]
fn classes_and_costs(rt: HostRuntime) {
    let costs = Costs::of(&[
        1, 2, 3, 4, 5, 6, 7, 8, 9, 10, 11, 12, 13, 14, 15, 16, 17, 18, 19, 20, 21, 255,
    ]);
    assert_eq!(rt; costs.cost(Class::Alu), 1);
    assert_eq!(rt; costs.cost(class(&Instr::Eot, false)), 12);
    assert_eq!(rt;
        costs.cost(class(
            &Instr::Beqi {
                ra: Reg::R1,
                imm: 0
            },
            true
        )),
        9
    );
    assert_eq!(rt;
        costs.cost(class(
            &Instr::Beqi {
                ra: Reg::R1,
                imm: 0
            },
            false
        )),
        10
    );
    assert_eq!(rt; costs.cost(Class::Tick), 255);
    assert_eq!(rt; unit_costs().cost(Class::Cend), 1);
}
