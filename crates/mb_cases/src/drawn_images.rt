//! Images that are drawn: six slots, three groups deep, with aborts round them. An image is drawn as plain data, of which
//! its file is written at the end.

ghost use Rattle.std.specs.Prelude.{◌≡◌, length};

use crate::draws::Draws;
use mb_isa::{Instr, Reg, encode};
use std::alloc::{AllocError, Global};

// How many aborts a slot enters at most.
const MOST_DEPTH: u32 = 3;

// How many items each slot has. Since an item has at most four words, all slots and the conditions have fewer than 256.
const ITEMS: u32 = 8;

// The children of each slot: the first, and how many.
const CHILDREN: [(u8, u8); 6] = [(1, 2), (3, 1), (5, 1), (4, 1), (0, 0), (0, 0)];

// Where a word is listed.
#[derive(Clone, Copy, PartialEq, Eq)]
enum Listed {
    Nowhere,
    Pauses,
    Forks,
}

// The numbers of the aborts that a slot is inside, from the outermost.
#[derive(Clone, Copy)]
struct Stack {
    numbers: [u32; 3],
    depth: u32,
}

const EMPTY: Stack = Stack {
    numbers: [0; 3],
    depth: 0,
};

// A word of the code, with its slot and the aborts that it stands in.
#[derive(Clone, Copy)]
struct Word {
    code: u32,
    listed: Listed,
    slot: u32,
    stack: Stack,
}

const NO_WORD: Word = Word {
    code: 0,
    listed: Listed::Nowhere,
    slot: 0,
    stack: EMPTY,
};

// An abort, with its slot and how many aborts are outside of it.
#[derive(Clone, Copy)]
struct Abort {
    weak: bool,
    cond: u32,
    slot: u32,
    outside: u32,
}

const NO_ABORT: Abort = Abort {
    weak: false,
    cond: 0,
    slot: 0,
    outside: 0,
};

// What is drawn of an image so far: its words, its aborts, and of each slot where it starts and where its handlers stand;
// and the slot whose words are drawn, with the aborts that it is inside.
#[derive(Clone, Copy)]
struct Drawn {
    words: [Word; 256],
    word_count: u32,
    aborts: [Abort; 48],
    abort_count: u32,
    starts: [u32; 6],
    tails: [u32; 6],
    slot: u32,
    stack: Stack,
}

// A register that words write.
fn register(draws: &mut Draws) -> Reg {
    Reg::at((3 + draws.next(3)) as u8)
}

// A word that computes.
fn compute(draws: &mut Draws) -> Instr {
    let rd = register(draws);
    let ra = Reg::at(draws.next(6) as u8);
    let rb = register(draws);
    let imm = draws.next(7) as i16 - 3;
    match draws.next(14) {
        0 => Instr::Addk { rd, ra, rb },
        1 => Instr::Rsubk { rd, ra, rb },
        2 => Instr::Cmp { rd, ra, rb },
        3 => Instr::Or { rd, ra, rb },
        4 => Instr::Xor { rd, ra, rb },
        5 => Instr::Mul { rd, ra, rb },
        6 => Instr::Idiv { rd, ra, rb },
        7 => Instr::Bsrl { rd, ra, rb },
        8 => Instr::Bsra { rd, ra, rb },
        9 => Instr::Bsll { rd, ra, rb },
        10 => Instr::Andi { rd, ra, imm },
        11 => Instr::Ori { rd, ra, imm },
        _ => Instr::Addik { rd, ra, imm },
    }
}

// A load or a store.
fn move_word(draws: &mut Draws) -> Instr {
    let rd = register(draws);
    let imm = (4 * draws.next(4)) as i16;
    let ra = Reg::R0;
    match draws.next(2) {
        0 => Instr::Lwi { rd, ra, imm },
        _ => Instr::Swi { rd, ra, imm },
    }
}

// A branch over the next word.
fn branch(draws: &mut Draws) -> Instr {
    let ra = register(draws);
    let imm = 8;
    match draws.next(6) {
        0 => Instr::Beqi { ra, imm },
        1 => Instr::Bnei { ra, imm },
        2 => Instr::Blti { ra, imm },
        3 => Instr::Blei { ra, imm },
        4 => Instr::Bgti { ra, imm },
        _ => Instr::Bgei { ra, imm },
    }
}

// A word that may stand in place of another one.
fn mistake(drawn: u32, draws: &mut Draws) -> u32 {
    match draws.next(6) {
        0 => encode(&Instr::Ret),
        1 => encode(&Instr::Drop),
        2 => {
            let target = draws.next(60) as u16;
            encode(&Instr::Call { target })
        }
        3 => {
            let imm = draws.next(2) as i16;
            encode(&Instr::Imm { imm })
        }
        4 => encode(&Instr::Cend { ra: Reg::R3 }),
        _ => drawn.wrapping_mul(65536),
    }
}

impl Drawn {
    fn nothing() -> Drawn {
        Drawn {
            words: [NO_WORD; 256],
            word_count: 0,
            aborts: [NO_ABORT; 48],
            abort_count: 0,
            starts: [0; 6],
            tails: [0; 6],
            slot: 0,
            stack: EMPTY,
        }
    }

    fn put_listed(&mut self, i: Instr, listed: Listed) {
        let word = Word {
            code: encode(&i),
            listed,
            slot: self.slot,
            stack: self.stack,
        };
        if let Some(place) = self.words.get_mut(self.word_count as usize) {
            *place = word;
        }
        self.word_count = self.word_count.wrapping_add(1);
    }

    fn put(&mut self, i: Instr) {
        self.put_listed(i, Listed::Nowhere);
    }

    // A fork, or the pause of a slot that has no children.
    fn fork(&mut self) {
        let (lo, count) = CHILDREN[(self.slot % 6) as usize];
        if count == 0 {
            self.put_listed(Instr::Eot, Listed::Pauses);
        } else {
            self.put_listed(Instr::Fork { lo, count }, Listed::Forks);
        }
    }

    fn enter(&mut self, draws: &mut Draws) {
        let outside = self.stack.depth;
        if outside >= MOST_DEPTH {
            return;
        }
        let number = self.abort_count;
        let weak = draws.next(3) > 0;
        let cond = 2 * draws.next(3);
        if let Some(place) = self.aborts.get_mut(number as usize) {
            *place = Abort {
                weak,
                cond,
                slot: self.slot,
                outside,
            };
        }
        self.abort_count = number.wrapping_add(1);
        self.stack.numbers[outside as usize] = number;
        self.stack.depth = outside + 1;
        self.put(Instr::Abrt {
            number: (number % 65536) as u16,
        });
    }

    fn leave(&mut self) {
        if self.stack.depth > 0 {
            self.stack.depth -= 1;
            self.put(Instr::Leave);
        }
    }

    // A loop of few turns round a word that computes.
    fn turns(&mut self, draws: &mut Draws) {
        let turns = draws.next(4) as u16;
        self.put(Instr::Loop { turns });
        let target = (self.word_count.wrapping_add(3) % 65536) as u16;
        self.put(Instr::Next { target });
        self.put(compute(draws));
        self.put(Instr::Bri { imm: -8 });
    }

    fn item(&mut self, draws: &mut Draws) {
        match draws.next(12) {
            0 | 1 => self.enter(draws),
            2 => self.leave(),
            3 | 4 => self.put_listed(Instr::Eot, Listed::Pauses),
            5 | 6 => self.fork(),
            7 => self.put(compute(draws)),
            8 => {
                self.put(branch(draws));
                self.put(compute(draws));
            }
            9 => self.turns(draws),
            _ => self.put(move_word(draws)),
        }
    }

    // The words of a slot. Its handlers leave the aborts that are outside of the one that went off.
    fn draw_slot(&mut self, s: u32, draws: &mut Draws) {
        self.slot = s;
        self.stack = EMPTY;
        self.starts[(s % 6) as usize] = self.word_count;
        for _ in 0..ITEMS {
            self.item(draws);
        }
        let past = 16u32.wrapping_sub(self.stack.depth.wrapping_mul(4)) % 32;
        self.put(Instr::Bri { imm: past as i16 });
        self.tails[(s % 6) as usize] = self.word_count;
        for _ in 0..MOST_DEPTH {
            self.put(Instr::Leave);
        }
        self.stack = EMPTY;
    }

    // The end of a slot: slot 0 pauses and begins again.
    fn end_slot(&mut self, s: u32) {
        if s != 0 {
            return self.put(Instr::End);
        }
        self.put_listed(Instr::Eot, Listed::Pauses);
        let back = self.word_count.wrapping_sub(self.starts[0]).wrapping_mul(4);
        self.put(Instr::Bri {
            imm: 0i16.wrapping_sub((back % 32768) as i16),
        });
    }

    // One word may be another one.
    fn mistake(&mut self, draws: &mut Draws) {
        let drawn = draws.next(65536);
        let word = mistake(drawn, draws);
        if let Some(place) = self
            .words
            .get_mut((drawn % self.word_count.max(1)) as usize)
        {
            place.code = word;
        }
    }

    // Three conditions, the words of each slot, and a mistake or none.
    fn draw(&mut self, draws: &mut Draws) {
        for imm in [0, 4, 8] {
            let (rd, ra) = (Reg::R4, Reg::R0);
            self.put(Instr::Lwi { rd, ra, imm });
            self.put(Instr::Cend { ra: rd });
        }
        for s in 0..6 {
            self.draw_slot(s, draws);
            self.end_slot(s);
        }
        if draws.next(2) == 0 {
            self.mistake(draws);
        }
    }

    fn write_words(&self, text: &mut String) -> Result<(), AllocError> {
        write!(text, "ARPRET 1\ncode {}\n", self.word_count)?;
        for word in self.words.iter().take(self.word_count as usize) {
            write!(text, "{:08x}\n", word.code)?;
        }
        text.push_str("memory 4\n0\n0\n0\n0\ninputs 2\n0\n1\noutputs 2\n2\n3\n")
    }

    fn write_slots(&self, text: &mut String) -> Result<(), AllocError> {
        text.push_str("slots 6\n")?;
        for start in &self.starts {
            write!(text, "{}\n", *start)?;
        }
        Ok(())
    }

    fn write_aborts(&self, text: &mut String) -> Result<(), AllocError> {
        write!(text, "aborts {}\n", self.abort_count)?;
        for abort in self.aborts.iter().take(self.abort_count as usize) {
            let kind = if abort.weak { "w" } else { "s" };
            let tail = self.tails[(abort.slot % 6) as usize];
            let handler = tail.wrapping_add(MOST_DEPTH).wrapping_sub(abort.outside);
            write!(text, "{} {} {}\n", kind, abort.cond, handler)?;
        }
        Ok(())
    }

    fn count_of(&self, listed: Listed) -> u32 {
        let mut count = 0u32;
        for word in &self.words {
            if word.listed == listed {
                count = count.wrapping_add(1);
            }
        }
        count
    }

    fn write_points(&self, text: &mut String, listed: Listed) -> Result<(), AllocError> {
        write!(text, "{}\n", self.count_of(listed))?;
        for (at, word) in self.words.iter().enumerate() {
            if word.listed == listed {
                word.write_point(text, at)?;
            }
        }
        Ok(())
    }

    fn write(&self, text: &mut String) -> Result<(), AllocError> {
        self.write_words(text)?;
        self.write_slots(text)?;
        self.write_aborts(text)?;
        text.push_str("pauses ")?;
        self.write_points(text, Listed::Pauses)?;
        text.push_str("forks ")?;
        self.write_points(text, Listed::Forks)
    }
}

impl Word {
    // The line of a pause or a fork.
    fn write_point(&self, text: &mut String, at: usize) -> Result<(), AllocError> {
        write!(text, "{} {} {}", at, self.slot, self.stack.depth)?;
        for number in self.stack.numbers.iter().take(self.stack.depth as usize) {
            write!(text, " {}", *number)?;
        }
        text.push_str("\n")
    }
}

/// The file of a drawn image.
pub(crate) fn drawn_file(alloc: Global, draws: &mut Draws) -> Result<String, AllocError> {
    let mut drawn = Drawn::nothing();
    drawn.draw(draws);
    let mut text = String::new(alloc);
    drawn.write(&mut text)?;
    Ok(text)
}
