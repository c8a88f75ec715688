ghost use Rattle.std.specs.Prelude.{◌≡◌, ◌<◌, IsTrue};
ghost use Rattle.pc_regs.specs.Placement.{IsPlacement, is_placed, location_of, memory_words, most_memory_words};

use mb_isa::Reg;
use pc_lower::Place;

/// The first temporaries stand in registers from this one on.
const FIRST_TEMPORARY: u8 = 9;

/// So many of them do.
const TEMPORARY_REGISTERS: u32 = 10;

/// Held words stand in registers from this one on.
const FIRST_HELD: u8 = 19;

/// How many words of each kind a program has: its cells stand in the first words of the memory, the first ten temporaries and
/// all held words in registers of their own, and further temporaries in the memory words behind the cells.
#[derive(Clone, Copy)]
pub struct Placement {
    pub cells: usize,
    pub temporaries: usize,
    pub held: usize,
}

/// Where a word stands.
#[derive(Clone, Copy)]
pub enum Location {
    Register(Reg),
    /// A word of the memory, by its number.
    Memory(u32),
}

impl Placement {
    /// Where the word of a place stands.
    pub fn location(self, place: Place) -> Location
        requires room { IsPlacement self }
        requires placed { IsTrue (is_placed self place) }
        ensures { result ≡ location_of self place }
    {
        match place {
            Place::Temp(k) => {
                if k < TEMPORARY_REGISTERS {
                    return Location::Register(Reg::at(FIRST_TEMPORARY + k as u8));
                }
                Location::Memory(self.cells as u32 + (k - TEMPORARY_REGISTERS))
            }
            Place::Held(h) => Location::Register(Reg::at(FIRST_HELD + h as u8)),
        }
    }

    /// How many memory words there are: the cells, the temporaries behind them, and one more where there are none.
    pub fn memory_words(self) -> usize
        requires { IsPlacement self }
        ensures { result ≡ memory_words self }
    {
        let further = self
            .temporaries
            .saturating_sub(TEMPORARY_REGISTERS as usize);
        self.cells + further.max(1)
    }
}
