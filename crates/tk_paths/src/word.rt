use mb_isa::Class;

/// What a word of a code comes to, whatever the data are: `docs/bounds.md`, "Words".
#[derive(Clone, Copy)]
pub enum Word {
    /// It goes on at the next place, at the charge of its class.
    Does { class: Class },
    /// The same, and an upper half stands for the next word.
    Imm { upper: i16 },
    /// It goes on at a place; there is none where that isn't a place of the code.
    Jump { to: Option<u32> },
    /// It goes on at the next place or at a place; there is none where that isn't a place of the code.
    Branch { to: Option<u32> },
    /// It waits for so many slots from `lo` on.
    Fork { lo: u8, count: u8 },
    /// It pauses.
    Eot,
    /// It ends.
    End,
    /// It enters the abort with this number.
    Abrt { number: u16 },
    /// It leaves its innermost abort.
    Leave,
    /// It calls the routine at a place.
    Call { to: u16 },
    /// It returns from a routine.
    Ret,
    /// It enters a loop of so many turns.
    Loop { turns: u32 },
    /// It goes on with its innermost loop, or leaves it for a place.
    Next { to: u16 },
    /// It leaves its innermost loop.
    Drop,
    /// A condition ends.
    Cend,
}
