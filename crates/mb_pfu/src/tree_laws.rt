//! Laws of the unit's moves for the crates above, each the contract of a function that does nothing.

ghost use Rattle.mb_pfu.specs.Laws.{FreeOutside, AbortsKeepStates, TestsAreInOrder, AnswersTakeOff};

/// A slot is free exactly where it isn't in the tree of the slots.
pub fn free_outside()
    ensures { FreeOutside }
{}

/// To enter or leave an abort changes no slot's state, and not which slot is ready first.
pub fn aborts_keep_states()
    ensures { AbortsKeepStates }
{}

/// Where the tests begin all entries are due, in depth-first order; the next test is the first of those that are due.
pub fn tests_are_in_order()
    ensures { TestsAreInOrder }
{}

/// An answer that cuts takes off the due tests of its slot and of the group below it, and any other the first one.
pub fn answers_take_off()
    ensures { AnswersTakeOff }
{}
