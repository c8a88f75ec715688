ghost use Rattle.pc_lower.specs.FlowLaws.{ImagesDoWhatIsMeant, FlowsCanBeLaid, FlowsAreWithinLimits, FlowsKeepToTheirCells};

/// An image of a program's flow, within the limits, never traps; its outputs are those of the program's meaning, each tick is
/// charged at most 1,000,000,000,000, and after it the slots stand where the program stands; on every list of rows of words, under
/// every cost table.
pub fn images_do_what_is_meant()
    ensures { ImagesDoWhatIsMeant }
{}

/// The flow of each accepted program can be laid out: its threads run in slots of their own, 64 at most; loops last or pass as they
/// are to; links, counters and aborts have room; and pauses, forks and aborts are numbered in the order of the text.
pub fn flows_can_be_laid()
    ensures { FlowsCanBeLaid }
{}

/// It is within the limits for which no tick is charged more than 1,000,000,000,000, however its words are written, within the
/// worst of each step and test.
pub fn flows_are_within_limits()
    ensures { FlowsAreWithinLimits }
{}

/// Its steps keep to its cells.
pub fn flows_keep_to_their_cells()
    ensures { FlowsKeepToTheirCells }
{}
