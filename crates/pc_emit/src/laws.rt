ghost use Rattle.pc_emit.specs.Laws.{AFlowIsLaidOut, AFlowIsSmall, ALaidFlowIsAProgram, ALaidFlowIsCertified, ALaidFlowIsInItsRanges, ALaidFlowListsAll};

/// The image of a flow holds the flow, for every writing.
pub fn a_flow_is_laid_out()
    ensures { AFlowIsLaidOut }
{}

/// It is within the ranges of an image, and each of its words has 32 bits.
pub fn a_laid_flow_is_in_its_ranges()
    ensures { ALaidFlowIsInItsRanges }
{}

/// Its lists have all pauses, forks and aborts of the flow, and a pause is listed at every `eot` of its code and nowhere else.
pub fn a_laid_flow_lists_all()
    ensures { ALaidFlowListsAll }
{}

/// It holds the flow's program: the sections of `specs/Sections.antt` are those of its code and its lists.
pub fn a_laid_flow_is_a_program()
    ensures { ALaidFlowIsAProgram }
{}

/// So the certificate of that program is accepted whatever the words cost, and its bound is the worst of the image.
pub fn a_laid_flow_is_certified()
    ensures { ALaidFlowIsCertified }
{}

/// Where it holds a program, as certificates see programs, and keeps the limits of the language, no number of a certificate of
/// that program is greater than a count of at most 1,000,000,000,000, whatever the words cost.
pub fn a_flow_is_small()
    ensures { AFlowIsSmall }
{}
