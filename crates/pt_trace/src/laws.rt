ghost use Rattle.pt_trace.specs.Readings.{BeginsWithNone, GivesOneMore, EndsWithAll, EndedWithAll, RefusesTheFirst, FailsAfterWhole, PullsFew, PulledFew};

/// The rows that calls of `next` give one after another are those of the trace, up to its first bad line, its end
/// or a fault of the source.
pub fn readings()
    ensures begins { BeginsWithNone }
    ensures gives { GivesOneMore }
    ensures ends { EndsWithAll }
    ensures ended { EndedWithAll }
    ensures refuses { RefusesTheFirst }
    ensures fails { FailsAfterWhole }
    ensures few { PullsFew }
    ensures pulled { PulledFew }
{}
