ghost use Rattle.pc_grammar.specs.Spans.{SpansRise};

/// The spans of a program rise without overlap, and end within its source.
pub fn spans_rise()
    ensures { SpansRise }
{}
