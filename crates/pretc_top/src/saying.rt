ghost use Rattle.std.specs.Prelude.{◌≡◌};
ghost use Rattle.pretc_run.specs.Endings.{line_of};

use pretc_run::Ending;
use pt_trace::LineBuffer;

/// How a call ends, with the line that it prints last.
#[derive(Drop)]
pub struct Saying {
    pub ending: Ending,
    pub line: LineBuffer,
}

/// The end with the ending's own line.
pub fn said(ending: Ending) -> Saying
    ensures { result ≡ record { ending = ending; line = line_of ending } }
{
    Saying {
        ending,
        line: ending.line(),
    }
}
