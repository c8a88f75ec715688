ghost use Rattle.std.specs.Prelude.{◌≡◌};
ghost use Rattle.std.specs.Option.{option_map};
ghost use Rattle.pretc_top.specs.Commands as spec;
ghost use Rattle.pretc_top.specs.Commands.{command_of};
ghost use Rattle.pretc_top.specs.Named.{named};

use pt_base::Text;

/// A command, with the names that it is given.
#[derive(Clone, Copy)]
pub enum Command<N> {
    /// `go PROGRAM IMAGE`
    Go(N, N),
    /// `run PROGRAM COSTS IMAGE CERT`
    Run(N, N, N, N),
    /// `check IMAGE CERT COSTS`
    Check(N, N, N),
    /// `print PROGRAM`
    Print(N),
    /// `rules PROGRAM`
    Rules(N),
    /// `exec IMAGE CERT COSTS`
    Exec(N, N, N),
    /// `mean PROGRAM`
    Mean(N),
    /// `gen N`
    Gen(u32),
    /// `job N`
    Job(u32),
}

// The most threads of a generated program.
const MOST_GENERATED: u32 = 62;

// The number that a digit from 1 on is.
fn of_digit(d: u8) -> Option<u32>
    ensures { result ≡ spec.of_digit d }
{
    if b'1' <= d && d <= b'9' {
        Some(u32::from(d) - 48)
    } else {
        None
    }
}

// The number that two digits are, the first of them from 1 on, where it isn't over the most.
fn of_digits(d: u8, e: u8) -> Option<u32>
    ensures { result ≡ spec.of_digits d e }
{
    if b'1' <= d && d <= b'9' && b'0' <= e && e <= b'9' {
        let n = 10 * (u32::from(d) - 48) + (u32::from(e) - 48);
        if n <= MOST_GENERATED { Some(n) } else { None }
    } else {
        None
    }
}

// The number of threads that a word is.
fn threads_of(word: &[u8]) -> Option<u32>
    ensures { result ≡ spec.threads_of word.now }
{
    match word {
        [d] => of_digit(*d),
        [d, e] => of_digits(*d, *e),
        _ => None,
    }
}

// The generator's command, where the word is a number of threads.
fn generating(word: &Text) -> Option<Command<&Text>>
    ensures { option_map named result ≡ spec.generating word.now }
{
    match threads_of(word.bytes()) {
        Some(n) => Some(Command::Gen(n)),
        None => None,
    }
}

// The job's command, where the word is a number of threads.
fn doing_job(word: &Text) -> Option<Command<&Text>>
    ensures { option_map named result ≡ spec.doing_job word.now }
{
    match threads_of(word.bytes()) {
        Some(n) => Some(Command::Job(n)),
        None => None,
    }
}

// The command of two words, if they are one.
fn of_two<'a>(verb: &Text, word: &'a Text) -> Option<Command<&'a Text>>
    ensures { option_map named result ≡ spec.of_two verb.now word.now }
{
    if verb.bytes() == b"print".as_slice() {
        Some(Command::Print(word))
    } else if verb.bytes() == b"rules".as_slice() {
        Some(Command::Rules(word))
    } else if verb.bytes() == b"mean".as_slice() {
        Some(Command::Mean(word))
    } else if verb.bytes() == b"gen".as_slice() {
        generating(word)
    } else if verb.bytes() == b"job".as_slice() {
        doing_job(word)
    } else {
        None
    }
}

// Whether no two of four words are equal.
fn are_apart(program: &[u8], costs: &[u8], image: &[u8], cert: &[u8]) -> bool
    ensures { result ≡ spec.are_apart program.now costs.now image.now cert.now }
{
    (program != costs && program != image && program != cert)
        && (costs != image && costs != cert)
        && image != cert
}

/// The command that the words are, if they are one.
pub fn command_of(words: &[Text]) -> Option<Command<&Text>>
    ensures { option_map named result ≡ command_of words.now }
{
    match words {
        [verb, word] => of_two(verb, word),
        [verb, program, image] => {
            if verb.bytes() == b"go".as_slice() && program.bytes() != image.bytes() {
                Some(Command::Go(program, image))
            } else {
                None
            }
        }
        [verb, image, cert, costs] => {
            if verb.bytes() == b"check".as_slice() {
                Some(Command::Check(image, cert, costs))
            } else if verb.bytes() == b"exec".as_slice() {
                Some(Command::Exec(image, cert, costs))
            } else {
                None
            }
        }
        [verb, program, costs, image, cert] => {
            if verb.bytes() == b"run".as_slice()
                && are_apart(program.bytes(), costs.bytes(), image.bytes(), cert.bytes())
            {
                Some(Command::Run(program, costs, image, cert))
            } else {
                None
            }
        }
        _ => None,
    }
}
