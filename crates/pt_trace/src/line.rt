ghost use Rattle.std.specs.Prelude.{◌≡◌, ◌≤◌, ◌<◌, ◌^◌, length, slice_set};
ghost use Rattle.std.specs.Option.{option_map};
ghost use Rattle.pt_trace.specs.Scan as spec;
ghost use Rattle.pt_trace.specs.Trace.{content, reading, signed_up_to};

// How far a word of a line has been read.
#[derive(Clone, Copy)]
pub enum Scan {
    // no byte of it
    Between,
    // its `-`
    Minus,
    // a digit at least; a value that is too great stands at `GREAT`
    Digits { negative: bool, value: u64 },
}

// A number that is too great under either sign.
const GREAT: u64 = 2147483649;

fn after_digit(scan: Scan, digit: u64) -> Scan
    requires { digit < 10 }
    ensures { result ≡ spec.after_digit scan digit }
{
    match scan {
        Scan::Between => Scan::Digits {
            negative: false,
            value: digit,
        },
        Scan::Minus => Scan::Digits {
            negative: true,
            value: digit,
        },
        Scan::Digits { negative, value } => Scan::Digits {
            negative,
            value: value.saturating_mul(10).saturating_add(digit).min(GREAT),
        },
    }
}

// After a byte that is no blank; none where the word can be no number.
fn after_byte(scan: Scan, byte: u8) -> Option<Scan>
    ensures { result ≡ spec.after_byte scan byte }
{
    if byte == b'-' {
        return match scan {
            Scan::Between => Some(Scan::Minus),
            Scan::Minus => None,
            Scan::Digits { .. } => None,
        };
    }
    if byte < b'0' || byte > b'9' {
        return None;
    }
    Some(after_digit(scan, (byte - b'0') as u64))
}

// The number of this sign and value, where it is in range.
fn signed(negative: bool, value: u64) -> Option<i32>
    ensures { result ≡ spec.number_at (spec.digits negative value) }
{
    if negative {
        if value > 2147483648 {
            return None;
        }
        return Some((-(value as i64)) as i32);
    }
    if value > 2147483647 {
        return None;
    }
    Some(value as i32)
}

// Writes a number to its place, where the row has that.
fn put(row: &mut [i32], count: usize, value: i32)
    ensures { row.new ≡ slice_set row.old count value }
{
    if count < row.len() {
        row[count] = value;
    }
}

// Ends a word: its number goes to the place of this count, and the count grows.
fn end_word(scan: Scan, row: &mut [i32], count: usize) -> Option<usize>
    requires { count < 2 ^ 32 }
    ensures { option_map (λ c. (row.new, c)) result ≡ spec.ended row.old count scan }
{
    match scan {
        Scan::Between => Some(count),
        Scan::Minus => None,
        Scan::Digits { negative, value } => match signed(negative, value) {
            None => None,
            Some(number) => {
                put(row, count, number);
                Some(count + 1)
            }
        },
    }
}

// Reads the numbers of a line into the row, and counts them; none where a word is no number.
fn scan_line(bytes: &[u8], row: &mut [i32]) -> Option<usize>
    requires { length bytes.now ≤ 1024 }
    ensures { option_map (λ c. (row.new, c)) result ≡ spec.scanned bytes.now row.old 0 spec.at_start }
{
    let mut scan = Scan::Between;
    let mut count = 0;
    for &byte in bytes {
        if byte == b' ' || byte == b'\t' {
            let Some(counted) = end_word(scan, row, count) else {
                return None;
            };
            count = counted;
            scan = Scan::Between;
            continue;
        }
        let Some(next) = after_byte(scan, byte) else {
            return None;
        };
        scan = next;
    }
    end_word(scan, row, count)
}

// The bytes of a line without the carriage return directly before its line feed.
fn without_return(line: &[u8], ended: bool) -> &[u8]
    ensures { result.now ≡ content (record { bytes = line.now; ended = ended }) }
{
    match line.last() {
        Some(&13) if ended => &line[..line.len() - 1],
        _ => line,
    }
}

/// Reads line `number` of a trace into the row, or gives the number of the rule that refuses it; the
/// row is then of no use. `line` has the bytes before its line feed or the end of the input, and `ended`
/// says whether a line feed ends it.
pub fn judge_line(number: u64, line: &[u8], ended: bool, row: &mut [i32]) -> Option<u8>
    ensures { spec.judged result row.new ≡ reading (length row.old) number (record { bytes = line.now; ended = ended }) }
{
    if number > 1000000 {
        return Some(3);
    }
    if line.len() > 1024 {
        return Some(4);
    }
    match scan_line(without_return(line, ended), row) {
        None => Some(1),
        Some(count) => { if count == row.len() { None } else { Some(2) } }
    }
}
