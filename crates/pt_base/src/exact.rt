ghost use Rattle.std.specs.Prelude.{◌≡◌, ◌≤◌, ◌<◌, ◌^◌, ℕ, List, false};
ghost use Rattle.std.specs.Fmt.{decimal};
ghost use Rattle.std.specs.Int.{w32};
ghost use Rattle.std.specs.Int.RustNames.{FitsSigned};
ghost use Rattle.pt_base.specs.Bytes.{is_digit};
ghost use Rattle.pt_base.specs.Spelling.{each, number_text, list_text, numbers_text, word_text, signed_text, count_text};
ghost use Rattle.pt_base.specs.Reading.{number_at, number_then_at, many_at, list_at, numbers_at, word_line_at, signed_line_at, count_at};
ghost use Rattle.pt_base.specs.Reads.{Reads, Anything, NoDigit, Below, IsWord, AreNumbers, AreMany};

/// A number is read exactly where it is spelled: alone, where no digit follows it, or with a byte that ends it.
pub fn numbers_are_exact()
    ensures alone { (limit : ℕ) → limit ≤ 2 ^ 64 → Reads (number_at limit) decimal (Below limit) NoDigit }
    ensures ended { (ends limit : ℕ) → limit ≤ 2 ^ 64 → is_digit ends ≡ false →
        Reads (number_then_at ends limit) (number_text ends) (Below limit) Anything }
    ensures counts { (name : List ℕ) (least limit : ℕ) → limit ≤ 2 ^ 64 →
        Reads (count_at name least limit) (count_text name) (λ n. (least ≤ n) × (n < limit)) Anything }
{}

/// Numbers behind their count are read exactly where they are spelled.
pub fn lists_are_exact()
    ensures alone { (most limit : ℕ) → most ≤ 2 ^ 64 → limit ≤ 2 ^ 64 →
        Reads (list_at most limit) list_text (AreNumbers most limit) NoDigit }
    ensures ended { (ends most limit : ℕ) → most ≤ 2 ^ 64 → limit ≤ 2 ^ 64 → is_digit ends ≡ false →
        Reads (numbers_at ends most limit) (numbers_text ends) (AreNumbers most limit) Anything }
{}

/// A word on a line of its own is read exactly where it is spelled, in hexadecimal digits or as a signed number.
pub fn words_are_exact()
    ensures hexadecimal { Reads word_line_at word_text IsWord Anything }
    ensures signed { Reads signed_line_at signed_text (FitsSigned w32) Anything }
{}

/// So many lines, each with a number, a word or a signed number, are read exactly where they are spelled.
pub fn lines_are_exact()
    ensures numbers { (count limit : ℕ) → limit ≤ 2 ^ 64 →
        Reads (many_at (number_then_at 10 limit) count) (each (number_text 10)) (AreMany count (Below limit)) Anything }
    ensures words { (count : ℕ) → Reads (many_at word_line_at count) (each word_text) (AreMany count IsWord) Anything }
    ensures signed { (count : ℕ) → Reads (many_at signed_line_at count) (each signed_text) (AreMany count (FitsSigned w32)) Anything }
{}
