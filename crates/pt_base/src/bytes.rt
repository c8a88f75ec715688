ghost use Rattle.std.specs.Prelude.{◌≡◌};
ghost use Rattle.pt_base.specs.Bytes.{is_digit as digit_test};

/// Whether a byte is a decimal digit.
pub fn is_digit(byte: u8) -> bool
    ensures { result ≡ digit_test byte }
{
    byte >= 48 && byte <= 57
}
