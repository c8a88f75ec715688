ghost use Rattle.std.specs.Prelude.{◌≡◌};
ghost use Rattle.tk_cert.specs.Whole.{fault_of};

use pt_base::Unread;

/// Why a text is not read as a certificate.
#[derive(Clone, Copy, Debug, PartialEq, Eq)]
pub enum CertFault {
    /// The first group of lines at fault: 1 the heading or the length, 2 the bound, 3 the lines of code places, 4 the weights
    /// of loops, 5 the slots, 6 the walk, 7 bytes behind the last line.
    Form { number: u8 },
    /// No memory was found.
    Memory,
}

/// The fault of a group of lines.
pub fn fault(number: u8, why: Unread) -> CertFault
    ensures { result ≡ fault_of number why }
{
    match why {
        Unread::Form => CertFault::Form { number },
        Unread::Memory => CertFault::Memory,
    }
}
