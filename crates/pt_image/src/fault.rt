ghost use Rattle.std.specs.Prelude.{◌≡◌};
ghost use Rattle.pt_image.specs.Whole.{fault_of};

use pt_base::Unread;

/// Why a text is not read as an image.
#[derive(Clone, Copy, Debug, PartialEq, Eq)]
pub enum ImageFault {
    /// The first group of lines at fault: 1 the heading or the length, 2 the code, 3 the memory, 4 the inputs, 5 the outputs,
    /// 6 the slots, 7 the abort lines, 8 the pauses, 9 the forks, 10 bytes behind the last line.
    Form { number: u8 },
    /// No memory was found.
    Memory,
}

/// The fault of a group of lines.
pub fn fault(number: u8, why: Unread) -> ImageFault
    ensures { result ≡ fault_of number why }
{
    match why {
        Unread::Form => ImageFault::Form { number },
        Unread::Memory => ImageFault::Memory,
    }
}
