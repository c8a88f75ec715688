ghost use Rattle.std.specs.Prelude.{◌≡◌};
ghost use Rattle.pt_base.specs.declared.fault.Unread.TheVariants.{Memory};

use std::alloc::{AllocError, AllocFailed};

/// Why a value could not be read.
#[derive(Clone, Copy, Debug, PartialEq, Eq)]
pub enum Unread {
    /// No such value stands there.
    Form,
    /// No memory was found.
    Memory,
}

impl From<AllocError> for Unread {
    ghost from_gives = { λ _ e. e ≡ Memory };

    fn from(_e: AllocError) -> Unread {
        Unread::Memory
    }
}

impl<T: Drop> From<AllocFailed<T>> for Unread {
    ghost from_gives = { λ _ e. e ≡ Memory };

    fn from(_e: AllocFailed<T>) -> Unread {
        Unread::Memory
    }
}
