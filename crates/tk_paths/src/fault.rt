use pt_base::Memory;
use std::alloc::{AllocError, AllocFailed};

/// Why no certificate is given.
#[derive(Clone, Copy)]
pub enum Fault {
    /// A number is greater than a certificate may have.
    TooLarge,
    /// No memory was found.
    Memory,
}

impl From<Memory> for Fault {
    ghost use Rattle.std.specs.Prelude.{◌≡◌};
    ghost use Rattle.tk_paths.specs.declared.fault.Fault.{Fault};

    ghost from_gives = { λ e f. f ≡ Fault.Memory };

    fn from(_memory: Memory) -> Self {
        Fault::Memory
    }
}

impl From<AllocError> for Fault {
    ghost use Rattle.std.specs.Prelude.{◌≡◌};
    ghost use Rattle.tk_paths.specs.declared.fault.Fault.{Fault};

    ghost from_gives = { λ e f. f ≡ Fault.Memory };

    fn from(_error: AllocError) -> Self {
        Fault::Memory
    }
}

impl<T: Drop> From<AllocFailed<T>> for Fault {
    ghost use Rattle.std.specs.Prelude.{◌≡◌};
    ghost use Rattle.tk_paths.specs.declared.fault.Fault.{Fault};

    ghost from_gives = { λ e f. f ≡ Fault.Memory };

    fn from(_failed: AllocFailed<T>) -> Self {
        Fault::Memory
    }
}
