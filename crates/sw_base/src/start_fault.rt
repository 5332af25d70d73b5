use std::alloc::{AllocError, AllocFailed};

/// Why what a command needs before its first request could not be made or reached.
#[derive(Clone, Copy, Debug, PartialEq, Eq)]
pub enum StartFault {
    Memory,
    /// The call failed, and the count of such failures rose with it.
    Failed,
}

impl From<AllocError> for StartFault {
    ghost use Rattle.std.specs.Prelude.{◌≡◌};
    ghost use Rattle.sw_base.specs.declared.start_fault.StartFault.TheVariants.{Memory};

    ghost from_gives = { λ _ fault. fault ≡ Memory };

    fn from(_: AllocError) -> StartFault {
        StartFault::Memory
    }
}

impl<T: Drop> From<AllocFailed<T>> for StartFault {
    ghost use Rattle.std.specs.Prelude.{◌≡◌};
    ghost use Rattle.sw_base.specs.declared.start_fault.StartFault.TheVariants.{Memory};

    ghost from_gives = { λ _ fault. fault ≡ Memory };

    fn from(_: AllocFailed<T>) -> StartFault {
        StartFault::Memory
    }
}
