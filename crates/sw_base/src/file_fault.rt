use std::alloc::AllocError;

/// Why a file is not loaded or saved.
#[derive(Clone, Copy, Debug, PartialEq, Eq)]
pub enum FileFault {
    Memory,
    /// The call failed, and the count of such failures rose with it.
    Failed,
    /// The file has more bytes than were asked for.
    TooLong,
}

impl From<AllocError> for FileFault {
    ghost use Rattle.std.specs.Prelude.{◌≡◌};
    ghost use Rattle.sw_base.specs.declared.file_fault.FileFault.TheVariants.{Memory};

    ghost from_gives = { λ _ fault. fault ≡ Memory };

    fn from(_: AllocError) -> FileFault {
        FileFault::Memory
    }
}
