use std::alloc::AllocError;

/// Why a file of a work folder is not collected.
#[derive(Clone, Copy, Debug, PartialEq, Eq)]
pub enum CollectFault {
    Memory,
    /// The call failed, and the count of such failures rose with it.
    Failed,
    /// The file has more bytes than were asked for.
    TooLong,
}

impl From<AllocError> for CollectFault {
    ghost use Rattle.std.specs.Prelude.{◌≡◌};
    ghost use Rattle.runners.specs.declared.collect_fault.CollectFault.TheVariants.{Memory};

    ghost from_gives = { λ _ fault. fault ≡ Memory };

    fn from(_: AllocError) -> CollectFault {
        CollectFault::Memory
    }
}
