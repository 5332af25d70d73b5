use std::alloc::AllocError;

/// Why the records of a pool don't begin anew.
#[derive(Clone, Copy, Debug, PartialEq, Eq)]
pub enum CheckpointWhy {
    Memory,
    /// The keeper failed, and counts it.
    Keeper,
    /// More than 2^31 entries led to the rows, so that no pool opens from them.
    CountFull,
}

impl From<AllocError> for CheckpointWhy {
    ghost use Rattle.std.specs.Prelude.{◌≡◌};
    ghost use Rattle.swarm_history.specs.declared.checkpoint_fault.CheckpointWhy.TheVariants.{Memory};

    ghost from_gives = { λ _ why. why ≡ Memory };

    fn from(_: AllocError) -> CheckpointWhy {
        CheckpointWhy::Memory
    }
}

/// The place of the first pool whose records don't begin anew, and why.
#[derive(Clone, Copy, Debug, PartialEq, Eq)]
pub struct CheckpointFault {
    pub place: u32,
    pub why: CheckpointWhy,
}
