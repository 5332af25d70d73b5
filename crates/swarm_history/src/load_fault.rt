use pool_loading::StorePart;
use std::alloc::AllocFailed;

/// Why a door is not made of kept records.
#[derive(Clone, Copy, Debug, PartialEq, Eq)]
pub enum LoadFault {
    Memory,
    /// A keeper failed, and counts it.
    Failed,
    /// The records of the pool at this place are refused. In the base, its line at `at`, from 0, is
    /// none of its place, or `at` is the number of its lines and its rows are no base. In the lines,
    /// the one at `at` is of no entry that is legal there, or `at` is the number of lines and a blob
    /// lacks its bytes.
    BadStore {
        place: u32,
        part: StorePart,
        at: u64,
    },
}

impl<T: Drop> From<AllocFailed<T>> for LoadFault {
    ghost use Rattle.std.specs.Prelude.{◌≡◌};
    ghost use Rattle.swarm_history.specs.declared.load_fault.LoadFault.TheVariants.{Memory};

    ghost from_gives = { λ _ fault. fault ≡ Memory };

    fn from(_: AllocFailed<T>) -> LoadFault {
        LoadFault::Memory
    }
}
