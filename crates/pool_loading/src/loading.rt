ghost use Rattle.std.specs.Prelude.{◌≡◌, ◌≤◌, ℕ, [], IsTrue, IfOk, IfErr, IfSome, IsErrOf};
ghost use Rattle.sw_base.specs.Faults.{Rose};
ghost use Rattle.swarm_model.specs.Bases.{empty_base};
ghost use Rattle.swarm_model.specs.Settings.{keeps_rules};
ghost use Rattle.pool_loading.specs.declared.store_part.StorePart.{StorePart};
ghost use Rattle.pool_loading.specs.Records.{IsLoaded, AreRefusedAt};

use crate::StorePart;
use crate::filling::fill_blobs;
use crate::opening::open_machine;
use crate::replaying::load_lines;
use std::alloc::{AllocError, Global};
use swarm_keeper::Keeper;
use swarm_model::{Machine, PoolSettings};

/// Why records are not loaded.
#[derive(Clone, Copy, Debug, PartialEq, Eq)]
pub enum LoadStop {
    Memory,
    /// The keeper failed, and counts it.
    Failed,
    /// Of the base: the line at this place, from 0, is none of its place; or this is the number of
    /// lines, and a pool may not open from what they tell. Of the lines of the log: the line at this
    /// place is of no entry that is legal there; or this is their number, and a blob lacks its bytes.
    Refused { part: StorePart, at: u64 },
}

impl From<AllocError> for LoadStop {
    ghost use Rattle.std.specs.Prelude.{◌≡◌};
    ghost use Rattle.pool_loading.specs.declared.loading.LoadStop.TheVariants.{Memory};

    ghost from_gives = { λ _ stop. stop ≡ Memory };

    fn from(_: AllocError) -> LoadStop {
        LoadStop::Memory
    }
}

/// A machine of the records that the keeper has, under these settings: it opens on their base, takes up
/// the lines of the log since, and gets the bytes of its blobs.
///
/// # Errors
///
/// `Refused` where the records are those of no machine of these settings, `Failed` where the keeper
/// failed, and else `Memory`. The records stay as they are.
pub fn load_pool<M: Machine + Drop, K: Keeper>(
    alloc: Global,
    settings: &PoolSettings,
    keeper: &mut K,
) -> Result<M, LoadStop>
    requires { IsTrue (keeps_rules settings.now) }
    ensures loaded { IfOk result (λ machine. IsLoaded settings.now (K.tables keeper.old) (M.kept machine)) }
    ensures nothing { IsTrue K.SURE → IfOk result (λ machine. ((M.kept machine).log ≡ []) × ((M.kept machine).start ≡ empty_base settings.now)) }
    ensures refused { (part : StorePart) (at : ℕ) → IsErrOf result (LoadStop.Refused part at) → IfSome (K.tables keeper.old) (λ t. AreRefusedAt settings.now t part at) }
    ensures sure { IsTrue K.SURE → IfErr result (λ stop. stop ≡ LoadStop.Memory) }
    ensures failed { IsErrOf result LoadStop.Failed → Rose (K.faults keeper.old) (K.faults keeper.new) }
    ensures stays { K.tables keeper.new ≡ K.tables keeper.old }
    ensures grows { K.faults keeper.old ≤ K.faults keeper.new }
{
    let mut machine: M = open_machine(alloc, settings, keeper)?;
    load_lines(alloc, &mut machine, settings, keeper)?;
    fill_blobs(&mut machine, keeper)?;
    Ok(machine)
}
