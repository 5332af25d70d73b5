//! What is told of the pools of machines.
ghost use Rattle.std.specs.Prelude.{◌≡◌, map, IfOk, string_bytes};
ghost use Rattle.swarm_history.specs.Machines.{logs_of, pools_of, start_at, starts_of};
ghost use Rattle.pool_summaries.specs.Summaries.{fronts_of, summary_of};

use pool_summaries::{fronts, summary};
use std::alloc::{AllocError, Global};
use swarm_history::PlainDoor;
use swarm_http::Door;
use swarm_keeper::Keeper;
use swarm_model::{Machine, PoolSettings};

/// The summary of the pools of machines, in their order.
pub(crate) fn summary_of_machines<M: Machine>(
    alloc: Global,
    pools: &[PoolSettings],
    machines: &[M],
) -> Result<String, AllocError>
    requires pools { pools_of (map M.kept machines.now) ≡ pools.now }
    ensures { IfOk result (λ text. string_bytes text ≡ summary_of pools.now (start_at (starts_of (map M.kept machines.now))) (logs_of (map M.kept machines.now))) }
{
    summary(alloc, pools, machines)
}

/// The front of each pool of a door, and how many tasks it has, in their order.
pub(crate) fn fronts_of_door<M: Machine + Drop, K: Keeper + Drop>(
    alloc: Global,
    pools: &[PoolSettings],
    door: &PlainDoor<M, K>,
) -> Result<String, AllocError>
    requires pools { (⟦<PlainDoor<M, K> as Door>⟧.state door.now).settings.pools ≡ pools.now }
    ensures { IfOk result (λ text. string_bytes text ≡ fronts_of pools.now (⟦<PlainDoor<M, K> as Door>⟧.state door.now).writer.starts (⟦<PlainDoor<M, K> as Door>⟧.state door.now).seen) }
{
    fronts(alloc, pools, door.machines())
}
