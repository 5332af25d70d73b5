//! The keepers of all pools, from a store and back.
ghost use Rattle.std.specs.Prelude.{◌≡◌, map, length, sum_by, IsTrue, IfOk, IfErr, OnOk, OnErr};
ghost use Rattle.std.specs.List.{AllByRecursion};
ghost use Rattle.swarm_keeper.specs.Stores.{HasPlace, PlacesStay};
ghost use Rattle.swarm_policy.specs.Pools.{have_own_names};
ghost use Rattle.swarm_cli.specs.Attaching.{AttachesAll, AttachesNone, AttachesOne, DetachesAll};

use std::alloc::Global;
use sw_base::StartFault;
use swarm_keeper::Store;
use swarm_model::PoolSettings;

/// Gives the keepers of the pools back, in their order. It takes no memory.
pub(crate) fn detach_all<P: Store>(
    store: &mut P,
    folder: &str,
    pools: &[PoolSettings],
    keepers: Vec<P::Keeper>,
)
    requires own_names { IsTrue (have_own_names pools.now) }
    requires count { length keepers.items ≡ length pools.now }
    requires places { AllByRecursion (λ pool. HasPlace (P.state store.old) folder.now pool.name) pools.now }
    ensures { DetachesAll (P.state store.old) (P.state store.new) folder.now pools.now (map P.Keeper.tables keepers.items) (sum_by P.Keeper.faults keepers.items) }
{
    let mut rest = keepers.into_iter();
    'pools: for pool in pools {
        let Some(keeper) = rest.next() else {
            unreachable!();
        };
        store.detach(folder, pool.name.as_str(), keeper);
    }
}

/// Attaches the keeper of one more pool. Where there is no memory to hold it, it is given back.
fn attach_one<P: Store>(
    alloc: Global,
    store: &mut P,
    folder: &str,
    pool: &PoolSettings,
    keepers: &mut Vec<P::Keeper>,
) -> Result<(), StartFault>
    ensures attached { OnOk result (AttachesOne (P.state store.old) (P.state store.new) folder.now pool.now.name
        (map P.Keeper.tables keepers.old.items) (map P.Keeper.tables keepers.new.items)
        (sum_by P.Keeper.faults keepers.old.items) (sum_by P.Keeper.faults keepers.new.items)) }
    ensures not_attached { IfErr result (AttachesNone (P.state store.old) (P.state store.new)) }
    ensures same { OnErr result (keepers.new.items ≡ keepers.old.items) }
    ensures places { PlacesStay (P.state store.old) (P.state store.new) }
{
    let keeper = store.attach(alloc, folder, pool.name.as_str())?;
    match keepers.push(keeper) {
        Ok(()) => Ok(()),
        Err(back) => {
            store.detach(folder, pool.name.as_str(), back.value);
            Err(StartFault::Memory)
        }
    }
}

/// Attaches the keeper of each pool, in their order. Where one can't be attached, those before it
/// are given back.
pub(crate) fn attach_all<P: Store>(
    alloc: Global,
    store: &mut P,
    folder: &str,
    pools: &[PoolSettings],
) -> Result<Vec<P::Keeper>, StartFault>
    requires { IsTrue (have_own_names pools.now) }
    ensures attached { IfOk result (λ keepers. AttachesAll (P.state store.old) (P.state store.new) folder.now pools.now (map P.Keeper.tables keepers.items) (sum_by P.Keeper.faults keepers.items)) }
    ensures not_attached { IfErr result (AttachesNone (P.state store.old) (P.state store.new)) }
{
    let mut keepers = Vec::new(alloc);
    'pools: for pool in pools {
        if let Err(fault) = attach_one(alloc, store, folder, pool, &mut keepers) {
            let attached = &pools[..keepers.len()];
            detach_all(store, folder, attached, keepers);
            return Err(fault);
        }
    }
    Ok(keepers)
}
