ghost use Rattle.std.specs.Prelude.{◌≡◌, ◌≤◌, ◌<◌, ℕ, length, map, slice_index_or, None, IsTrue, IfOk, IfErr, IfSome, IsErrOf};
ghost use Rattle.std.specs.List.{All, sum_by};
ghost use Rattle.sw_base.specs.Faults.{Rose};
ghost use Rattle.swarm_model.specs.Settings.{keeps_rules, are_settings};
ghost use Rattle.pool_loading.specs.Records.{IsLoaded, AreRefusedAt};
ghost use Rattle.pool_loading.specs.declared.store_part.StorePart.{StorePart};
ghost use Rattle.swarm_history.specs.Records.{AreLoaded, IsFirstBadRecord, IsNew, fault_of as spec_fault_of};

use crate::LoadFault;
use pool_loading::{LoadStop, load_pool};
use std::alloc::Global;
use swarm_keeper::Keeper;
use swarm_model::{Machine, PoolSettings, Settings};

/// A machine of the records that the keeper at a place has.
fn load_at<M: Machine + Drop, K: Keeper>(
    alloc: Global,
    pool: &PoolSettings,
    keepers: &mut Vec<K>,
    place: usize,
) -> Result<M, LoadStop>
    requires rules { IsTrue (keeps_rules pool.now) }
    requires place { place < length keepers.old.items }
    ensures loaded { IfOk result (λ machine. IsLoaded pool.now (slice_index_or (map K.tables keepers.old.items) place None) (M.kept machine)) }
    ensures nothing { IsTrue K.SURE → IfOk result (λ machine. IsNew (M.kept machine)) }
    ensures refused { (part : StorePart) (at : ℕ) → IsErrOf result (LoadStop.Refused part at) → IfSome (slice_index_or (map K.tables keepers.old.items) place None) (λ t. AreRefusedAt pool.now t part at) }
    ensures sure { IsTrue K.SURE → IfErr result (λ stop. stop ≡ LoadStop.Memory) }
    ensures failed { IsErrOf result LoadStop.Failed → Rose (sum_by K.faults keepers.old.items) (sum_by K.faults keepers.new.items) }
    ensures stays { map K.tables keepers.new.items ≡ map K.tables keepers.old.items }
    ensures all_stay { length keepers.new.items ≡ length keepers.old.items }
    ensures grows { sum_by K.faults keepers.old.items ≤ sum_by K.faults keepers.new.items }
{
    let keeper = &mut keepers[place];
    load_pool(alloc, pool, keeper)
}

fn fault_of(stop: LoadStop, place: u32) -> LoadFault
    ensures { result ≡ spec_fault_of place stop }
{
    match stop {
        LoadStop::Memory => LoadFault::Memory,
        LoadStop::Failed => LoadFault::Failed,
        LoadStop::Refused { part, at } => LoadFault::BadStore { place, part, at },
    }
}

/// A machine for each pool, made of the records that the keeper at its place has, in their order.
pub(crate) fn load_machines<M: Machine + Drop, K: Keeper>(
    alloc: Global,
    settings: &Settings,
    keepers: &mut Vec<K>,
) -> Result<Vec<M>, LoadFault>
    requires rules { IsTrue (are_settings settings.now) }
    requires keepers { length keepers.old.items ≡ length settings.now.pools }
    ensures count { IfOk result (λ machines. length machines.items ≡ length settings.now.pools) }
    ensures loaded { IfOk result (λ machines. AreLoaded settings.now.pools (map K.tables keepers.old.items) (map M.kept machines.items)) }
    ensures nothing { IsTrue K.SURE → IfOk result (λ machines. All IsNew (map M.kept machines.items)) }
    ensures bad { IfErr result (IsFirstBadRecord settings.now (map K.tables keepers.old.items)) }
    ensures sure { IsTrue K.SURE → IfErr result (λ fault. fault ≡ LoadFault.Memory) }
    ensures failed { IsErrOf result LoadFault.Failed → Rose (sum_by K.faults keepers.old.items) (sum_by K.faults keepers.new.items) }
    ensures stays { map K.tables keepers.new.items ≡ map K.tables keepers.old.items }
    ensures all_stay { length keepers.new.items ≡ length keepers.old.items }
    ensures grows { sum_by K.faults keepers.old.items ≤ sum_by K.faults keepers.new.items }
{
    let pools = settings.pools.as_slice();
    let mut machines = Vec::new(alloc);
    for place in 0..pools.len() {
        match load_at(alloc, &pools[place], keepers, place) {
            Ok(machine) => machines.push(machine)?,
            Err(stop) => return Err(fault_of(stop, place as u32)),
        }
    }
    Ok(machines)
}
