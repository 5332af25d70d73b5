//! Records that begin anew from the rows of machines.
ghost use Rattle.std.specs.Prelude.{◌≡◌, ◌≤◌, ◌<◌, ◌↔◌, ◌^◌, length, map, OnOk, OnErr, IfErr, IsErrOf};
ghost use Rattle.std.specs.List.{sum_by};
ghost use Rattle.sw_base.specs.Faults.{Rose};
ghost use Rattle.swarm_model.specs.Bases.{front};
ghost use Rattle.swarm_history.specs.Checkpoints.{BeginsAnew, HasBegunAt, HaveBegunTo, IsFullAt};

use crate::checkpoint_fault::{CheckpointFault, CheckpointWhy};
use base_lines::write_base;
use std::alloc::Global;
use swarm_keeper::{Keeper, KeeperFault};
use swarm_model::Machine;

/// How many entries may lead to a base.
const MOST_COUNT: u64 = 1 << 31;

/// Makes the records that the keeper has of a machine begin anew from its rows. Where it stops, the
/// records stay. The lines of all rows are in memory at once.
fn begin_anew<M: Machine, K: Keeper>(
    alloc: Global,
    machine: &M,
    keeper: &mut K,
) -> Result<(), CheckpointWhy>
    ensures anew { OnOk result (BeginsAnew (M.kept machine.now).pool.settings (M.kept machine.now).start (M.kept machine.now).log (K.tables keeper.old) (K.tables keeper.new)) }
    ensures stays { OnErr result (K.tables keeper.new ≡ K.tables keeper.old) }
    ensures full { IsErrOf result CheckpointWhy.CountFull ↔ (2 ^ 31 < front (M.kept machine.now).start (M.kept machine.now).log) }
    ensures grows { K.faults keeper.old ≤ K.faults keeper.new }
    ensures failed { IsErrOf result CheckpointWhy.Keeper → Rose (K.faults keeper.old) (K.faults keeper.new) }
{
    let count = machine.length();
    if count > MOST_COUNT {
        return Err(CheckpointWhy::CountFull);
    }
    let lines = write_base(alloc, machine)?;
    match keeper.replace(lines.as_slice(), count) {
        Ok(()) => Ok(()),
        Err(KeeperFault::Memory) => Err(CheckpointWhy::Memory),
        Err(KeeperFault::Failed) => Err(CheckpointWhy::Keeper),
    }
}

/// The same of the machine and the keeper at a place.
fn begin_anew_at<M: Machine, K: Keeper>(
    alloc: Global,
    machines: &[M],
    keepers: &mut Vec<K>,
    place: usize,
) -> Result<(), CheckpointWhy>
    requires machine { place < length machines.now }
    requires keeper { place < length keepers.old.items }
    ensures anew { OnOk result (HasBegunAt (map M.kept machines.now) place (map K.tables keepers.old.items) (map K.tables keepers.new.items)) }
    ensures stays { OnErr result (map K.tables keepers.new.items ≡ map K.tables keepers.old.items) }
    ensures full { IsErrOf result CheckpointWhy.CountFull ↔ IsFullAt (map M.kept machines.now) place }
    ensures count { length keepers.new.items ≡ length keepers.old.items }
    ensures grows { sum_by K.faults keepers.old.items ≤ sum_by K.faults keepers.new.items }
    ensures failed { IsErrOf result CheckpointWhy.Keeper → Rose (sum_by K.faults keepers.old.items) (sum_by K.faults keepers.new.items) }
{
    let machine = &machines[place];
    let keeper = &mut keepers[place];
    begin_anew(alloc, machine, keeper)
}

/// Makes the records of each machine begin anew, place by place, up to the first where it stops.
pub(crate) fn begin_all_anew<M: Machine, K: Keeper>(
    alloc: Global,
    machines: &[M],
    keepers: &mut Vec<K>,
) -> Result<(), CheckpointFault>
    requires few { length machines.now ≤ 4 }
    requires keepers { length keepers.old.items ≡ length machines.now }
    ensures ok { OnOk result (HaveBegunTo (map M.kept machines.now) (length machines.now) (map K.tables keepers.old.items) (map K.tables keepers.new.items)) }
    ensures err { IfErr result (λ fault. HaveBegunTo (map M.kept machines.now) fault.place (map K.tables keepers.old.items) (map K.tables keepers.new.items)) }
    ensures place { IfErr result (λ fault. fault.place < length machines.now) }
    ensures full { IfErr result (λ fault. (fault.why ≡ CheckpointWhy.CountFull) ↔ IsFullAt (map M.kept machines.now) fault.place) }
    ensures count { length keepers.new.items ≡ length keepers.old.items }
    ensures grows { sum_by K.faults keepers.old.items ≤ sum_by K.faults keepers.new.items }
    ensures failed { IfErr result (λ fault. fault.why ≡ CheckpointWhy.Keeper → Rose (sum_by K.faults keepers.old.items) (sum_by K.faults keepers.new.items)) }
{
    for place in 0..machines.len() {
        match begin_anew_at(alloc, machines, keepers, place) {
            Ok(()) => {}
            Err(why) => {
                return Err(CheckpointFault {
                    place: place as u32,
                    why,
                });
            }
        }
    }
    Ok(())
}
