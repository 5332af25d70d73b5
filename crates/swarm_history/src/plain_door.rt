ghost use Rattle.std.specs.Prelude.{◌≡◌, ◌≤◌, ◌<◌, ◌↔◌, ℕ, true, [], length, map, slice_get, IsTrue, IfOk, IfErr, IfSome};
ghost use Rattle.std.specs.List.{All, sum_by};
ghost use Rattle.sw_base.specs.Faults.{Rose};
ghost use Rattle.swarm_model.specs.Bases.{empty_base};
ghost use Rattle.swarm_model.specs.Bytes.{Carries};
ghost use Rattle.swarm_model.specs.Fits.{fits};
ghost use Rattle.swarm_model.specs.MachineState.{IsHistory};
ghost use Rattle.swarm_model.specs.Points.{Growth};
ghost use Rattle.swarm_model.specs.Settings.{are_settings};
ghost use Rattle.pool_doors.specs.Calls.{call_of};
ghost use Rattle.pool_doors.specs.Doors.{base_told, IsPoolCall, IsFreshDoor, CountsKeeper};
ghost use Rattle.pool_loading.specs.Records.{AreFilled};
ghost use Rattle.swarm_history.specs.Checkpoints.{IsCheckpointed, IsCountFull, LeavesRestorable};
ghost use Rattle.swarm_history.specs.Machines.{logs_of, own_door, pools_of, start_at, starts_of};
ghost use Rattle.swarm_history.specs.Records.{AreBasesOf, AreKept, AreRecordsOf, AreMachineRecords, AreRestorable, HoldsNoOthers, IsFirstBadRecord};
ghost use Rattle.swarm_history.specs.OneProof.{are_records_one};

use crate::checkpoint_fault::{CheckpointFault, CheckpointWhy};
use crate::checkpointing::begin_all_anew;
use crate::load_fault::LoadFault;
use crate::loading::load_machines;
use crate::plain_desk::PlainDesk;
use crate::serving::serve;
use dimensions::{Text, TryCopy};
use pool_doors::{Answered, CallFault, Door, PoolCall};
use std::alloc::Global;
use swarm_keeper::Keeper;
use swarm_model::{Machine, Settings};

/// A door over machines and keepers of its own, one of each for each pool, which no other door
/// shares. Its pass has number 0.
#[derive(Drop)]
pub struct PlainDoor<M: Machine + Drop, K: Keeper + Drop> {
    alloc: Global,
    store: Option<Text>,
    /// In the order of the pools.
    machines: Vec<M>,
    /// In the order of the pools.
    keepers: Vec<K>,
    calls: u64,
    ghost few: { length machines.items ≤ 4 },
    ghost paired: { length keepers.items ≡ length machines.items },
    ghost held: { All AreFilled (map M.kept machines.items) },
    ghost records: { AreRecordsOf (map K.tables keepers.items) (map M.kept machines.items) } by { are_records_one _ _ },
}

/// Answers a request at the machine of its pool, whose records the keeper has.
fn call_machine<M: Machine, K: Keeper>(
    alloc: Global,
    machine: &mut M,
    keeper: &mut K,
    call: &PoolCall,
) -> Result<Answered, CallFault>
    requires fits { IsTrue (fits (M.kept machine.old).pool.settings call.now.request.now) }
    requires carries { Carries call.now.request.now call.now.bytes.now }
    requires held { AreFilled (M.kept machine.old) }
    requires records { AreMachineRecords (K.tables keeper.old) (M.kept machine.old) }

    ensures held { AreFilled (M.kept machine.new) }
    ensures records { AreMachineRecords (K.tables keeper.new) (M.kept machine.new) }
    ensures no_other_blobs { HoldsNoOthers (K.tables keeper.old) (M.kept machine.old) → HoldsNoOthers (K.tables keeper.new) (M.kept machine.new) }
    ensures base { base_told (K.tables keeper.new) ≡ base_told (K.tables keeper.old) }

    ensures start { (M.kept machine.new).start ≡ (M.kept machine.old).start }
    ensures settings { (M.kept machine.new).pool.settings ≡ (M.kept machine.old).pool.settings }
    ensures done { (growth : Growth) × IsPoolCall (M.kept machine.old).start true (call_of 0 call.now)
        (M.kept machine.old).log (M.kept machine.new).log growth result }

    ensures grows { K.faults keeper.old ≤ K.faults keeper.new }
    ensures failed { CountsKeeper result (K.faults keeper.old) (K.faults keeper.new) }
{
    let mut desk = PlainDesk { machine, keeper };
    let result = serve(alloc, &mut desk, call);
    let PlainDesk {
        machine: _,
        keeper: _,
    } = desk;
    result
}

/// The log that each machine keeps is legal.
fn see_histories<M: Machine>(machines: &[M])
    ensures { All IsHistory (map M.kept machines.now) }
{
    for place in 0..machines.len() {
        let _length = machines[place].length();
    }
}

impl<M: Machine + Drop, K: Keeper + Drop> PlainDoor<M, K> {
    /// A door over machines that are made of what the keepers have, one for each pool, in their
    /// order.
    ///
    /// # Errors
    ///
    /// The keepers come back in their order, with what they had. [`LoadFault::BadStore`] tells the
    /// first pool whose records are refused.
    pub fn new(
        alloc: Global,
        settings: &Settings,
        keepers: Vec<K>,
    ) -> Result<PlainDoor<M, K>, (LoadFault, Vec<K>)>
        requires rules { IsTrue (are_settings settings.now) }
        requires keepers { length keepers.items ≡ length settings.now.pools }

        ensures fresh { IfOk result (λ door. IsFreshDoor settings.now (⟦<PlainDoor<M, K> as Door>⟧.state door).seen (⟦<PlainDoor<M, K> as Door>⟧.state door)) }
        ensures lines { IfOk result (λ door. AreKept (map K.tables keepers.items) (⟦<PlainDoor<M, K> as Door>⟧.state door).seen) }
        ensures bases { IfOk result (λ door. AreBasesOf settings.now.pools (map K.tables keepers.items) (⟦<PlainDoor<M, K> as Door>⟧.state door).writer.starts) }
        ensures records { IfOk result (λ door. (⟦<PlainDoor<M, K> as Door>⟧.state door).records ≡ map K.tables keepers.items) }

        // Sure keepers tell nothing, so there is nothing to load.
        ensures nothing { IsTrue K.SURE → IfOk result (λ door. (p : ℕ) → (⟦<PlainDoor<M, K> as Door>⟧.state door).seen p ≡ []) }
        ensures opening { IsTrue K.SURE → IfOk result (λ door. (p : ℕ) → IfSome (slice_get settings.now.pools p) (λ pool. (⟦<PlainDoor<M, K> as Door>⟧.state door).writer.starts p ≡ empty_base pool)) }

        ensures bad { IfErr result (λ back. IsFirstBadRecord settings.now (map K.tables keepers.items) back.0) }
        ensures sure { IsTrue K.SURE → IfErr result (λ back. back.0 ≡ LoadFault.Memory) }
        ensures failed { IfErr result (λ back. back.0 ≡ LoadFault.Failed → Rose (sum_by K.faults keepers.items) (sum_by K.faults back.1.items)) }
        ensures back { IfErr result (λ back. map K.tables back.1.items ≡ map K.tables keepers.items) }

        ensures grows { IfOk result (λ door. sum_by K.faults keepers.items ≤ (⟦<PlainDoor<M, K> as Door>⟧.state door).faults) }
        ensures grows_back { IfErr result (λ back. sum_by K.faults keepers.items ≤ sum_by K.faults back.1.items) }
    {
        let mut keepers = keepers;
        let Ok(store) = settings.store.try_copy(alloc) else {
            return Err((LoadFault::Memory, keepers));
        };
        match load_machines(alloc, settings, &mut keepers) {
            Ok(machines) => Ok(PlainDoor {
                alloc,
                store,
                machines,
                keepers,
                calls: 0,
            }),
            Err(fault) => Err((fault, keepers)),
        }
    }

    /// The machines, in the order of the pools.
    pub fn machines(&self) -> &[M]
        ensures logs { (p : ℕ) → logs_of (map M.kept result.now) p ≡ (⟦<PlainDoor<M, K> as Door>⟧.state self.now).seen p }
        ensures starts { (p : ℕ) → start_at (starts_of (map M.kept result.now)) p ≡ (⟦<PlainDoor<M, K> as Door>⟧.state self.now).writer.starts p }
        ensures pools { pools_of (map M.kept result.now) ≡ (⟦<PlainDoor<M, K> as Door>⟧.state self.now).settings.pools }
    {
        self.machines.as_slice()
    }

    /// The machines and the keepers, in the order of the pools. It takes no memory. What the keepers
    /// have is what a door of the same pools is made of again.
    pub fn end(self) -> (Vec<M>, Vec<K>)
        ensures logs { (p : ℕ) → logs_of (map M.kept result.0.items) p ≡ (⟦<PlainDoor<M, K> as Door>⟧.state self).seen p }
        ensures starts { (p : ℕ) → start_at (starts_of (map M.kept result.0.items)) p ≡ (⟦<PlainDoor<M, K> as Door>⟧.state self).writer.starts p }
        ensures records { AreRecordsOf (map K.tables result.1.items) (map M.kept result.0.items) }
        ensures restores { AreRestorable (⟦<PlainDoor<M, K> as Door>⟧.state self).settings.pools (map K.tables result.1.items) (⟦<PlainDoor<M, K> as Door>⟧.state self).writer.starts (⟦<PlainDoor<M, K> as Door>⟧.state self).seen }
        ensures lines { AreKept (map K.tables result.1.items) (⟦<PlainDoor<M, K> as Door>⟧.state self).seen }
        ensures bases { AreBasesOf (⟦<PlainDoor<M, K> as Door>⟧.state self).settings.pools (map K.tables result.1.items) (⟦<PlainDoor<M, K> as Door>⟧.state self).writer.starts }

        ensures told { map K.tables result.1.items ≡ (⟦<PlainDoor<M, K> as Door>⟧.state self).records }
        ensures faults { sum_by K.faults result.1.items ≡ (⟦<PlainDoor<M, K> as Door>⟧.state self).faults }

        ensures machines { pools_of (map M.kept result.0.items) ≡ (⟦<PlainDoor<M, K> as Door>⟧.state self).settings.pools }
        ensures keepers { length result.1.items ≡ length (⟦<PlainDoor<M, K> as Door>⟧.state self).settings.pools }
    {
        // For the proof: the log that each machine keeps is legal.
        see_histories(self.machines.as_slice());
        (self.machines, self.keepers)
    }

    /// Makes the records of each pool begin anew from its rows, pool by pool, in the order of the
    /// pools. A pool that opens from them is as it was; its log has no entries.
    ///
    /// # Errors
    ///
    /// The first pool where it stops: its records stay, and so do those of the pools behind it. The
    /// keepers come back in their order.
    pub fn checkpoint(self) -> Result<Vec<K>, (CheckpointFault, Vec<K>)>
        ensures ok { IfOk result (λ keepers. IsCheckpointed (⟦<PlainDoor<M, K> as Door>⟧.state self) (length (⟦<PlainDoor<M, K> as Door>⟧.state self).settings.pools) (map K.tables keepers.items)) }
        ensures err { IfErr result (λ back. IsCheckpointed (⟦<PlainDoor<M, K> as Door>⟧.state self) back.0.place (map K.tables back.1.items)) }
        ensures place { IfErr result (λ back. back.0.place < length (⟦<PlainDoor<M, K> as Door>⟧.state self).settings.pools) }

        // The next start goes on from what is left, also where it stops.
        ensures restores { IfOk result (λ keepers. LeavesRestorable (⟦<PlainDoor<M, K> as Door>⟧.state self) (length (⟦<PlainDoor<M, K> as Door>⟧.state self).settings.pools) (map K.tables keepers.items)) }
        ensures restores_back { IfErr result (λ back. LeavesRestorable (⟦<PlainDoor<M, K> as Door>⟧.state self) back.0.place (map K.tables back.1.items)) }

        // It stops for the count exactly where more than 2^31 entries led to the rows of the pool.
        ensures full { IfErr result (λ back. (back.0.why ≡ CheckpointWhy.CountFull) ↔ IsCountFull (⟦<PlainDoor<M, K> as Door>⟧.state self).writer.starts (⟦<PlainDoor<M, K> as Door>⟧.state self).seen back.0.place) }

        ensures failed { IfErr result (λ back. back.0.why ≡ CheckpointWhy.Keeper → Rose (⟦<PlainDoor<M, K> as Door>⟧.state self).faults (sum_by K.faults back.1.items)) }
        ensures grows { IfOk result (λ keepers. (⟦<PlainDoor<M, K> as Door>⟧.state self).faults ≤ sum_by K.faults keepers.items) }
        ensures grows_back { IfErr result (λ back. (⟦<PlainDoor<M, K> as Door>⟧.state self).faults ≤ sum_by K.faults back.1.items) }

        ensures keepers { IfOk result (λ keepers. length keepers.items ≡ length (⟦<PlainDoor<M, K> as Door>⟧.state self).settings.pools) }
        ensures keepers_back { IfErr result (λ back. length back.1.items ≡ length (⟦<PlainDoor<M, K> as Door>⟧.state self).settings.pools) }
    {
        let PlainDoor {
            alloc,
            store: _,
            machines,
            mut keepers,
            calls: _,
        } = self;
        let all = machines.as_slice();
        // For the proof: the log that each machine keeps is legal.
        see_histories(all);
        match begin_all_anew(alloc, all, &mut keepers) {
            Ok(()) => Ok(keepers),
            Err(fault) => Err((fault, keepers)),
        }
    }
}

impl<M: Machine + Drop, K: Keeper + Drop> Door for PlainDoor<M, K> {
    ghost state = { λ d. own_door d.store (map M.kept d.machines.items) (map K.tables d.keepers.items) (sum_by K.faults d.keepers.items) d.calls };

    fn call(&mut self, place: u32, call: &PoolCall) -> Result<Answered, CallFault> {
        self.calls += 1;
        let machine = &mut self.machines[place as usize];
        let keeper = &mut self.keepers[place as usize];
        call_machine(self.alloc, machine, keeper, call)
    }
}
