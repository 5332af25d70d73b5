ghost use Rattle.std.specs.Prelude.{◌≡◌, ◌≤◌, ◌↔◌, Some, false, length, IsTrue, is_some, is_none, OnOk, OnErr, IfErr, IfSome, IsErrOf, option_map};
ghost use Rattle.sha2.specs.Sha256.{sha256};
ghost use Rattle.sw_base.specs.Faults.{Rose};
ghost use Rattle.dimensions.specs.Choosing.{when};
ghost use Rattle.swarm_model.specs.Bytes.{brings, new_digest, removed_digest};
ghost use Rattle.swarm_model.specs.Effects.{fresh_chunk, attempt_of};
ghost use Rattle.swarm_model.specs.Finding.{blob_of};
ghost use Rattle.swarm_model.specs.History.{MayFollow, has_room};
ghost use Rattle.swarm_model.specs.MachineState.{IsHistory, AreHeld};
ghost use Rattle.pool_doors.specs.Doors.{base_told, is_log_full};
ghost use Rattle.pool_loading.specs.Records.{AreFilled};
ghost use Rattle.swarm_history.specs.Records.{AreMachineRecords, KeepsEntry, HoldsNoOthers};
ghost use Rattle.swarm_history.specs.Settling.{IsUnchanged, Adds};

use dimensions::Text;
use entry_lines::line_of;
use pool_doors::CallFault;
use std::alloc::Global;
use swarm_keeper::{Keeper, KeeperFault};
use swarm_model::{Chunk, Entry, EntryKind, Machine, ReserveFault, task_uncounted};
use task_props::Digest;

/// Whether a chunk goes on from the output that is kept.
fn is_fresh<M: Machine>(machine: &M, task: u32, chunk: &Chunk) -> bool
    ensures { result ≡ is_some (fresh_chunk (attempt_of (M.kept machine.now).pool task) (Some chunk.now)) }
{
    match task_uncounted(machine, task) {
        Some(row) => match &row.attempt {
            Some(attempt) => chunk.start == attempt.length,
            None => false,
        },
        None => false,
    }
}

/// The digest, where the pool has no blob of it.
fn unless_held<M: Machine>(machine: &M, digest: &Digest) -> Option<Digest>
    requires held { AreHeld (M.kept machine.now) }
    ensures { result ≡ when (is_none (blob_of (M.kept machine.now).pool digest.now)) digest.now }
{
    match machine.bytes(digest) {
        Some(_) => None,
        None => Some(*digest),
    }
}

/// The digest of the blob that an entry places, where it was not present.
fn added_digest<M: Machine>(machine: &M, kind: &EntryKind) -> Option<Digest>
    requires held { AreHeld (M.kept machine.now) }
    ensures { result ≡ new_digest (M.kept machine.now).pool kind.now }
{
    match kind {
        EntryKind::Put { digest, .. } => unless_held(machine, digest),
        EntryKind::Update {
            t,
            chunk: Some(chunk),
            ..
        } => {
            if is_fresh(machine, *t, chunk) {
                unless_held(machine, &chunk.digest)
            } else {
                None
            }
        }
        _ => None,
    }
}

/// The digest of the blob that an entry removes.
fn dropped_digest<M: Machine>(machine: &M, kind: &EntryKind) -> Option<Digest>
    ensures { result ≡ removed_digest (M.kept machine.now).pool kind.now }
{
    match kind {
        EntryKind::Blob { n, kept: false } => match machine.blob(*n) {
            Some(blob) => Some(blob.digest),
            None => None,
        },
        _ => None,
    }
}

/// Keeps the line of an entry, with the bytes of the blob that it places and without those of the
/// blob that it removes, where there is a keeper that keeps anything. Where it stops, the records
/// stay.
fn keep<M: Machine, K: Keeper>(
    alloc: Global,
    machine: &M,
    keeper: &mut K,
    entry: &Entry,
    bytes: Option<&[u8]>,
) -> Result<(), CallFault>
    requires held { AreHeld (M.kept machine.now) }

    ensures keeps { OnOk result (KeepsEntry (M.kept machine.now) entry.now (option_map (λ b. b.now) bytes.entry) (K.tables keeper.old) (K.tables keeper.new)) }
    ensures stays { OnErr result (K.tables keeper.new ≡ K.tables keeper.old) }
    ensures not_full { IfErr result (λ f. is_log_full f ≡ false) }

    ensures grows { K.faults keeper.old ≤ K.faults keeper.new }
    ensures failed { IsErrOf result CallFault.Keeper → Rose (K.faults keeper.old) (K.faults keeper.new) }
    ensures sure { IsTrue K.SURE → ¬ IsErrOf result CallFault.Keeper }
{
    if K::SURE {
        return Ok(());
    }
    let Ok(line) = line_of(alloc, entry) else {
        return Err(CallFault::Memory);
    };
    let added = added_digest(machine, &entry.kind);
    let dropped = dropped_digest(machine, &entry.kind);
    let content = bytes.unwrap_or(&[]);
    match keeper.append(line.as_str(), added, content, dropped) {
        Ok(()) => Ok(()),
        Err(KeeperFault::Memory) => Err(CallFault::Memory),
        Err(KeeperFault::Failed) => Err(CallFault::Keeper),
    }
}

/// Adds an entry, with the bytes that it brings, once its line is kept. Where it stops, the log and
/// the records stay.
pub fn add_entry<M: Machine, K: Keeper>(
    alloc: Global,
    machine: &mut M,
    keeper: &mut K,
    entry: Entry,
    bytes: Option<&[u8]>,
) -> Result<(), CallFault>
    requires follows { MayFollow (M.kept machine.old).pool entry }
    requires history { IsHistory (M.kept machine.old) }
    requires held { AreHeld (M.kept machine.old) }
    requires records { AreMachineRecords (K.tables keeper.old) (M.kept machine.old) }
    requires brings { IfSome bytes (λ b. brings entry.kind ≡ Some (sha256 b.now, length b.now)) }
    requires whole { IsTrue (is_some (new_digest (M.kept machine.old).pool entry.kind)) → IsTrue (is_some bytes) }

    ensures held { AreHeld (M.kept machine.new) }
    ensures records { AreMachineRecords (K.tables keeper.new) (M.kept machine.new) }
    ensures no_other_blobs { HoldsNoOthers (K.tables keeper.old) (M.kept machine.old) → HoldsNoOthers (K.tables keeper.new) (M.kept machine.new) }
    ensures filled { AreFilled (M.kept machine.old) → AreFilled (M.kept machine.new) }
    ensures base { base_told (K.tables keeper.new) ≡ base_told (K.tables keeper.old) }

    ensures added { OnOk result (Adds (M.kept machine.old) (M.kept machine.new) entry) }
    ensures stays { OnErr result (IsUnchanged (M.kept machine.old) (M.kept machine.new)) }
    ensures full { IsErrOf result CallFault.LogFull ↔ (has_room (M.kept machine.old).start.rows (M.kept machine.old).log entry ≡ false) }

    ensures grows { K.faults keeper.old ≤ K.faults keeper.new }
    ensures failed { IsErrOf result CallFault.Keeper → Rose (K.faults keeper.old) (K.faults keeper.new) }
    ensures sure { IsTrue K.SURE → ¬ IsErrOf result CallFault.Keeper }
{
    match machine.reserve(&entry) {
        Ok(()) => {}
        Err(ReserveFault::Memory) => return Err(CallFault::Memory),
        Err(ReserveFault::LogFull) => return Err(CallFault::LogFull),
    }
    keep(alloc, machine, keeper, &entry, bytes)?;
    machine.commit(entry, bytes);
    // For the proof: the log that the machine keeps is legal.
    let _length = machine.length();
    Ok(())
}
