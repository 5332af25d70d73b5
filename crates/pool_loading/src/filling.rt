//! The bytes of the blobs that a log leaves.
ghost use Rattle.std.specs.Prelude.{◌≡◌, ◌≢◌, ◌≤◌, ◌+◌, ℕ, [], true, false, Ok, None, IfOk, OnOk, IfErr, IfSome, IsSomeAnd, IsErrOf, Decides, length, option_map, slice_get};
ghost use Rattle.blob_rows.specs.declared.filled.Filled.TheVariants.{Done};
ghost use Rattle.sw_base.specs.Faults.{Rose};
ghost use Rattle.swarm_keeper.specs.Tables.{bytes_of};
ghost use Rattle.swarm_model.specs.Bytes.{filled, with_bytes};
ghost use Rattle.pool_loading.specs.declared.store_part.StorePart.{StorePart};
ghost use Rattle.pool_loading.specs.Records.{AreFilled, HasBytes};
ghost use Rattle.pool_loading.specs.Filling.{KeepsLog, HoldsKept, HoldsMore, IsFilledTo, LacksBlob};

use crate::StorePart;
use crate::loading::LoadStop;
use crate::replaying::line_count;
use blob_rows::Filled;
use dimensions::Seq;
use swarm_keeper::{Keeper, KeeperFault};
use swarm_model::Machine;
use task_props::Digest;

/// The most blobs of a pool.
const MOST_BLOBS: u32 = 262_144;

fn bytes_at<K: Keeper>(keeper: &mut K, digest: &Digest) -> Result<Option<Seq<u8>>, LoadStop>
    ensures bytes { IfOk result (λ bytes. IfSome (K.tables keeper.old) (λ t. bytes ≡ bytes_of t.blobs digest.now)) }
    ensures stays { K.tables keeper.new ≡ K.tables keeper.old }
    ensures grows { K.faults keeper.old ≤ K.faults keeper.new }
    ensures failed { IsErrOf result LoadStop.Failed → Rose (K.faults keeper.old) (K.faults keeper.new) }
    ensures not_refused { IfErr result (λ stop. (part : StorePart) (at : ℕ) → stop ≢ LoadStop.Refused part at) }
{
    match keeper.blob(digest) {
        Ok(bytes) => Ok(bytes),
        Err(KeeperFault::Memory) => Err(LoadStop::Memory),
        Err(KeeperFault::Failed) => Err(LoadStop::Failed),
    }
}

/// Whether there are bytes, and they are those of a blob; then they are held.
fn is_filled<M: Machine>(machine: &mut M, digest: &Digest, bytes: &Option<Seq<u8>>) -> bool
    ensures keeps { KeepsLog (M.kept machine.old) (M.kept machine.new) }
    ensures decides { Decides result (IsSomeAnd bytes.now (λ b. filled (M.kept machine.old).pool digest.now b ≡ Done)) }
    ensures held { result ≡ true → IsSomeAnd bytes.now (λ b. (filled (M.kept machine.old).pool digest.now b ≡ Done) × ((M.kept machine.new).held ≡ with_bytes digest.now b (M.kept machine.old).held)) }
{
    match bytes {
        Some(bytes) => machine.fill(digest, bytes.as_slice()) == Filled::Done,
        None => false,
    }
}

/// Whether the bytes of a blob are kept; then they are held.
fn fill_one<M: Machine, K: Keeper>(
    machine: &mut M,
    keeper: &mut K,
    digest: &Digest,
) -> Result<bool, LoadStop>
    ensures keeps { KeepsLog (M.kept machine.old) (M.kept machine.new) }
    ensures decides { IfOk result (λ b. IfSome (K.tables keeper.old) (λ t. Decides b (HasBytes t (M.kept machine.old).pool digest.now))) }
    ensures held { IfOk result (λ b. b ≡ true → HoldsMore (K.tables keeper.old) (M.kept machine.old).pool digest.now (M.kept machine.old).held (M.kept machine.new).held) }
    ensures stays { K.tables keeper.new ≡ K.tables keeper.old }
    ensures grows { K.faults keeper.old ≤ K.faults keeper.new }
    ensures failed { IsErrOf result LoadStop.Failed → Rose (K.faults keeper.old) (K.faults keeper.new) }
    ensures not_refused { IfErr result (λ stop. (part : StorePart) (at : ℕ) → stop ≢ LoadStop.Refused part at) }
{
    let bytes = bytes_at(keeper, digest)?;
    Ok(is_filled(machine, digest, &bytes))
}

/// The digest of the blob row at a place.
fn digest_at<M: Machine>(machine: &M, at: u32) -> Option<Digest>
    ensures { result ≡ option_map (λ row. row.digest) (slice_get (M.kept machine.now).pool.blobs at) }
{
    match machine.blob_at(at) {
        Some(row) => Some(row.digest),
        None => None,
    }
}

/// Fills the blob at a place of the rows, where there is one.
fn fill_next<M: Machine, K: Keeper>(
    machine: &mut M,
    keeper: &mut K,
    at: u32,
) -> Result<bool, LoadStop>
    requires { IsFilledTo (K.tables keeper.old) at (M.kept machine.old) }
    ensures keeps { KeepsLog (M.kept machine.old) (M.kept machine.new) }
    ensures more { IfOk result (λ more. more ≡ true → IsFilledTo (K.tables keeper.old) (at + 1) (M.kept machine.new)) }
    ensures over { IfOk result (λ more. more ≡ false → IsFilledTo (K.tables keeper.old) at (M.kept machine.new)) }
    ensures all { IfOk result (λ more. more ≡ false → length (M.kept machine.old).pool.blobs ≤ at) }
    ensures end { slice_get (M.kept machine.old).pool.blobs at ≡ None → result ≡ Ok false }
    ensures refused { IfErr result (λ stop. (part : StorePart) (place : ℕ) → stop ≡ LoadStop.Refused part place → (part ≡ StorePart.Lines) × (place ≡ length (M.kept machine.old).log) × IfSome (K.tables keeper.old) (λ t. LacksBlob t (M.kept machine.old).pool)) }
    ensures failed { IsErrOf result LoadStop.Failed → Rose (K.faults keeper.old) (K.faults keeper.new) }
    ensures stays { K.tables keeper.new ≡ K.tables keeper.old }
    ensures grows { K.faults keeper.old ≤ K.faults keeper.new }
{
    let Some(digest) = digest_at(machine, at) else {
        return Ok(false);
    };
    if !fill_one(machine, keeper, &digest)? {
        return Err(LoadStop::Refused {
            part: StorePart::Lines,
            at: line_count(machine),
        });
    }
    Ok(true)
}

/// Fills each blob of the machine from what is kept, up to the first whose bytes are missing or are
/// others.
pub(crate) fn fill_blobs<M: Machine, K: Keeper>(
    machine: &mut M,
    keeper: &mut K,
) -> Result<(), LoadStop>
    requires filled { IsFilledTo (K.tables keeper.old) 0 (M.kept machine.old) }
    requires few { length (M.kept machine.old).pool.blobs ≤ 262144 }
    ensures keeps { KeepsLog (M.kept machine.old) (M.kept machine.new) }
    ensures held { OnOk result (AreFilled (M.kept machine.new)) }
    ensures kept { OnOk result (IfSome (K.tables keeper.old) (HoldsKept (M.kept machine.new).held)) }
    ensures none { (M.kept machine.old).pool.blobs ≡ [] → result ≡ Ok tt }
    ensures refused { IfErr result (λ stop. (part : StorePart) (at : ℕ) → stop ≡ LoadStop.Refused part at → (part ≡ StorePart.Lines) × (at ≡ length (M.kept machine.old).log) × IfSome (K.tables keeper.old) (λ t. LacksBlob t (M.kept machine.old).pool)) }
    ensures failed { IsErrOf result LoadStop.Failed → Rose (K.faults keeper.old) (K.faults keeper.new) }
    ensures stays { K.tables keeper.new ≡ K.tables keeper.old }
    ensures grows { K.faults keeper.old ≤ K.faults keeper.new }
{
    for at in 0..MOST_BLOBS {
        if !fill_next(machine, keeper, at)? {
            return Ok(());
        }
    }
    Ok(())
}
