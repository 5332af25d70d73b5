//! The blobs of a base, which come back one after the other.
ghost use Rattle.std.specs.Prelude.{◌≡◌, ◌+◌, ◌<◌, ◌^◌, ◌++◌, ◌∷◌, [], length, IfOk};
ghost use Rattle.swarm_model.specs.BaseRules.{IsBase};
ghost use Rattle.swarm_model.specs.Bytes.{nothing_held};
ghost use Rattle.pool_changes.specs.Blobs.{held_in, IsOfPool};
ghost use Rattle.pool_changes.specs.Loads.{IsNextBlob, AreLoaded};

use content_store::Blobs;
use std::alloc::{AllocError, Global};
use swarm_model::{BlobRow, PoolState};

/// The most blobs of a pool.
const MOST_BLOBS: u32 = 262144;

/// Adds the row of a blob, with its number and at its place. Its bytes are not held.
fn load(blobs: &mut Blobs, row: &BlobRow)
    requires { IsNextBlob blobs.old row.now }
    ensures rows { blobs.new.rows ≡ blobs.old.rows ++ row.now ∷ [] }
    ensures placed { blobs.new.placed ≡ row.now.no }
    ensures held { held_in blobs.new ≡ held_in blobs.old }
    ensures units { blobs.new.store.units ≡ blobs.old.store.units }
    ensures names { blobs.new.store.names ≡ blobs.old.store.names }
{
    // For the proof: the rows are tied to the store.
    let _count = blobs.count();
    blobs.raise_placed(row.no - 1);
    blobs.put_at(row.deadline, &row.digest, row.size, row.extent.at);
}

/// Adds the row at a place of a base, behind those before it.
fn load_at(blobs: &mut Blobs, base: &PoolState, place: usize)
    requires base { IsBase base.now.settings (2 ^ 31) base.now }
    requires low { place < length base.now.blobs }
    requires before { AreLoaded base.now place blobs.old }
    ensures { AreLoaded base.now (place + 1) blobs.new }
{
    let row = &base.blobs.as_slice()[place];
    load(blobs, row);
}

/// The blobs of a base, each with its number and at its place. No bytes are held: [`bring_bytes`]
/// brings them.
///
/// # Errors
///
/// There is no memory for so many rows, names and units.
///
/// [`bring_bytes`]: crate::bring_bytes
pub fn load_blobs(alloc: Global, base: &PoolState) -> Result<Blobs, AllocError>
    requires { IsBase base.now.settings (2 ^ 31) base.now }
    ensures rows { IfOk result (λ blobs. blobs.rows ≡ base.now.blobs) }
    ensures placed { IfOk result (λ blobs. blobs.placed ≡ base.now.placed) }
    ensures of_pool { IfOk result (λ blobs. IsOfPool base.now.settings blobs) }
    ensures held { IfOk result (λ blobs. held_in blobs ≡ nothing_held) }
{
    let mut blobs = Blobs::new(alloc, base.settings.store_units, MOST_BLOBS)?;
    for place in 0..base.blobs.as_slice().len() {
        load_at(&mut blobs, base, place);
    }
    blobs.raise_placed(base.placed);
    Ok(blobs)
}
