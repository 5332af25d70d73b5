//! The blobs of a pool, changed as an entry does.
ghost use Rattle.std.specs.Prelude.{◌≡◌, ◌+◌, ◌<◌, ◌≤◌, ◌^◌, IfSome, IsTrue, is_none};
ghost use Rattle.std.specs.Option.{option_map};
ghost use Rattle.sha2.specs.Sha256.{sha256};
ghost use Rattle.dimensions.specs.Choosing.{when};
ghost use Rattle.blob_rows.specs.BlobRows.{blob_of, put, put_result};
ghost use Rattle.content_store.specs.StoredRows.{rows_in};
ghost use Rattle.swarm_model.specs.Blobs.{is_taken};
ghost use Rattle.swarm_model.specs.Bytes.{with_new};
ghost use Rattle.pool_changes.specs.Blobs.{held_in, with_filled, AreBytesOf, CanChange, rows_with, held_with};

use crate::BlobEffect;
use content_store::Blobs;
use task_props::Digest;

fn fill_if_some(blobs: &mut Blobs, digest: &Digest, bytes: Option<&[u8]>)
    requires { IfSome bytes (λ b. sha256 b.now ≡ digest.now) }
    ensures { blobs.new ≡ with_filled digest.now (option_map (λ b. b.now) bytes.entry) blobs.old }
{
    if let Some(bytes) = bytes {
        blobs.fill_known(digest, bytes);
    }
}

/// Puts a blob, whose bytes are held from now on where it was not present.
fn put(blobs: &mut Blobs, deadline: u64, digest: &Digest, size: u32, bytes: Option<&[u8]>)
    requires taken { IsTrue (is_taken (put_result blobs.old.store.names (rows_in blobs.old) digest.now size)) }
    requires number { blobs.old.placed + 1 < 2 ^ 32 }
    requires bytes { AreBytesOf digest.now size (option_map (λ b. b.now) bytes) }
    ensures rows { rows_in blobs.new ≡ put (rows_in blobs.old) deadline digest.now size }
    ensures held { held_in blobs.new ≡ with_new (when (is_none (blob_of blobs.old.rows digest.now)) digest.now) (option_map (λ b. b.now) bytes.entry) (held_in blobs.old) }
    ensures units { blobs.new.store.units ≡ blobs.old.store.units }
    ensures names { blobs.new.store.names ≡ blobs.old.store.names }
{
    // For the proof: the rows are tied to the store.
    let _count = blobs.count();
    let is_new = blobs.blob_of(digest).is_none();
    blobs.put(deadline, digest, size);
    if is_new {
        fill_if_some(blobs, digest, bytes);
    }
}

/// Changes the blobs of a pool in which they live for so many seconds. Bytes come with a put alone.
pub fn change_blobs(
    blobs: &mut Blobs,
    life: u64,
    moment: u64,
    effect: BlobEffect,
    bytes: Option<&[u8]>,
)
    requires may { CanChange life effect blobs.old (option_map (λ b. b.now) bytes) }
    requires number { blobs.old.placed + 1 < 2 ^ 32 }
    requires early { moment ≤ 2 ^ 40 }
    requires short { life ≤ 2 ^ 32 }
    ensures rows { rows_in blobs.new ≡ rows_with life moment effect (rows_in blobs.old) }
    ensures held { held_in blobs.new ≡ held_with effect blobs.old.rows (option_map (λ b. b.now) bytes.entry) (held_in blobs.old) }
    ensures units { blobs.new.store.units ≡ blobs.old.store.units }
    ensures names { blobs.new.store.names ≡ blobs.old.store.names }
{
    match effect {
        BlobEffect::Put { digest, size } => put(blobs, moment + life, &digest, size, bytes),
        BlobEffect::KeepLonger(number) => blobs.keep_longer(life, number),
        BlobEffect::Remove(number) => blobs.remove(number),
        BlobEffect::Nothing => {}
    }
}
