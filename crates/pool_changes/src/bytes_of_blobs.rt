//! The bytes of the blobs of a pool, which are brought and lent.
ghost use Rattle.std.specs.Prelude.{◌≡◌, length, IsTrue, IfSome, option_map};
ghost use Rattle.sha2.specs.Sha256.{sha256};
ghost use Rattle.content_store.specs.Plain.{held_after_fill};
ghost use Rattle.swarm_model.specs.declared.pool_state.PoolState.{PoolState};
ghost use Rattle.swarm_model.specs.Bytes.{filled, held_after_fill as bytes_after_fill};
ghost use Rattle.swarm_model.specs.Finding.{has_blob};
ghost use Rattle.pool_changes.specs.Blobs.{held_in};

use blob_rows::Filled;
use content_store::Blobs;
use task_props::Digest;

/// Brings the bytes of a blob. They are held where a row has their digest and their size.
pub fn bring_bytes(blobs: &mut Blobs, digest: &Digest, bytes: &[u8]) -> Filled
    ensures told { (s : PoolState) → s.blobs ≡ blobs.old.rows → result ≡ filled s digest.now bytes.now }
    ensures holds { blobs.new ≡ record blobs.old {
      store = record blobs.old.store { held = held_after_fill result digest.now bytes.now blobs.old.store.held };
    } }
    ensures held { held_in blobs.new ≡ bytes_after_fill result digest.now bytes.now (held_in blobs.old) }
{
    // For the proof: the rows are tied to the store.
    let _count = blobs.count();
    blobs.fill(digest, bytes)
}

/// The bytes that are held under the digest.
pub fn lend_bytes<'a>(blobs: &'a Blobs, digest: &Digest) -> Option<&'a [u8]>
    ensures held { option_map (λ b. b.now) result ≡ held_in blobs.now digest.now }
    ensures named { IfSome result (λ b. sha256 b.now ≡ digest.now) }
    ensures sized { (s : PoolState) → s.blobs ≡ blobs.now.rows → IfSome result (λ b. IsTrue (has_blob s digest.now (length b.now))) }
{
    // For the proof: the rows are tied to the store.
    let _count = blobs.count();
    blobs.bytes(digest)
}
