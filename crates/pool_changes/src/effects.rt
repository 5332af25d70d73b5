//! What an entry does to the blobs of a pool.
ghost use Rattle.std.specs.Prelude.{◌≡◌};
ghost use Rattle.pool_changes.specs.Blobs.{put_of, end_of, effect_of};

use swarm_model::{Chunk, EntryKind};
use task_props::Digest;

/// What an entry does to the blobs.
#[derive(Clone, Copy)]
pub enum BlobEffect {
    Put { digest: Digest, size: u32 },
    /// The blob of a number is kept for another life.
    KeepLonger(u32),
    Remove(u32),
    Nothing,
}

fn put_of(chunk: Option<Chunk>) -> BlobEffect
    ensures { result ≡ put_of chunk }
{
    match chunk {
        None => BlobEffect::Nothing,
        Some(chunk) => {
            let Chunk { digest, size, .. } = chunk;
            BlobEffect::Put { digest, size }
        }
    }
}

fn end_of(number: u32, kept: bool) -> BlobEffect
    ensures { result ≡ end_of number kept }
{
    if kept {
        BlobEffect::KeepLonger(number)
    } else {
        BlobEffect::Remove(number)
    }
}

/// What an entry of this kind does to the blobs. `fresh` is its chunk, where that goes on from the
/// output that is kept.
pub fn blob_effect(kind: &EntryKind, fresh: Option<Chunk>) -> BlobEffect
    ensures { result ≡ effect_of fresh kind.now }
{
    match kind {
        EntryKind::Blob { n, kept } => end_of(*n, *kept),
        EntryKind::Update { .. } => put_of(fresh),
        EntryKind::Put { digest, size } => BlobEffect::Put {
            digest: *digest,
            size: *size,
        },
        _ => BlobEffect::Nothing,
    }
}
