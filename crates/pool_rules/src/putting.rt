//! What becomes of a content that is put.
ghost use Rattle.std.specs.Prelude.{◌≡◌};
ghost use Rattle.swarm_model.specs.Blobs.{is_taken, can_take};
ghost use Rattle.swarm_model.specs.Answers.{store_full, put_blob};

use blob_rows::Held;
use pool_queries::{PoolQueries, refusal, reply_with_entry};
use swarm_model::{Decision, EntryKind, Reply, Rule};
use task_props::Digest;

fn is_taken(held: Held) -> bool
    ensures { result ≡ is_taken held }
{
    match held {
        Held::Placed(_) | Held::Present => true,
        Held::NoNames | Held::NoRoom => false,
    }
}

/// Whether the blob is present, or has a place.
pub(crate) fn can_take<P: PoolQueries>(pool: &P, digest: &Digest, size: u32) -> bool
    ensures { result ≡ can_take (P.state pool.now) digest.now size }
{
    is_taken(pool.probe(digest, size))
}

/// The refusal of a content that has no place.
pub(crate) fn store_full<P: PoolQueries>(pool: &P, size: u32) -> Decision
    ensures { result ≡ store_full (P.state pool.now) size }
{
    pool.sound();
    let names = pool.blob_count() as u32;
    refusal(Rule::StoreFull { names, size })
}

/// What a caller is told who puts a content of this digest under a name.
pub(crate) fn put_blob<P: PoolQueries>(
    pool: &P,
    named: &Digest,
    actual: &Digest,
    size: u32,
) -> Decision
    ensures { result ≡ put_blob (P.state pool.now) named.now actual.now size }
{
    if *actual != *named {
        return refusal(Rule::DigestDiffers { actual: *actual });
    }
    if !can_take(pool, named, size) {
        return store_full(pool, size);
    }
    let fresh = pool.blob_of(named).is_none();
    let digest = *named;
    reply_with_entry(Reply::Put { fresh }, EntryKind::Put { digest, size })
}
