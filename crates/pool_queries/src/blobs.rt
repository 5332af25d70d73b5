//! Which blobs a pool holds.
ghost use Rattle.std.specs.Prelude.{◌≡◌, IfOk};
ghost use Rattle.swarm_model.specs.declared.rule.Rule.TheVariants as rule;
ghost use Rattle.swarm_model.specs.Finding.{blob_of, has_blob};
ghost use Rattle.swarm_model.specs.Answers.{or_refuse, show_blob, is_missing, find_missing};

use crate::PoolQueries;
use crate::replies::{refusal, reply_only};
use dimensions::Seq;
use std::alloc::{AllocError, Global};
use swarm_model::{Decision, Reply, Rule};
use task_props::Digest;

/// Whether a blob has this digest and size.
pub fn has_blob<P: PoolQueries>(pool: &P, digest: &Digest, size: u32) -> bool
    ensures { result ≡ has_blob (P.state pool.now) digest.now size }
{
    match pool.blob_of(digest) {
        None => false,
        Some(blob) => blob.size == size,
    }
}

/// What a caller is told who asks for the bytes of a blob.
pub fn get_blob<P: PoolQueries>(pool: &P, digest: &Digest) -> Decision
    ensures { result ≡ or_refuse (blob_of (P.state pool.now) digest.now) (rule.BlobMissing digest.now) show_blob }
{
    match pool.blob_of(digest) {
        None => refusal(Rule::BlobMissing { digest: *digest }),
        Some(blob) => reply_only(Reply::Blob {
            digest: blob.digest,
            size: blob.size,
        }),
    }
}

fn is_missing<P: PoolQueries>(pool: &P, blob: &(Digest, u32)) -> bool
    ensures { result ≡ is_missing (P.state pool.now) blob.now }
{
    !has_blob(pool, &blob.0, blob.1)
}

/// What a caller is told who asks which of these blobs, by digest and size, are not held.
pub fn find_missing<P: PoolQueries>(
    alloc: Global,
    pool: &P,
    blobs: &[(Digest, u32)],
) -> Result<Decision, AllocError>
    ensures { IfOk result (λ decision. decision ≡ find_missing (P.state pool.now) blobs.now) }
{
    let mut missing = Vec::new(alloc);
    for blob in blobs {
        if is_missing(pool, blob) {
            missing.push(*blob)?;
        }
    }
    Ok(reply_only(Reply::Missing {
        blobs: Seq::from_vec(missing),
    }))
}
