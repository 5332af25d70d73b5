ghost use Rattle.std.specs.Prelude.{◌≡◌, IfOk};
ghost use Rattle.std.specs.List.Sorted.{IsSorted};
ghost use Rattle.blob_rows.specs.Digests.{digest_cmp};
ghost use Rattle.base_checks.specs.Needs.{is_held, AreDigestsOf};

use crate::keys::digests;
use blob_rows::{BlobRow, Digest};
use std::alloc::{AllocError, Global};
use std::marker::Model;

/// The digests of some blobs, among which one is found by a few comparisons. Contracts see a list.
#[derive(Drop)]
pub(crate) struct DigestSet {
    sorted: Vec<Digest>,
}

impl Model for DigestSet {
    ghost use Rattle.std.specs.Prelude.{ℕ, List};
    ghost use Rattle.std.specs.List.Sorted.{IsSorted};
    ghost use Rattle.blob_rows.specs.Digests.{digest_cmp};

    ghost Value = { List (List ℕ) };

    ghost view = { λ s. s.sorted.items };

    ghost invariant = { λ s. IsSorted digest_cmp s.sorted.items };
}

/// Whether a digest is one of those that stand sorted.
fn is_among(sorted: &[Digest], digest: &Digest) -> bool
    requires { IsSorted digest_cmp sorted.now }
    ensures { result ≡ is_held sorted.now digest.now }
{
    sorted.binary_search(digest).is_ok()
}

impl DigestSet {
    pub(crate) fn of_blobs(alloc: Global, blobs: &[BlobRow]) -> Result<DigestSet, AllocError>
        ensures { IfOk result (AreDigestsOf blobs.now) }
    {
        let mut sorted = digests(alloc, blobs)?;
        sorted.sort_unstable();
        Ok(DigestSet { sorted })
    }

    pub(crate) fn has(&self, digest: &Digest) -> bool
        ensures { result ≡ is_held self.now digest.now }
    {
        is_among(self.sorted.as_slice(), digest)
    }
}
