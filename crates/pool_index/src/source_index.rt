ghost use Rattle.std.specs.Prelude.{◌≡◌, [], None, Some, OnOk, OnErr};
ghost use Rattle.pool_index.specs.Sources.{newest_in, AreWith};

use crate::digest_key::DigestKey;
use crate::link_index::LinkIndex;
use crate::sorted_links::{Keyed, MergeLink, Probe};
use crate::source_link::SourceLink;
use std::alloc::{AllocError, Global};
use std::cmp::Ordering;
use std::marker::Model;
use task_props::Digest;

impl Keyed for SourceLink {
    ghost use Rattle.pool_index.specs.Sources.{key_of};

    ghost key = { key_of };
}

impl<'a> Probe<SourceLink> for DigestKey<'a> {
    fn compare(&self, link: &SourceLink) -> Ordering {
        link.hash.cmp(self.digest)
    }
}

impl Probe<SourceLink> for SourceLink {
    fn compare(&self, link: &SourceLink) -> Ordering {
        link.hash.cmp(&self.hash)
    }
}

impl MergeLink for SourceLink {
    ghost use Rattle.std.specs.Prelude.{refl};
    ghost use Rattle.pool_index.specs.Sources.{newer};

    ghost merged = { newer };

    fn merge(&mut self, other: SourceLink) {
        if self.task < other.task {
            self.task = other.task;
        }
    }

    ghost keeps_key = { λ link other. refl };
}

/// For each hash the greatest number of a task that was noted under it. Links stand in the order in
/// which their hashes came, and their places are sorted by the bytes of the hash.
///
/// A look-up costs a comparison of two hashes for each halving of the places, and one more: about 21
/// for 262,144 links. Noting a task costs a look-up. For a new hash it costs two, and moves at most
/// the 128 places of one block, 4 bytes for each, and where a block comes 24 bytes for each block
/// behind it.
#[derive(Drop)]
pub struct SourceIndex {
    inner: LinkIndex<SourceLink>,
}

impl Model for SourceIndex {
    ghost use Rattle.pool_index.specs.Sources.{SourceIndexState};

    ghost Value = { SourceIndexState };

    ghost view = { λ index. index.inner };
}

impl SourceIndex {
    /// No source. It takes no memory.
    pub fn new(alloc: Global) -> SourceIndex
        ensures { result ≡ record { links = []; ready = None } }
    {
        SourceIndex {
            inner: LinkIndex::new(alloc),
        }
    }

    /// The greatest number of a task that was noted under the hash.
    pub fn newest(&self, hash: &Digest) -> Option<u32>
        ensures { result ≡ newest_in self.now.links hash.now }
    {
        match self.inner.find(&DigestKey { digest: hash }) {
            Some(link) => Some(link.task),
            None => None,
        }
    }

    /// Makes ready that the task is noted under the hash. What was ready before is dropped, also
    /// where memory is wanted.
    pub fn reserve(&mut self, hash: &Digest, task: u32) -> Result<(), AllocError>
        ensures ok { OnOk result (self.new ≡ record self.old { ready = Some (record { hash = hash.now; task = task }) }) }
        ensures err { OnErr result (self.new ≡ record self.old { ready = None }) }
    {
        self.inner.prepare(SourceLink { hash: *hash, task })
    }

    /// Drops what is ready.
    pub fn release(&mut self)
        ensures { self.new ≡ record self.old { ready = None } }
    {
        self.inner.release();
    }

    /// Notes the task that is ready, if there is one. It takes no memory.
    pub fn add(&mut self)
        ensures ready { self.new.ready ≡ None }
        ensures links { AreWith self.old.ready self.old.links self.new.links }
    {
        self.inner.merge();
    }
}
