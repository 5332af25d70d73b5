ghost use Rattle.std.specs.Prelude.{◌≡◌, ◌+◌, ◌-◌, ◌^◌, ◌<◌, [], OnOk, All};
ghost use Rattle.pool_index.specs.SortedLinks.{HasNoKey, digest_key};
ghost use Rattle.pool_index.specs.Uses.{key_of, uses_of, IsListed, SameUses, HasUses, StaysListed};

use crate::digest_key::DigestKey;
use crate::link_index::LinkIndex;
use crate::sorted_links::{Keyed, Probe};
use crate::use_link::UseLink;
use std::alloc::{AllocError, Global};
use std::cmp::Ordering;
use std::marker::Model;
use task_props::Digest;

impl Keyed for UseLink {
    ghost use Rattle.pool_index.specs.Uses.{key_of};

    ghost key = { key_of };
}

impl<'a> Probe<UseLink> for DigestKey<'a> {
    fn compare(&self, link: &UseLink) -> Ordering {
        link.digest.cmp(self.digest)
    }
}

impl Probe<UseLink> for UseLink {
    fn compare(&self, link: &UseLink) -> Ordering {
        link.digest.cmp(&self.digest)
    }
}

/// How many uses of each digest are counted. A digest that was listed once stays listed, also where
/// it has no use any more. Links stand in the order in which their digests came, and their places
/// are sorted by the bytes of the digest.
///
/// A look-up costs a comparison of two digests for each halving of the places, and one more: about
/// 21 for 262,144 links. A change of a count costs two look-ups and moves nothing. To list a new
/// digest costs two look-ups, and moves at most the 128 places of one block, 4 bytes for each, and
/// where a block comes 24 bytes for each block behind it.
#[derive(Drop)]
pub struct UseCounts {
    inner: LinkIndex<UseLink>,
}

impl Model for UseCounts {
    ghost use Rattle.std.specs.Prelude.{List};
    ghost use Rattle.pool_index.specs.declared.use_link.UseLink.{UseLink};

    ghost Value = { List UseLink };

    ghost view = { λ counts. counts.inner.links };
}

impl UseCounts {
    /// No use of any digest. It takes no memory.
    pub fn new(alloc: Global) -> UseCounts
        ensures { result ≡ [] }
    {
        UseCounts {
            inner: LinkIndex::new(alloc),
        }
    }

    /// How many uses of the digest are counted.
    pub fn count(&self, digest: &Digest) -> u32
        ensures { result ≡ uses_of self.now digest.now }
    {
        match self.inner.find(&DigestKey { digest }) {
            Some(link) => link.uses,
            None => 0,
        }
    }

    /// Lists a digest that isn't listed yet, without a use.
    fn list_new(&mut self, digest: &Digest) -> Result<(), AllocError>
        requires { HasNoKey key_of self.old (digest_key digest.now) }
        ensures same { SameUses self.old self.new }
        ensures kept { StaysListed self.old self.new }
        ensures ok { OnOk result (IsListed self.new digest.now) }
    {
        self.inner.prepare(UseLink {
            digest: *digest,
            uses: 0,
        })?;
        self.inner.add();
        Ok(())
    }

    /// Lists the digest, where it isn't listed yet.
    fn list(&mut self, digest: &Digest) -> Result<(), AllocError>
        ensures same { SameUses self.old self.new }
        ensures kept { StaysListed self.old self.new }
        ensures ok { OnOk result (IsListed self.new digest.now) }
    {
        match self.inner.find(&DigestKey { digest }) {
            Some(_) => Ok(()),
            None => self.list_new(digest),
        }
    }

    /// Lists digests, so that their uses can be counted without memory. The counts stay, also where
    /// memory is wanted.
    pub fn reserve(&mut self, digests: &[Digest]) -> Result<(), AllocError>
        ensures same { SameUses self.old self.new }
        ensures kept { StaysListed self.old self.new }
        ensures ok { OnOk result (All (IsListed self.new) digests.now) }
    {
        for digest in digests {
            self.list(digest)?;
        }
        Ok(())
    }

    /// Counts one use more of a digest that is listed. It takes no memory.
    pub fn add(&mut self, digest: &Digest)
        requires listed { IsListed self.old digest.now }
        requires small { uses_of self.old digest.now + 1 < 2 ^ 32 }
        ensures counts { HasUses digest.now (uses_of self.old digest.now + 1) self.old self.new }
        ensures kept { StaysListed self.old self.new }
    {
        let uses = self.count(digest);
        self.inner.replace(UseLink {
            digest: *digest,
            uses: uses + 1,
        });
    }

    /// Counts one use less of a digest that has one. It takes no memory.
    pub fn remove(&mut self, digest: &Digest)
        requires used { 0 < uses_of self.old digest.now }
        ensures counts { HasUses digest.now (uses_of self.old digest.now - 1) self.old self.new }
        ensures kept { StaysListed self.old self.new }
    {
        let uses = self.count(digest);
        self.inner.replace(UseLink {
            digest: *digest,
            uses: uses - 1,
        });
    }
}
