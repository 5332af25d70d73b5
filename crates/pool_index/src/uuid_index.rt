ghost use Rattle.std.specs.Prelude.{◌≡◌, [], None, Some, IfSome, OnOk, OnErr, MatchOption};
ghost use Rattle.pool_index.specs.Uuids.{links_with, key_of, HasNone, HasUuid};

use crate::link_index::LinkIndex;
use crate::sorted_links::{Keyed, Probe};
use crate::uuid_link::UuidLink;
use dimensions::{Text, TryCopy};
use std::alloc::{AllocError, Global};
use std::cmp::Ordering;
use std::marker::Model;

/// What uuids are searched by.
#[derive(Drop)]
struct UuidKey<'a> {
    creator: &'a Text,
    uuid: &'a Text,
}

impl<'a> Keyed for UuidKey<'a> {
    ghost key = { λ sought. (sought.creator.now, sought.uuid.now) };
}

impl<'a> Probe<UuidLink> for UuidKey<'a> {
    fn compare(&self, link: &UuidLink) -> Ordering {
        link.creator
            .cmp(self.creator)
            .then(link.uuid.cmp(self.uuid))
    }
}

impl Keyed for UuidLink {
    ghost use Rattle.pool_index.specs.Uuids.{key_of};

    ghost key = { key_of };
}

impl Probe<UuidLink> for UuidLink {
    fn compare(&self, link: &UuidLink) -> Ordering {
        link.creator
            .cmp(&self.creator)
            .then(link.uuid.cmp(&self.uuid))
    }
}

/// The task that each creator sent under each uuid. Links stand in the order in which they came,
/// and their places are sorted by the bytes of the creator and then of the uuid.
///
/// A look-up costs a comparison of two keys for each halving of the places, and one more: about 21
/// for 262,144 links, whatever uuids callers choose. An addition costs as many, less one. It moves
/// at most the 128 places of one block, 4 bytes for each, and where a block comes 24 bytes for each
/// block behind it.
#[derive(Drop)]
pub struct UuidIndex {
    alloc: Global,
    inner: LinkIndex<UuidLink>,
}

impl Model for UuidIndex {
    ghost use Rattle.pool_index.specs.Uuids.{UuidIndexState};

    ghost Value = { UuidIndexState };

    ghost view = { λ index. index.inner };
}

impl UuidIndex {
    /// No uuid. It takes no memory.
    pub fn new(alloc: Global) -> UuidIndex
        ensures { result ≡ record { links = []; ready = None } }
    {
        UuidIndex {
            alloc,
            inner: LinkIndex::new(alloc),
        }
    }

    /// The task that the creator sent under the uuid.
    pub fn find(&self, creator: &Text, uuid: &Text) -> Option<u32>
        ensures { MatchOption result (HasNone self.now.links (creator.now, uuid.now)) (HasUuid self.now.links (creator.now, uuid.now)) }
    {
        match self.inner.find(&UuidKey { creator, uuid }) {
            Some(link) => Some(link.task),
            None => None,
        }
    }

    /// Makes ready that the creator sends the task under the uuid. What was ready before is
    /// dropped, also where memory is wanted.
    pub fn reserve(&mut self, creator: &Text, uuid: &Text, task: u32) -> Result<(), AllocError>
        ensures ok { OnOk result (self.new ≡ record self.old { ready = Some (record { creator = creator.now; uuid = uuid.now; task = task }) }) }
        ensures err { OnErr result (self.new ≡ record self.old { ready = None }) }
    {
        self.inner.release();
        let creator = creator.try_copy(self.alloc)?;
        let uuid = uuid.try_copy(self.alloc)?;
        self.inner.prepare(UuidLink {
            creator,
            uuid,
            task,
        })
    }

    /// Drops what is ready.
    pub fn release(&mut self)
        ensures { self.new ≡ record self.old { ready = None } }
    {
        self.inner.release();
    }

    /// Adds the link that is ready, if there is one. It takes no memory.
    pub fn add(&mut self)
        requires { IfSome self.old.ready (λ link. HasNone self.old.links (key_of link)) }
        ensures { self.new ≡ record { links = links_with self.old.ready self.old.links; ready = None } }
    {
        self.inner.add();
    }
}
