ghost use Rattle.std.specs.Prelude.{◌≡◌, [], None, Some, IsSome, IfSome, OnOk, OnErr, MatchOption};
ghost use Rattle.std.specs.Option.{option_copied};
ghost use Rattle.pool_index.specs.SortedLinks.{HasNoKey, HasKey, Sets, link_of};
ghost use Rattle.pool_index.specs.Links.{links_with, IsMerged};

use crate::sorted_links::{Keyed, MergeLink, Probe, add, find, merge, replace};
use block_list::BlockList;
use std::alloc::{AllocError, Global};
use std::marker::Model;
use std::mem;

/// Links that are found by their keys, and one that is made ready to be added. It is what the public
/// indexes share: each of them says what its keys are.
#[derive(Drop)]
pub(crate) struct LinkIndex<L: Keyed> {
    links: Vec<L>,
    /// The places of all links, sorted by the keys.
    order: BlockList<u32>,
    ready: Option<L>,
}

impl<L: Keyed> Model for LinkIndex<L> {
    ghost use Rattle.pool_index.specs.Links.{LinksState};

    ghost Value = { LinksState L };

    ghost use Rattle.pool_index.specs.LinkInside.{state_of, IsLinkIndex};

    ghost view = { state_of };

    ghost invariant = { IsLinkIndex L.key };
}

impl<L: Probe<L> + Drop> LinkIndex<L> {
    pub(crate) fn new(alloc: Global) -> LinkIndex<L>
        ensures { result ≡ record { links = []; ready = None } }
    {
        LinkIndex {
            links: Vec::new(alloc),
            order: BlockList::new(alloc),
            ready: None,
        }
    }

    /// The link that has the probe's key.
    pub(crate) fn find<P: Probe<L>>(&self, probe: &P) -> Option<&L>
        ensures found { MatchOption (option_copied result) (HasNoKey L.key self.now.links (P.key probe.now)) (HasKey L.key self.now.links (P.key probe.now)) }
        ensures value { option_copied result ≡ link_of L.key self.now.links (P.key probe.now) }
    {
        match find(&self.links, &self.order, probe) {
            Some(place) => Some(&self.links[place]),
            None => None,
        }
    }

    /// Makes room for a link, and keeps it ready.
    pub(crate) fn prepare(&mut self, link: L) -> Result<(), AllocError>
        ensures ok { OnOk result (self.new ≡ record self.old { ready = Some link }) }
        ensures err { OnErr result (self.new ≡ record self.old { ready = None }) }
    {
        drop(self.ready.take());
        // A place is kept as a u32.
        if self.links.len() > u32::MAX as usize {
            return Err(AllocError);
        }
        self.links.reserve(1)?;
        self.order.reserve()?;
        drop(mem::replace(&mut self.ready, Some(link)));
        Ok(())
    }

    /// Drops the link that is ready.
    pub(crate) fn release(&mut self)
        ensures { self.new ≡ record self.old { ready = None } }
    {
        drop(self.ready.take());
    }

    /// Adds the link that is ready, if there is one.
    pub(crate) fn add(&mut self)
        requires { IfSome self.old.ready (λ link. HasNoKey L.key self.old.links (L.key link)) }
        ensures { self.new ≡ record { links = links_with self.old.ready self.old.links; ready = None } }
    {
        match self.ready.take() {
            None => {}
            Some(link) => add(&mut self.links, &mut self.order, link),
        }
    }

    /// Puts a link in the place of the one that has its key. It takes no memory.
    pub(crate) fn replace(&mut self, link: L)
        requires { IsSome (link_of L.key self.old.links (L.key link)) }
        ensures ready { self.new.ready ≡ self.old.ready }
        ensures links { Sets L.key (L.key link) link self.old.links self.new.links }
    {
        replace(self.links.as_mut_slice(), &self.order, link);
    }
}

impl<L: MergeLink> LinkIndex<L> {
    /// Lets the link that has the key of the ready one take that one in, or adds the ready one where
    /// no link has its key.
    pub(crate) fn merge(&mut self)
        ensures ready { self.new.ready ≡ None }
        ensures links { IsMerged L.key L.merged self.old.ready self.old.links self.new.links }
    {
        match self.ready.take() {
            None => {}
            Some(link) => merge(&mut self.links, &mut self.order, link),
        }
    }
}
