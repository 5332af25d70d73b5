ghost use Rattle.std.specs.Prelude.{◌≡◌, [], None, Some, IfSome, OnOk, OnErr, MatchOption};
ghost use Rattle.pool_index.specs.Claims.{links_with, key_of, HasNone, HasClaim};

use crate::claim_link::ClaimLink;
use crate::link_index::LinkIndex;
use crate::sorted_links::{Keyed, Probe};
use dimensions::{Text, TryCopy};
use std::alloc::{AllocError, Global};
use std::cmp::Ordering;
use std::marker::Model;

/// What claims are searched by.
#[derive(Drop)]
struct ClaimKey<'a> {
    bot: u32,
    claim: &'a Text,
}

impl<'a> Keyed for ClaimKey<'a> {
    ghost use Rattle.pool_index.specs.Claims.{sort_key};

    ghost key = { λ sought. sort_key (sought.bot, sought.claim.now) };
}

impl Keyed for ClaimLink {
    ghost use Rattle.pool_index.specs.Claims.{sort_key, key_of};

    ghost key = { λ link. sort_key (key_of link) };
}

impl<'a> Probe<ClaimLink> for ClaimKey<'a> {
    fn compare(&self, link: &ClaimLink) -> Ordering {
        link.bot.cmp(&self.bot).then(link.claim.cmp(self.claim))
    }
}

impl Probe<ClaimLink> for ClaimLink {
    fn compare(&self, link: &ClaimLink) -> Ordering {
        link.bot.cmp(&self.bot).then(link.claim.cmp(&self.claim))
    }
}

/// The task that each bot claimed under each id. Links stand in the order in which they came, and
/// their places are sorted by bot and then by the bytes of the id.
///
/// A look-up costs a comparison of two keys for each halving of the places, and one more: about 21
/// for 262,144 links, whatever ids callers choose. An addition costs as many, less one. It moves at
/// most the 128 places of one block, 4 bytes for each, and where a block comes 24 bytes for each
/// block behind it.
#[derive(Drop)]
pub struct ClaimIndex {
    alloc: Global,
    inner: LinkIndex<ClaimLink>,
}

impl Model for ClaimIndex {
    ghost use Rattle.pool_index.specs.Claims.{ClaimIndexState};

    ghost Value = { ClaimIndexState };

    ghost view = { λ index. index.inner };
}

impl ClaimIndex {
    /// No claim. It takes no memory.
    pub fn new(alloc: Global) -> ClaimIndex
        ensures { result ≡ record { links = []; ready = None } }
    {
        ClaimIndex {
            alloc,
            inner: LinkIndex::new(alloc),
        }
    }

    /// The task that the bot claimed under the id.
    pub fn find(&self, bot: u32, claim: &Text) -> Option<u32>
        ensures { MatchOption result (HasNone self.now.links (bot, claim.now)) (HasClaim self.now.links (bot, claim.now)) }
    {
        match self.inner.find(&ClaimKey { bot, claim }) {
            Some(link) => Some(link.task),
            None => None,
        }
    }

    /// Makes ready that the bot claims the task under the id. What was ready before is dropped, also
    /// where memory is wanted.
    pub fn reserve(&mut self, bot: u32, claim: &Text, task: u32) -> Result<(), AllocError>
        ensures ok { OnOk result (self.new ≡ record self.old { ready = Some (record { bot = bot; claim = claim.now; task = task }) }) }
        ensures err { OnErr result (self.new ≡ record self.old { ready = None }) }
    {
        self.inner.release();
        let claim = claim.try_copy(self.alloc)?;
        self.inner.prepare(ClaimLink { bot, claim, task })
    }

    /// Drops what is ready.
    pub fn release(&mut self)
        ensures { self.new ≡ record self.old { ready = None } }
    {
        self.inner.release();
    }

    /// Adds the link that is ready, if there is one. It takes no memory.
    pub fn add(&mut self)
        requires { IfSome self.old.ready (λ link. HasNone self.old.links (key_of link)) }
        ensures { self.new ≡ record { links = links_with self.old.ready self.old.links; ready = None } }
    {
        self.inner.add();
    }
}
