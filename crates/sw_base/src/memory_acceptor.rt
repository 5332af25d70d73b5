ghost use Rattle.std.specs.Prelude.{◌≡◌, ◌≤◌, ◌+◌, ◌-◌, All, map, length, Some};
ghost use Rattle.std.specs.Vec.{vec_capacity};
ghost use Rattle.sw_base.specs.Acceptors.{IsFresh};

use crate::failing::is_failing;
use crate::{Acceptor, Failed, Link, MemoryLink};
use std::alloc::{AllocError, Global};
use std::collections::VecDeque;

/// An acceptor in memory, which tells all. Accepts can be made to fail.
#[derive(Drop)]
pub struct MemoryAcceptor {
    coming: VecDeque<MemoryLink>,
    served: Vec<MemoryLink>,
    // How many links were ever to come. There is room for all of them among those that ended.
    total: usize,
    calls: u64,
    fails: Vec<u64>,
    faults: u64,
    ghost room: { total ≤ vec_capacity served },
    ghost within: { length served.items + length coming.items ≤ total },
    ghost fresh: { All (λ link. IsFresh (⟦<MemoryLink as Link>⟧.state link)) coming.items },
}

impl MemoryAcceptor {
    ghost use Rattle.std.specs.Prelude.{[], ◌∷◌, ◌++◌, ◌≡◌, OnOk, OnErr, Some};
    ghost use Rattle.sw_base.specs.Link.{opened};
    ghost use Rattle.sw_base.specs.Acceptors.{AcceptorState, untouched, with_coming};

    /// An acceptor to which no link comes. The accepts that fail are those whose number stands in
    /// `fails`, counted from 0.
    pub fn new(alloc: Global, fails: Vec<u64>) -> MemoryAcceptor
        ensures untouched { ⟦<MemoryAcceptor as Acceptor>⟧.state result ≡ untouched [] }
    {
        MemoryAcceptor {
            coming: VecDeque::new(alloc),
            served: Vec::new(alloc),
            total: 0,
            calls: 0,
            fails,
            faults: 0,
        }
    }

    /// One more link to come, last. It gives `input`, and moves at most `piece` bytes a call, where 0
    /// counts as 1. Its calls that fail are those whose number stands in `fails`. Makes the room that
    /// its end needs.
    ///
    /// # Errors
    ///
    /// There was no memory, and nothing changed.
    pub fn add(
        &mut self,
        alloc: Global,
        input: Vec<u8>,
        piece: usize,
        fails: Vec<u64>,
    ) -> Result<(), AllocError>
        ensures added { OnOk result (⟦<MemoryAcceptor as Acceptor>⟧.state self.new ≡ with_coming (⟦<MemoryAcceptor as Acceptor>⟧.state self.old) (opened (Some input.items) (Some []))) }
        ensures same { OnErr result (⟦<MemoryAcceptor as Acceptor>⟧.state self.new ≡ ⟦<MemoryAcceptor as Acceptor>⟧.state self.old) }
    {
        let Some(total) = self.total.checked_add(1) else {
            return Err(AllocError);
        };
        self.served.reserve(total - self.served.len())?;
        self.coming.reserve(1)?;
        self.coming
            .push_back_reserved(MemoryLink::new(alloc, input, piece, fails));
        self.total = total;
        Ok(())
    }

    /// How many accepts failed.
    pub fn faults(&self) -> u64
        ensures { result ≡ (⟦<MemoryAcceptor as Acceptor>⟧.state self.now).faults }
    {
        self.faults
    }

    /// The links that ended, in order.
    pub fn served(&self) -> &[MemoryLink]
        ensures told { Some (map ⟦<MemoryLink as Link>⟧.state result.now) ≡ (⟦<MemoryAcceptor as Acceptor>⟧.state self.now).served }
    {
        &self.served
    }
}

impl Acceptor for MemoryAcceptor {
    type Link = MemoryLink;

    ghost state = { λ a. record {
      coming = Some (map ⟦<MemoryLink as Link>⟧.state a.coming.items);
      served = Some (map ⟦<MemoryLink as Link>⟧.state a.served.items);
      out = Some (a.total - (length a.served.items + length a.coming.items));
      faults = a.faults;
    } };

    fn accept(&mut self) -> Result<Option<MemoryLink>, Failed> {
        if is_failing(&mut self.calls, &self.fails) {
            self.faults = self.faults.saturating_add(1);
            return Err(Failed);
        }
        Ok(self.coming.pop_front())
    }

    fn end(&mut self, link: MemoryLink) {
        self.served.push_reserved(link);
    }
}
