ghost use Rattle.std.specs.Prelude.{◌≡◌, ◌≤◌, ◌+◌, length, map, Some};
ghost use Rattle.std.specs.Vec.{vec_capacity};
ghost use Rattle.std.specs.String.{string_bytes};

use crate::failing::is_failing;
use crate::{Dialer, Link, MemoryLink, StartFault};
use std::alloc::{AllocError, Global};
use std::collections::VecDeque;

/// What the link of a dial gives, a call at most `piece` bytes at a time, and which calls on it fail.
#[derive(Drop)]
struct Answer {
    bytes: Vec<u8>,
    piece: usize,
    fails: Vec<u64>,
}

/// A dialer in memory, which tells all. Dials can be made to fail. Past the last answer a link gives
/// nothing.
#[derive(Drop)]
pub struct MemoryDialer {
    alloc: Global,
    answers: VecDeque<Answer>,
    dialed: Vec<String>,
    ended: Vec<MemoryLink>,
    // How many links were given that haven't ended.
    out: usize,
    calls: u64,
    fails: Vec<u64>,
    faults: u64,
    ghost room: { length ended.items + out ≤ vec_capacity ended },
}

impl MemoryDialer {
    ghost use Rattle.std.specs.Prelude.{[], ◌++◌, ◌∷◌, OnOk, OnErr, Some};
    ghost use Rattle.sw_base.specs.Dialers.{silent, with_answer};

    /// A dialer that has no answers yet. The dials that fail are those whose number stands in
    /// `fails`, counted from 0.
    pub fn new(alloc: Global, fails: Vec<u64>) -> MemoryDialer
        ensures silent { ⟦<MemoryDialer as Dialer>⟧.state result ≡ silent }
    {
        MemoryDialer {
            alloc,
            answers: VecDeque::new(alloc),
            dialed: Vec::new(alloc),
            ended: Vec::new(alloc),
            out: 0,
            calls: 0,
            fails,
            faults: 0,
        }
    }

    /// One more answer, last: the link of its dial gives `bytes`, and moves at most `piece` bytes a
    /// call, where 0 counts as 1. Its calls that fail are those whose number stands in `fails`.
    ///
    /// # Errors
    ///
    /// There was no memory, and nothing changed.
    pub fn add(&mut self, bytes: Vec<u8>, piece: usize, fails: Vec<u64>) -> Result<(), AllocError>
        ensures added { OnOk result (⟦<MemoryDialer as Dialer>⟧.state self.new ≡ with_answer (⟦<MemoryDialer as Dialer>⟧.state self.old) bytes.items) }
        ensures same { OnErr result (⟦<MemoryDialer as Dialer>⟧.state self.new ≡ ⟦<MemoryDialer as Dialer>⟧.state self.old) }
    {
        self.answers.reserve(1)?;
        self.answers.push_back_reserved(Answer {
            bytes,
            piece,
            fails,
        });
        Ok(())
    }

    /// The links that ended, in order.
    pub fn ended(&self) -> &[MemoryLink]
        ensures told { Some (map ⟦<MemoryLink as Link>⟧.state result.now) ≡ (⟦<MemoryDialer as Dialer>⟧.state self.now).ended }
    {
        &self.ended
    }
}

impl Dialer for MemoryDialer {
    type Link = MemoryLink;

    ghost state = { λ d. record {
      dialed = Some (map string_bytes d.dialed.items);
      answers = Some (map (λ a. a.bytes.items) d.answers.items);
      ended = Some (map ⟦<MemoryLink as Link>⟧.state d.ended.items);
      out = Some d.out;
      faults = d.faults;
    } };

    fn dial(&mut self, address: &str) -> Result<MemoryLink, StartFault> {
        if is_failing(&mut self.calls, &self.fails) {
            self.faults = self.faults.saturating_add(1);
            return Err(StartFault::Failed);
        }
        let Some(out) = self.out.checked_add(1) else {
            return Err(StartFault::Memory);
        };
        self.ended.reserve(out)?;
        let name = String::from_str(self.alloc, address)?;
        self.dialed.push(name)?;
        self.out = out;
        match self.answers.pop_front() {
            Some(answer) => Ok(MemoryLink::new(
                self.alloc,
                answer.bytes,
                answer.piece,
                answer.fails,
            )),
            None => Ok(MemoryLink::new(self.alloc, Vec::new(self.alloc), 0, Vec::new(self.alloc))),
        }
    }

    fn end(&mut self, link: MemoryLink) {
        if link.has_failed() {
            self.faults = self.faults.saturating_add(1);
        }
        self.out -= 1;
        self.ended.push_reserved(link);
    }
}
