//! Links that wait for each other.
ghost use Rattle.std.specs.Prelude.{◌≡◌, ◌≤◌, None, length};
ghost use Rattle.sw_base.specs.Acceptors.{IsFresh};

use std::alloc::Global;
use std::sync::atomic::{AtomicBool, Ordering};
use std::{mem, thread};
use sw_base::{Acceptor, Failed, Link, Listener, StartFault};

/// How often a link looks for the other one. It lets other threads run between two looks, so that the
/// other one is read meanwhile also where processors are few and busy.
const LOOKS: u32 = 10_000_000;

/// A link whose first read waits until the other one is read as well. That read fails where the
/// other one isn't read meanwhile.
#[derive(Drop)]
pub struct MeetingLink<'a> {
    own: &'a AtomicBool,
    other: &'a AtomicBool,
    input: Vec<u8>,
    given: usize,
    output: Vec<u8>,
    read_faults: u64,
    write_faults: u64,
    ghost within: { given ≤ length input.items },
}

impl MeetingLink<'_> {
    /// Says that this link is read, and looks whether the other one is.
    fn meets(&self) -> bool {
        self.own.store(true, Ordering::SeqCst);
        for _ in 0..LOOKS {
            if self.other.load(Ordering::SeqCst) {
                return true;
            }
            thread::yield_now();
        }
        false
    }
}

impl Link for MeetingLink<'_> {
    ghost state = { λ m. record {
      left = None;
      written = None;
      flushed = None;
      read_faults = m.read_faults;
      write_faults = m.write_faults;
    } };

    fn read(&mut self, into: &mut [u8]) -> Result<usize, Failed> {
        if self.given == 0 && !self.meets() {
            self.read_faults = self.read_faults.saturating_add(1);
            return Err(Failed);
        }
        let rest = &self.input[self.given..];
        let n = into.len().min(rest.len());
        into[..n].copy_from_slice(&rest[..n]);
        self.given += n;
        Ok(n)
    }

    fn write(&mut self, piece: &[u8]) -> Result<usize, Failed> {
        if self.output.extend_from_slice(piece).is_err() {
            self.write_faults = self.write_faults.saturating_add(1);
            return Err(Failed);
        }
        Ok(piece.len())
    }

    fn flush(&mut self) -> Result<(), Failed> {
        Ok(())
    }
}

/// An acceptor to which one such link comes.
#[derive(Drop)]
pub struct MeetingAcceptor<'a> {
    alloc: Global,
    own: &'a AtomicBool,
    other: &'a AtomicBool,
    input: Option<Vec<u8>>,
    /// What was written to the link that ended last.
    pub output: Vec<u8>,
}

impl<'a> MeetingAcceptor<'a> {
    pub fn new(
        alloc: Global,
        own: &'a AtomicBool,
        other: &'a AtomicBool,
        input: Vec<u8>,
    ) -> MeetingAcceptor<'a> {
        MeetingAcceptor {
            alloc,
            own,
            other,
            input: Some(input),
            output: Vec::new(alloc),
        }
    }
}

impl<'a> Acceptor for MeetingAcceptor<'a> {
    type Link = MeetingLink<'a>;

    ghost state = { λ a. record { coming = None; served = None; out = None; faults = 0 } };

    fn accept(&mut self) -> Result<Option<MeetingLink<'a>>, Failed> {
        match self.input.take() {
            Some(input) => Ok(Some(MeetingLink {
                own: self.own,
                other: self.other,
                input,
                given: 0,
                output: Vec::new(self.alloc),
                read_faults: 0,
                write_faults: 0,
            })),
            None => Ok(None),
        }
    }

    fn end(&mut self, link: MeetingLink<'a>) {
        self.output = link.output;
    }
}

/// A listener that gives two such acceptors.
#[derive(Drop)]
pub struct MeetingListener<'a> {
    alloc: Global,
    pub acceptors: Vec<MeetingAcceptor<'a>>,
}

impl<'a> MeetingListener<'a> {
    pub fn new(alloc: Global, acceptors: Vec<MeetingAcceptor<'a>>) -> MeetingListener<'a> {
        MeetingListener { alloc, acceptors }
    }
}

impl<'a> Listener for MeetingListener<'a> {
    type Acceptor = MeetingAcceptor<'a>;

    ghost state = { λ l. record { waiting = None; listened = None; ended = None; out = None; faults = 0 } };

    /// It has as many acceptors as there are workers.
    fn listen(
        &mut self,
        _address: &str,
        workers: u32,
    ) -> Result<Vec<MeetingAcceptor<'a>>, StartFault> {
        let given = mem::replace(&mut self.acceptors, Vec::new(self.alloc));
        if given.len() == workers as usize {
            Ok(given)
        } else {
            Err(StartFault::Memory)
        }
    }

    fn shut(&mut self, acceptor: MeetingAcceptor<'a>) {
        let _ = self.acceptors.push(acceptor);
    }
}
