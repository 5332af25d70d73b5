//! A board to which a link comes once a post was made.
ghost use Rattle.std.specs.Prelude.{None};

use std::alloc::Global;
use std::sync::atomic::{AtomicU32, Ordering};
use std::thread;
use sw_base::{Acceptor, Failed, Listener, MemoryLink, StartFault};
use swarm_http::Clock;

/// How often a number is looked at. Other threads may run between two looks.
const LOOKS: u32 = 10_000_000;

/// How many bytes a call of a link moves at most.
const PIECE: usize = 4096;

/// Waits until the number has come so far.
fn wait_for(number: &AtomicU32, least: u32) {
    for _ in 0..LOOKS {
        if number.load(Ordering::SeqCst) >= least {
            return;
        }
        thread::yield_now();
    }
}

/// The clock of the posts. Each wait lasts until the worker is done, and is counted.
#[derive(Drop)]
pub struct PostClock<'a> {
    pub done: &'a AtomicU32,
    pub waits: &'a AtomicU32,
}

impl<'a> Clock for PostClock<'a> {
    ghost ahead = { λ c k. None };

    ghost waited = { λ c. None };

    fn now(&mut self) -> u64 {
        0
    }

    fn wait(&mut self, _secs: u64) {
        wait_for(self.done, 1);
        self.waits.fetch_add(1, Ordering::SeqCst);
    }

    fn twin(&self) -> PostClock<'a> {
        PostClock {
            done: self.done,
            waits: self.waits,
        }
    }
}

/// The acceptor of a worker or of a board, to which one link comes.
#[derive(Drop)]
pub struct PostedAcceptor<'a> {
    pub alloc: Global,
    pub is_board: bool,
    pub done: &'a AtomicU32,
    pub waits: &'a AtomicU32,
    pub input: Option<Vec<u8>>,
    /// The link, once it has ended.
    pub ended: Option<MemoryLink>,
}

impl<'a> Acceptor for PostedAcceptor<'a> {
    type Link = MemoryLink;

    ghost state = { λ a. record { coming = None; served = None; out = None; faults = 0 } };

    /// Where a worker gets no more links, it is done. A board's link comes after the second wait of the
    /// posts' clock: then a post was made that was begun once the worker was done.
    fn accept(&mut self) -> Result<Option<MemoryLink>, Failed> {
        let Some(input) = self.input.take() else {
            if !self.is_board {
                self.done.store(1, Ordering::SeqCst);
            }
            return Ok(None);
        };
        if self.is_board {
            wait_for(self.waits, 2);
        }
        let link = MemoryLink::new(self.alloc, input, PIECE, Vec::new(self.alloc));
        Ok(Some(link))
    }

    fn end(&mut self, link: MemoryLink) {
        self.ended = Some(link);
    }
}

/// A listener that gives one acceptor a call, the last that it has.
#[derive(Drop)]
pub struct PostedListener<'a> {
    pub alloc: Global,
    pub acceptors: Vec<PostedAcceptor<'a>>,
    /// Those that were shut.
    pub ended: Vec<PostedAcceptor<'a>>,
}

impl<'a> Listener for PostedListener<'a> {
    type Acceptor = PostedAcceptor<'a>;

    ghost state = { λ l. record { waiting = None; listened = None; ended = None; out = None; faults = 0 } };

    fn listen(
        &mut self,
        _address: &str,
        workers: u32,
    ) -> Result<Vec<PostedAcceptor<'a>>, StartFault> {
        match self.acceptors.pop() {
            Some(acceptor) if workers == 1 => Ok(vec![in self.alloc; acceptor]?),
            _ => Err(StartFault::Memory),
        }
    }

    fn shut(&mut self, acceptor: PostedAcceptor<'a>) {
        let _ = self.ended.push(acceptor);
    }
}
