//! A client that sends a request only once it has the whole reply to the one before.

ghost use Rattle.std.specs.Prelude.{◌≤◌, length, None};

use crate::tests::NEW_TASK;
use std::alloc::{AllocError, Global};
use std::test::Fail;
use sw_base::{Failed, Link, StepClock};
use swarm_http::Ended;
use swarm_machine::Pool;
use swarm_policy::open_settings;
use test_sessions::serve_new;

/// It gives its request so many times, each after the reply to the one before was flushed. A read
/// that comes sooner fails.
#[derive(Drop)]
pub struct TurnLink {
    request: Vec<u8>,
    times: u32,
    /// How many requests were begun, and how much of the last was given.
    begun: u32,
    given: usize,
    /// Whether bytes were written since the last flush.
    is_writing: bool,
    answered: u32,
    read_faults: u64,
    write_faults: u64,
    ghost within: { given ≤ length request.items },
}

impl TurnLink {
    pub fn new(alloc: Global, request: &[u8], times: u32) -> Result<TurnLink, AllocError> {
        Ok(TurnLink {
            request: Vec::from_slice(alloc, request)?,
            times,
            begun: 0,
            given: request.len(),
            is_writing: false,
            answered: 0,
            read_faults: 0,
            write_faults: 0,
        })
    }

    /// How many replies were written and flushed.
    pub fn answered(&self) -> u32 {
        self.answered
    }
}

impl Link for TurnLink {
    ghost state = { λ t. record {
      left = None;
      written = None;
      flushed = None;
      read_faults = t.read_faults;
      write_faults = t.write_faults;
    } };

    fn read(&mut self, into: &mut [u8]) -> Result<usize, Failed> {
        if self.given == self.request.len() {
            if self.answered < self.begun || self.is_writing {
                self.read_faults = self.read_faults.saturating_add(1);
                return Err(Failed);
            }
            if self.begun >= self.times {
                return Ok(0);
            }
            self.begun = self.begun.saturating_add(1);
            self.given = 0;
        }
        let rest = &self.request[self.given..];
        let n = into.len().min(rest.len());
        into[..n].copy_from_slice(&rest[..n]);
        self.given += n;
        Ok(n)
    }

    fn write(&mut self, piece: &[u8]) -> Result<usize, Failed> {
        self.is_writing = true;
        Ok(piece.len())
    }

    fn flush(&mut self) -> Result<(), Failed> {
        if self.is_writing {
            self.answered = self.answered.saturating_add(1);
        }
        self.is_writing = false;
        Ok(())
    }
}

#[test]
fn a_client_that_waits_for_each_reply(rt: HostRuntime) -> Result<(), Fail> {
    let alloc = rt.alloc();
    let mut link = TurnLink::new(alloc, NEW_TASK, 3)?;
    let mut clock = StepClock {
        at: 1000,
        step: 0,
        waited: 0,
    };
    let settings = open_settings(alloc)?;
    let ended = serve_new::<Pool, TurnLink, StepClock>(alloc, &settings, &mut link, &mut clock)?;
    assert_eq!(rt; ended, Ended::Closed);
    assert_eq!(rt; link.answered(), 3);
    Ok(())
}
