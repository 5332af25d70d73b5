ghost use Rattle.std.specs.Prelude.{◌≡◌, ◌+◌, if◌then◌else◌, MatchOption, Some, None};
ghost use Rattle.tcp_links.specs.Endings.{has_fault};

use crate::{HasFailed, LimitedReads, Limits, LinkEnding};
use std::net::SocketAddr;
use std::rt;
use std::time::{Duration, Instant};
use sw_base::{Failed, Link};

/// A link each of whose requests has a limit of time, from its first byte to the flush of its reply.
/// A request begins with the first read that ends, or the first write that begins, after the last
/// flush. So bytes of it that came along with the request before don't begin it. A read or write that
/// begins past the limit fails, and moves nothing.
///
/// A read waits for `idle` of its limits at most where no request has begun, and for `call` within
/// one. Which of the two holds is set on the link in it as a read begins, and only where it isn't
/// set already: a request that comes in one piece costs no call of the system for it.
///
/// What the link tells is what the link in it tells, and its counts are that one's with its own late
/// calls, among which is a read whose limit can't be set. Where the clock can't be read, no request
/// begins and no call is late.
#[derive(Drop)]
pub struct DeadlineLink<'a, L: LimitedReads + Drop, T: rt::Clock> {
    link: L,
    peer: SocketAddr,
    time: &'a T,
    limits: Limits,
    // When the request began, if it did.
    begun: Option<Instant>,
    // How long a read may wait, once it was set.
    wait: Option<Duration>,
    late_reads: u64,
    late_writes: u64,
    flushes: u64,
}

impl<'a, L: LimitedReads + Drop, T: rt::Clock> DeadlineLink<'a, L, T> {
    /// A link to a peer, whose first request has not begun.
    pub fn new(link: L, peer: SocketAddr, time: &'a T, limits: Limits) -> Self
        ensures { ⟦<DeadlineLink<'a, L, T> as Link>⟧.state result ≡ L.state link }
    {
        DeadlineLink {
            link,
            peer,
            time,
            limits,
            begun: None,
            wait: None,
            late_reads: 0,
            late_writes: 0,
            flushes: 0,
        }
    }

    pub(crate) fn peer(&self) -> SocketAddr
        ensures { result ≡ self.now.peer }
    {
        self.peer
    }

    /// How many flushes succeeded: of a server's link these are its replies.
    pub(crate) fn flushes(&self) -> u64
        ensures { result ≡ self.now.flushes }
    {
        self.flushes
    }

    /// The link in it, if no call came late.
    pub(crate) fn into_link_in_time(self) -> Option<L>
        ensures { result ≡ (if has_fault self.entry.late_reads self.entry.late_writes then None else Some self.entry.link) }
    {
        if self.late_reads > 0 || self.late_writes > 0 {
            return None;
        }
        Some(self.link)
    }

    /// Whether the request has taken too long.
    fn is_late(&self) -> bool {
        match self.begun {
            Some(begun) => match begun.elapsed(self.time) {
                Ok(since) => since > self.limits.request,
                Err(_) => false,
            },
            None => false,
        }
    }

    /// How long a read that begins now may wait.
    fn wait_now(&self) -> Duration
        ensures { MatchOption self.now.begun (result ≡ self.now.limits.idle) (λ _. result ≡ self.now.limits.call) }
    {
        match self.begun {
            Some(_) => self.limits.call,
            None => self.limits.idle,
        }
    }

    /// Has a read that begins now wait as long as it may. Says whether that is set.
    fn limit_read(&mut self) -> bool
        ensures link { L.state self.new.link ≡ L.state self.old.link }
        ensures reads { self.new.late_reads ≡ self.old.late_reads }
        ensures writes { self.new.late_writes ≡ self.old.late_writes }
    {
        let wait = self.wait_now();
        if self.wait == Some(wait) {
            return true;
        }
        if !self.link.limit_reads(wait) {
            return false;
        }
        self.wait = Some(wait);
        true
    }
}

/// When the request began: now, unless it did before.
fn begin<T: rt::Clock>(begun: Option<Instant>, time: &T) -> Option<Instant> {
    match begun {
        Some(begun) => Some(begun),
        None => Instant::now(time).ok(),
    }
}

impl<'a, L: LimitedReads + Drop, T: rt::Clock> HasFailed for DeadlineLink<'a, L, T> {
    ghost use Rattle.tcp_links.specs.declared.link_ending.LinkEnding.TheVariants.{TimeLimit};

    ghost ending = { λ d. if has_fault d.late_reads d.late_writes then TimeLimit else L.ending d.link };

    fn has_failed(&self) -> bool {
        self.late_reads > 0 || self.late_writes > 0 || self.link.has_failed()
    }

    fn ending(&self) -> LinkEnding {
        if self.late_reads > 0 || self.late_writes > 0 {
            return LinkEnding::TimeLimit;
        }
        self.link.ending()
    }
}

impl<'a, L: LimitedReads + Drop, T: rt::Clock> Link for DeadlineLink<'a, L, T> {
    ghost state = { λ d. record (L.state d.link) {
      read_faults = (L.state d.link).read_faults + d.late_reads;
      write_faults = (L.state d.link).write_faults + d.late_writes;
    } };

    fn read(&mut self, into: &mut [u8]) -> Result<usize, Failed> {
        if self.is_late() || !self.limit_read() {
            self.late_reads = self.late_reads.saturating_add(1);
            return Err(Failed);
        }
        let read = self.link.read(into);
        self.begun = begin(self.begun, self.time);
        read
    }

    fn write(&mut self, piece: &[u8]) -> Result<usize, Failed> {
        if self.is_late() {
            self.late_writes = self.late_writes.saturating_add(1);
            return Err(Failed);
        }
        self.begun = begin(self.begun, self.time);
        self.link.write(piece)
    }

    fn flush(&mut self) -> Result<(), Failed> {
        self.begun = None;
        self.link.flush()?;
        self.flushes = self.flushes.saturating_add(1);
        Ok(())
    }
}
