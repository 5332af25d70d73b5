ghost use Rattle.std.specs.Prelude.{◌≡◌, ◌<◌, ◌≤◌, ◌-◌, length, take, drop};
ghost use Rattle.sw_base.specs.Link.{IsClean, Reads};

use memchr::memmem;
use std::alloc::{AllocError, Global};
use std::marker::Model;
use sw_base::{Failed, Link};

/// The most bytes that a head has.
pub const HEAD_LIMIT: usize = 16384;

// What ends a head.
const BLANK_LINE: &[u8] = b"\r\n\r\n";

/// The bytes that were taken from a link and not used yet, [`HEAD_LIMIT`] at most.
#[derive(Drop)]
pub struct Pending {
    bytes: Vec<u8>,
    start: usize,
    end: usize,
}

impl Model for Pending {
    ghost use Rattle.std.specs.Prelude.{◌≡◌, ◌≤◌, ℕ, List, length, take, drop};
    ghost use Rattle.link_reader.specs.declared.pending.TheConstants.{HEAD_LIMIT};

    ghost Value = { List ℕ };

    ghost view = { λ p. drop p.start (take p.end p.bytes.items) };

    ghost invariant = { λ p. (length p.bytes.items ≡ HEAD_LIMIT) × (p.start ≤ p.end) × (p.end ≤ HEAD_LIMIT) };
}

impl Pending {
    ghost use Rattle.std.specs.Prelude.{◌≡◌, ◌≤◌, ◌<◌, ◌↔◌, [], length, take, drop, IsTrue, IfOk, MatchOption};
    ghost use Rattle.link_reader.specs.declared.pending.TheConstants.{HEAD_LIMIT};
    ghost use Rattle.link_reader.specs.Heads.{Fills, HasNoEnd, HasNoEndBefore, IsHeadEnd};

    /// Takes all its memory at once.
    pub fn new(alloc: Global) -> Result<Pending, AllocError>
        ensures { IfOk result (λ p. p ≡ []) }
    {
        Ok(Pending {
            bytes: vec![in alloc; 0; HEAD_LIMIT]?,
            start: 0,
            end: 0,
        })
    }

    pub fn len(&self) -> usize
        ensures length { result ≡ length self.now }
        ensures bound { length self.now ≤ HEAD_LIMIT }
    {
        self.end - self.start
    }

    pub fn is_empty(&self) -> bool
        ensures { IsTrue result ↔ (self.now ≡ []) }
    {
        self.len() == 0
    }

    pub fn as_slice(&self) -> &[u8]
        ensures { result.now ≡ self.now }
    {
        &self.bytes[self.start..self.end]
    }

    /// The first n bytes.
    pub fn front(&self, n: usize) -> &[u8]
        requires { n ≤ length self.now }
        ensures { result.now ≡ take n self.now }
    {
        &self.bytes[self.start..self.start + n]
    }

    /// The length of the head at the front, where it ends in these bytes. Its last four bytes are
    /// searched for from place `from` on: those before it were searched already.
    pub fn head_length(&self, from: usize) -> Option<usize>
        requires within { from ≤ length self.now }
        requires searched { HasNoEndBefore self.now from }
        ensures { MatchOption result (HasNoEnd self.now) (λ n. IsHeadEnd self.now n) }
    {
        match memmem::find(&self.as_slice()[from..], BLANK_LINE) {
            Some(at) => Some(from + at + 4),
            None => None,
        }
    }

    /// Reads once into the room that is left. 0 is the end of the input.
    pub fn fill<L: Link>(&mut self, link: &mut L) -> Result<usize, Failed>
        requires room { length self.old < HEAD_LIMIT }
        requires clean { IsClean (L.state link.old) }
        ensures { Fills (L.state link.old) (L.state link.new) self.old self.new result }
    {
        shift_front(&mut self.bytes, self.start, self.end);
        self.end -= self.start;
        self.start = 0;
        let n = read_at(&mut self.bytes, self.end, link)?;
        self.end += n;
        Ok(n)
    }

    /// Forgets the first n bytes.
    pub fn remove_front(&mut self, n: usize)
        requires { n ≤ length self.old }
        ensures { self.new ≡ drop n self.old }
    {
        self.start += n;
    }
}

/// Reads once into what stands behind the first `at` bytes.
pub(crate) fn read_at<L: Link>(bytes: &mut [u8], at: usize, link: &mut L) -> Result<usize, Failed>
    requires room { at < length bytes.old }
    requires clean { IsClean (L.state link.old) }
    ensures kept { take at bytes.new ≡ take at bytes.old }
    ensures reads { Reads (L.state link.old) (L.state link.new) result (drop at bytes.new) }
{
    link.read(&mut bytes[at..])
}

/// Moves the bytes from n to `end` to the front, so that all room is behind them.
fn shift_front(bytes: &mut [u8], n: usize, end: usize)
    requires order { n ≤ end }
    requires within { end ≤ length bytes.old }
    ensures { take (end - n) bytes.new ≡ drop n (take end bytes.old) }
{
    if n > 0 {
        bytes.copy_within(n..end, 0);
    }
}
