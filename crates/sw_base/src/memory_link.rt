ghost use Rattle.std.specs.Prelude.{◌≡◌, ◌≤◌, ◌<◌, ℕ, List, [], Option, Some, length, take, drop};

use crate::failing::is_failing;
use crate::{Failed, Link};
use std::alloc::{AllocError, Global};

/// A link in memory, which tells all. Its reads and writes move a piece at a time, and calls of it
/// can be made to fail.
#[derive(Drop)]
pub struct MemoryLink {
    input: Vec<u8>,
    at: usize,
    piece: usize,
    output: Vec<u8>,
    flushed: usize,
    calls: u64,
    fails: Vec<u64>,
    read_faults: u64,
    write_faults: u64,
    ghost read_within: { at ≤ length input.items },
    ghost flushed_within: { flushed ≤ length output.items },
}

impl MemoryLink {
    ghost use Rattle.std.specs.Prelude.{◌↔◌, IsTrue};
    ghost use Rattle.sw_base.specs.Link.{HasFailed, opened};

    /// A link that gives `input`. A call moves at most `piece` bytes, where 0 counts as 1. The
    /// calls that fail are those whose number stands in `fails`: calls of all three methods are
    /// counted together, from 0.
    pub fn new(alloc: Global, input: Vec<u8>, piece: usize, fails: Vec<u64>) -> MemoryLink
        ensures opened { ⟦<MemoryLink as Link>⟧.state result ≡ opened (Some input.items) (Some []) }
    {
        MemoryLink {
            input,
            at: 0,
            piece,
            output: Vec::new(alloc),
            flushed: 0,
            calls: 0,
            fails,
            read_faults: 0,
            write_faults: 0,
        }
    }

    /// Whether a call of it has failed.
    pub fn has_failed(&self) -> bool
        ensures { IsTrue result ↔ HasFailed (⟦<MemoryLink as Link>⟧.state self.now) }
    {
        self.read_faults > 0 || self.write_faults > 0
    }

    /// What was written.
    pub fn output(&self) -> &[u8]
        ensures written { (⟦<MemoryLink as Link>⟧.state self.now).written ≡ Some result.now }
    {
        &self.output
    }

    /// What was written and flushed.
    pub fn flushed_output(&self) -> &[u8]
        ensures flushed { (⟦<MemoryLink as Link>⟧.state self.now).flushed ≡ Some result.now }
    {
        &self.output[..self.flushed]
    }
}

impl Link for MemoryLink {
    ghost state = { λ m. record {
      left = Some (drop m.at m.input.items);
      written = Some m.output.items;
      flushed = Some (take m.flushed m.output.items);
      read_faults = m.read_faults;
      write_faults = m.write_faults;
    } };

    fn read(&mut self, into: &mut [u8]) -> Result<usize, Failed> {
        if is_failing(&mut self.calls, &self.fails) {
            self.read_faults = self.read_faults.saturating_add(1);
            return Err(Failed);
        }
        let rest = &self.input[self.at..];
        let n = into.len().min(rest.len()).min(self.piece.max(1));
        into[..n].copy_from_slice(&rest[..n]);
        self.at += n;
        Ok(n)
    }

    /// Want of memory for the output counts as a failure of the call.
    fn write(&mut self, piece: &[u8]) -> Result<usize, Failed> {
        let n = piece.len().min(self.piece.max(1));
        if is_failing(&mut self.calls, &self.fails)
            || self.output.extend_from_slice(&piece[..n]).is_err()
        {
            self.write_faults = self.write_faults.saturating_add(1);
            return Err(Failed);
        }
        Ok(n)
    }

    fn flush(&mut self) -> Result<(), Failed> {
        if is_failing(&mut self.calls, &self.fails) {
            self.write_faults = self.write_faults.saturating_add(1);
            return Err(Failed);
        }
        self.flushed = self.output.len();
        Ok(())
    }
}
