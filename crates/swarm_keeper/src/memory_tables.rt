ghost use Rattle.std.specs.Prelude.{◌≡◌, ◌++◌, ◌∷◌, [], OnOk, OnErr, slice_set};
ghost use Rattle.swarm_keeper.specs.Tables.{nothing, replaced};

use crate::keeper::Digest;
use dimensions::{Seq, Text};
use std::alloc::{AllocError, Global};
use std::marker::Model;

/// The lines of a base and of the log since then, and the bytes of blobs, in memory.
#[derive(Drop)]
pub struct MemoryTables {
    base: Vec<Text>,
    count: u64,
    lines: Vec<Text>,
    blobs: Vec<(Digest, Seq<u8>)>,
}

impl Model for MemoryTables {
    ghost use Rattle.swarm_keeper.specs.Tables.{Tables};

    ghost Value = { Tables };

    ghost view = { λ t. record {
      base = t.base.items;
      count = t.count;
      lines = t.lines.items;
      blobs = t.blobs.items;
    } };
}

impl MemoryTables {
    pub fn new(alloc: Global) -> MemoryTables
        ensures { result ≡ nothing }
    {
        MemoryTables::of_version_1(alloc, Vec::new(alloc), Vec::new(alloc))
    }

    /// Tables of the first version, which have no base.
    pub fn of_version_1(
        alloc: Global,
        lines: Vec<Text>,
        blobs: Vec<(Digest, Seq<u8>)>,
    ) -> MemoryTables
        ensures { result ≡ record nothing { lines = lines.items; blobs = blobs.items } }
    {
        MemoryTables::of_version_2(Vec::new(alloc), 0, lines, blobs)
    }

    /// Tables of the second version, with the lines of a base before which so many entries came.
    pub fn of_version_2(
        base: Vec<Text>,
        count: u64,
        lines: Vec<Text>,
        blobs: Vec<(Digest, Seq<u8>)>,
    ) -> MemoryTables
        ensures { result ≡ record { base = base.items; count = count; lines = lines.items; blobs = blobs.items } }
    {
        MemoryTables {
            base,
            count,
            lines,
            blobs,
        }
    }

    pub(crate) fn base(&self) -> &[Text]
        ensures { result.now ≡ self.now.base }
    {
        self.base.as_slice()
    }

    pub(crate) fn count(&self) -> u64
        ensures { result ≡ self.now.count }
    {
        self.count
    }

    pub(crate) fn lines(&self) -> &[Text]
        ensures { result.now ≡ self.now.lines }
    {
        self.lines.as_slice()
    }

    pub(crate) fn blobs(&self) -> &[(Digest, Seq<u8>)]
        ensures { result.now ≡ self.now.blobs }
    {
        self.blobs.as_slice()
    }

    /// Adds a line, and takes other blobs.
    pub(crate) fn append(
        &mut self,
        line: Text,
        blobs: Vec<(Digest, Seq<u8>)>,
    ) -> Result<(), AllocError>
        ensures ok { OnOk result (self.new ≡ record self.old { lines = self.old.lines ++ line ∷ []; blobs = blobs.items }) }
        ensures err { OnErr result (self.new ≡ self.old) }
    {
        self.lines.push(line)?;
        self.blobs = blobs;
        Ok(())
    }

    /// Takes the lines of another base and its count, and has no lines of a log then.
    pub(crate) fn replace(&mut self, alloc: Global, base: Vec<Text>, count: u64)
        ensures { self.new ≡ replaced base.items count self.old }
    {
        self.base = base;
        self.count = count;
        self.lines = Vec::new(alloc);
    }

    /// Puts a text in the place of a line, where there is one.
    pub(crate) fn replace_line(&mut self, at: usize, line: Text)
        ensures { self.new ≡ record self.old { lines = slice_set self.old.lines at line } }
    {
        if at < self.lines.len() {
            self.lines[at] = line;
        }
    }
}
