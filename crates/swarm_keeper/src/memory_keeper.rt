ghost use Rattle.std.specs.Prelude.{◌≡◌, ◌≤◌, true, false, Some, IsTrue, IfOk, refl};
ghost use Rattle.std.specs.List.{filter};
ghost use Rattle.sw_base.specs.Faults.{Rose};
ghost use Rattle.swarm_keeper.specs.Tables.{with_blob, without, is_other, nothing};

use crate::keeper::{Digest, Keeper, KeeperFault};
use crate::memory_tables::MemoryTables;
use dimensions::{Seq, Text, TryCopy};
use std::alloc::{AllocError, Global};
use sw_base::is_failing;

/// A keeper in memory, which tells all. Calls of it can be made to fail.
#[derive(Drop)]
pub struct MemoryKeeper {
    alloc: Global,
    tables: MemoryTables,
    calls: u64,
    fails: Vec<u64>,
    faults: u64,
}

fn texts_copy(alloc: Global, texts: &[Text]) -> Result<Vec<Text>, AllocError>
    ensures { IfOk result (λ copies. copies.items ≡ texts.now) }
{
    let mut copies = Vec::new(alloc);
    for text in texts {
        copies.push(text.try_copy(alloc)?)?;
    }
    Ok(copies)
}

fn bytes_copy(alloc: Global, bytes: &[u8]) -> Result<Seq<u8>, AllocError>
    ensures { IfOk result (λ copy. copy ≡ bytes.now) }
{
    Ok(Seq::from_vec(Vec::from_slice(alloc, bytes)?))
}

/// The blobs but that of the digest.
fn without(
    alloc: Global,
    blobs: &[(Digest, Seq<u8>)],
    digest: Digest,
) -> Result<Vec<(Digest, Seq<u8>)>, AllocError>
    ensures { IfOk result (λ rest. rest.items ≡ filter (is_other digest) blobs.now) }
{
    let mut rest = Vec::new(alloc);
    for blob in blobs {
        if blob.0 != digest {
            let copy = bytes_copy(alloc, blob.1.as_slice())?;
            rest.push((blob.0, copy))?;
        }
    }
    Ok(rest)
}

/// The blobs after one is removed and one is added.
fn changed(
    alloc: Global,
    blobs: &[(Digest, Seq<u8>)],
    add: Option<Digest>,
    bytes: &[u8],
    remove: Option<Digest>,
) -> Result<Vec<(Digest, Seq<u8>)>, AllocError>
    ensures { IfOk result (λ new. new.items ≡ with_blob add bytes.now (without remove blobs.now)) }
{
    let rest = match remove {
        Some(digest) => without(alloc, blobs, digest)?,
        None => copied(alloc, blobs)?,
    };
    match add {
        Some(digest) => {
            let mut new = without(alloc, rest.as_slice(), digest)?;
            let copy = bytes_copy(alloc, bytes)?;
            new.push((digest, copy))?;
            Ok(new)
        }
        None => Ok(rest),
    }
}

fn copied(alloc: Global, blobs: &[(Digest, Seq<u8>)]) -> Result<Vec<(Digest, Seq<u8>)>, AllocError>
    ensures { IfOk result (λ new. new.items ≡ blobs.now) }
{
    let mut copies = Vec::new(alloc);
    for blob in blobs {
        let copy = bytes_copy(alloc, blob.1.as_slice())?;
        copies.push((blob.0, copy))?;
    }
    Ok(copies)
}

impl MemoryKeeper {
    /// A keeper that keeps nothing yet. The calls that fail are those whose number stands in
    /// `fails`: they are counted from 0.
    pub fn new(alloc: Global, fails: Vec<u64>) -> MemoryKeeper
        ensures tables { ⟦<MemoryKeeper as Keeper>⟧.tables result ≡ Some nothing }
        ensures faults { ⟦<MemoryKeeper as Keeper>⟧.faults result ≡ 0 }
    {
        MemoryKeeper {
            alloc,
            tables: MemoryTables::new(alloc),
            calls: 0,
            fails,
            faults: 0,
        }
    }

    /// A keeper of these tables.
    pub(crate) fn from_tables(alloc: Global, tables: MemoryTables, fails: Vec<u64>) -> MemoryKeeper
        ensures tables { ⟦<MemoryKeeper as Keeper>⟧.tables result ≡ Some tables }
        ensures faults { ⟦<MemoryKeeper as Keeper>⟧.faults result ≡ 0 }
    {
        MemoryKeeper {
            alloc,
            tables,
            calls: 0,
            fails,
            faults: 0,
        }
    }

    pub(crate) fn into_tables(self) -> MemoryTables
        ensures { ⟦<MemoryKeeper as Keeper>⟧.tables self ≡ Some result }
    {
        self.tables
    }

    /// How often a call failed.
    pub fn faults(&self) -> u64
        ensures { result ≡ ⟦<MemoryKeeper as Keeper>⟧.faults self.now }
    {
        self.faults
    }

    /// Whether this call fails, which is then counted.
    fn fails(&mut self) -> bool
        ensures tables { self.new.tables ≡ self.old.tables }
        ensures counted { IsTrue result → Rose self.old.faults self.new.faults }
        ensures never_falls { self.old.faults ≤ self.new.faults }
    {
        if is_failing(&mut self.calls, &self.fails) {
            self.faults = self.faults.saturating_add(1);
            return true;
        }
        false
    }
}

impl Keeper for MemoryKeeper {
    ghost tables = { λ k. Some k.tables };

    ghost faults = { λ k. k.faults };

    ghost TELLS = { true };

    ghost tells = { λ keeper. refl };

    ghost SURE = { false };

    const SURE: bool = false;

    ghost sure_untold = { refl };

    fn append(
        &mut self,
        line: &str,
        add: Option<Digest>,
        bytes: &[u8],
        remove: Option<Digest>,
    ) -> Result<(), KeeperFault> {
        if self.fails() {
            return Err(KeeperFault::Failed);
        }
        let line = Text::from_str(self.alloc, line)?;
        let blobs = changed(self.alloc, self.tables.blobs(), add, bytes, remove)?;
        self.tables.append(line, blobs)?;
        Ok(())
    }

    fn replace(&mut self, base: &[Text], count: u64) -> Result<(), KeeperFault> {
        if self.fails() {
            return Err(KeeperFault::Failed);
        }
        let base = texts_copy(self.alloc, base)?;
        self.tables.replace(self.alloc, base, count);
        Ok(())
    }

    fn count(&mut self) -> Result<u64, KeeperFault> {
        if self.fails() {
            return Err(KeeperFault::Failed);
        }
        Ok(self.tables.count())
    }

    fn base_line(&mut self, at: u64) -> Result<Option<Text>, KeeperFault> {
        if self.fails() {
            return Err(KeeperFault::Failed);
        }
        match self.tables.base().get(at as usize) {
            Some(line) => Ok(Some(line.try_copy(self.alloc)?)),
            None => Ok(None),
        }
    }

    fn line(&mut self, at: u64) -> Result<Option<Text>, KeeperFault> {
        if self.fails() {
            return Err(KeeperFault::Failed);
        }
        match self.tables.lines().get(at as usize) {
            Some(line) => Ok(Some(line.try_copy(self.alloc)?)),
            None => Ok(None),
        }
    }

    fn blob(&mut self, digest: &Digest) -> Result<Option<Seq<u8>>, KeeperFault> {
        if self.fails() {
            return Err(KeeperFault::Failed);
        }
        match self.tables.blobs().iter().find(|blob| blob.0 == *digest) {
            Some(blob) => Ok(Some(bytes_copy(self.alloc, blob.1.as_slice())?)),
            None => Ok(None),
        }
    }
}
