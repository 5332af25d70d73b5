ghost use Rattle.std.specs.Prelude.{◌≡◌, ◌<◌, ◌^◌, [], ◌∷◌, ◌++◌, length, OnErr, OnOk};

use std::alloc::{AllocError, Global};
use turnstile::Counted;

/// An item, with the number of the pass that wrote it.
#[derive(Clone, Copy, Debug, PartialEq, Eq)]
pub struct Entry {
    pub pass: u64,
    pub item: u32,
}

/// A small value that counts: a list of entries with a title, which never changes.
#[derive(Drop)]
pub struct Journal {
    pub title: u32,
    pub entries: Vec<Entry>,
}

impl Counted for Journal {
    type Item = Entry;

    type Fixed = u32;

    ghost log = { λ j. j.entries.items };

    ghost by = { λ e. e.pass };

    ghost fixed = { λ j. j.title };

    fn count(&self) -> u64 {
        self.entries.len() as u64
    }
}

impl Journal {
    /// The most entries of a journal.
    pub const MOST: usize = 1_000_000;

    pub fn new(alloc: Global, title: u32) -> Journal
        ensures entries { result.entries.items ≡ [] }
        ensures title { result.title ≡ title }
    {
        Journal {
            title,
            entries: Vec::new(alloc),
        }
    }

    /// Writes an entry behind all others.
    ///
    /// # Errors
    ///
    /// The journal is full, or there is no memory. It is unchanged.
    pub fn write(&mut self, pass: u64, item: u32) -> Result<(), AllocError>
        ensures written { OnOk result (self.new.entries.items ≡ self.old.entries.items ++ record { pass = pass; item = item } ∷ []) }
        ensures room { OnOk result (length self.old.entries.items < 2 ^ 32) }
        ensures unchanged { OnErr result (self.new.entries.items ≡ self.old.entries.items) }
        ensures title { self.new.title ≡ self.old.title }
    {
        if self.entries.len() >= Self::MOST {
            return Err(AllocError);
        }
        self.entries.push(Entry { pass, item })?;
        Ok(())
    }

    /// How many of the entries of this number are the items 0, 1 and so on, in their order.
    pub fn rising(&self, pass: u64) -> u32 {
        let mut next = 0u32;
        for entry in &self.entries {
            if entry.pass == pass && entry.item == next {
                next = next.saturating_add(1);
            }
        }
        next
    }
}
