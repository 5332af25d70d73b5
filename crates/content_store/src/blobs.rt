ghost use Rattle.std.specs.Prelude.{◌≡◌, ◌+◌, ◌<◌, ◌≤◌, ◌^◌, ◌++◌, ◌∷◌, [], map, length, slice_get, None, IfOk, IfSome, IsTrue};
ghost use Rattle.std.specs.List.{filter, All};
ghost use Rattle.std.specs.Option.{option_map, option_copied};
ghost use Rattle.sha2.specs.Sha256.{sha256};
ghost use Rattle.blob_rows.specs.Places.{is_free};
ghost use Rattle.blob_rows.specs.Extents.{extent_at};
ghost use Rattle.blob_rows.specs.BlobRows.{blob_of, blob_numbered, is_other, longer_kept, units_of, extent_of_row, new_blob, put, put_result};
ghost use Rattle.content_store.specs.Contents.{bytes_of, is_held_with_size, unfilled_content, with_content};
ghost use Rattle.content_store.specs.Plain.{hold_result, held_after_hold, fill_result, held_after_fill};
ghost use Rattle.content_store.specs.StoredRows.{AreStored, held_without, rows_in};

use crate::{BlobRow, ContentStore, Digest, Filled, Held, row_changing, row_places};
use std::alloc::{AllocError, Global};
use std::collections::VecDeque;
use std::marker::Model;

/// The rows of the blobs, and the store of their contents.
///
/// No call reads all rows. A number is found by bisection of the rows, and a digest by a search of
/// the store, which has its number, and a bisection.
#[derive(Drop)]
pub struct Blobs {
    placed: u32,
    /// In the order of their numbers.
    rows: VecDeque<BlobRow>,
    store: ContentStore,
}

impl Model for Blobs {
    ghost use Rattle.content_store.specs.StoredRows.{BlobsState};

    ghost Value = { BlobsState };

    ghost use Rattle.content_store.specs.BlobsInside.{kept_of, IsKept};

    ghost view = { kept_of };

    ghost invariant = { IsKept };
}

impl Blobs {
    /// No blobs yet, and room for at most so many names and units of 64 bytes.
    ///
    /// # Errors
    ///
    /// There is no memory for so many rows, names and units.
    pub fn new(alloc: Global, units: u32, names: u32) -> Result<Blobs, AllocError>
        ensures { IfOk result (λ b. b ≡ record { rows = []; placed = 0; store = record { units = units; names = names; held = [] } }) }
    {
        Ok(Blobs {
            placed: 0,
            rows: VecDeque::with_capacity(alloc, names as usize)?,
            store: ContentStore::new(alloc, units, names)?,
        })
    }

    /// How many rows there are. It is kept, and not counted.
    pub fn count(&self) -> usize
        ensures count { result ≡ length self.now.rows }
        ensures stored { AreStored self.now.rows self.now.placed self.now.store.held }
    {
        self.rows.len()
    }

    /// How many blobs were ever placed.
    pub fn placed(&self) -> u32
        ensures { result ≡ self.now.placed }
    {
        self.placed
    }

    /// The row at a place of the list of rows, in which they stand in the order in which they were
    /// placed. It is read without a search.
    pub fn row_at(&self, at: usize) -> Option<&BlobRow>
        ensures { option_copied result ≡ slice_get self.now.rows at }
    {
        row_places::row_at(&self.rows, at)
    }

    /// The row of a digest: a search of the store, and a bisection of the rows.
    pub fn blob_of(&self, digest: &Digest) -> Option<&BlobRow>
        ensures { option_copied result ≡ blob_of self.now.rows digest.now }
    {
        row_places::blob_of(&self.rows, &self.store, digest)
    }

    /// The row of a number: a bisection of the rows.
    pub fn blob_numbered(&self, number: u32) -> Option<&BlobRow>
        ensures { option_copied result ≡ blob_numbered self.now.rows number }
    {
        row_places::blob_numbered(&self.rows, number)
    }

    /// What `put` would do: renew a row (`Present`), or add one (`Placed`); otherwise as many are
    /// there as may be, or the region has no place. The store alone is asked.
    pub fn probe(&self, digest: &Digest, size: u32) -> Held
        ensures { result ≡ put_result self.now.store.names (rows_in self.now) digest.now size }
    {
        self.store.probe(digest, size)
    }

    /// Puts a blob of so many bytes: one that is present is kept until the deadline, and any other
    /// gets a row and a place, where there is one. Its bytes are to be brought by `fill`. A digest is
    /// searched in the store; its row is found by bisection, and a new row is added at the end.
    pub fn put(&mut self, deadline: u64, digest: &Digest, size: u32)
        requires few { blob_of self.old.rows digest.now ≡ None → length self.old.rows < self.old.store.names }
        requires number { self.old.placed + 1 < 2 ^ 32 }
        ensures rows { rows_in self.new ≡ put (rows_in self.old) deadline digest.now size }
        ensures store { self.new.store ≡ record self.old.store {
          held = held_after_hold (hold_result self.old.store digest.now size) digest.now size (self.old.placed + 1) self.old.store.held;
        } }
        ensures stored { AreStored self.new.rows self.new.placed self.new.store.held }

        // What the next call asks, where it is told from this one.
        ensures count { length self.new.rows ≤ length self.old.rows + 1 }
        ensures placed { self.new.placed ≤ self.old.placed + 1 }
        ensures names { self.new.store.names ≡ self.old.store.names }
    {
        self.placed = row_changing::put(
            &mut self.rows,
            &mut self.store,
            self.placed,
            deadline,
            digest,
            size,
        );
    }

    /// Counts so many blobs as ever placed, no fewer than before: the next one gets the number behind.
    pub fn raise_placed(&mut self, placed: u32)
        requires { self.old.placed ≤ placed }
        ensures { self.new ≡ record self.old { placed = placed } }
    {
        self.placed = placed;
    }

    /// Adds the row of a blob that is not present, with the number that comes next. Its content lies at
    /// the units from a place on, which are inside and in the extent of no row; its bytes are to be
    /// brought by `fill`. The row is added at the end, as a new one of `put` is.
    pub fn put_at(&mut self, deadline: u64, digest: &Digest, size: u32, at: u32)
        requires fresh { blob_of self.old.rows digest.now ≡ None }
        requires few { length self.old.rows < self.old.store.names }
        requires number { self.old.placed + 1 < 2 ^ 32 }
        requires inside { at + units_of size ≤ self.old.store.units }
        requires free { IsTrue (is_free (map extent_of_row self.old.rows) (units_of size) at) }
        ensures rows { self.new.rows ≡ self.old.rows ++ new_blob (rows_in self.old) deadline digest.now size at ∷ [] }
        ensures placed { self.new.placed ≡ self.old.placed + 1 }
        ensures store { self.new.store ≡ record self.old.store {
          held = with_content (unfilled_content digest.now size (self.old.placed + 1) (extent_at (units_of size) at)) self.old.store.held;
        } }
        ensures stored { AreStored self.new.rows self.new.placed self.new.store.held }
    {
        row_changing::add_at(
            &mut self.rows,
            &mut self.store,
            self.placed,
            deadline,
            digest,
            size,
            at,
        );
        self.placed += 1;
    }

    /// Keeps the row of a number for so many seconds more: a bisection of the rows.
    pub fn keep_longer(&mut self, secs: u64, number: u32)
        requires { All (λ row. row.deadline + secs < 2 ^ 64) self.old.rows }
        ensures { self.new ≡ record self.old { rows = map (longer_kept secs number) self.old.rows } }
    {
        row_changing::keep_longer(&mut self.rows, secs, number);
    }

    /// Takes out the row of a number, and its content with it: a bisection of the rows, of which
    /// those before it or those behind it move, whichever are fewer, and a removal from the store.
    pub fn remove(&mut self, number: u32)
        ensures rows { self.new.rows ≡ filter (is_other number) self.old.rows }
        ensures placed { self.new.placed ≡ self.old.placed }
        ensures store { self.new.store ≡ record self.old.store { held = held_without (blob_numbered self.old.rows number) self.old.store.held } }
        ensures stored { AreStored self.new.rows self.new.placed self.new.store.held }
        ensures count { length self.new.rows ≤ length self.old.rows }
    {
        row_changing::remove(&mut self.rows, &mut self.store, number);
    }

    /// Brings the bytes of a row: a search of the store, and the hash and the copy of the bytes.
    pub fn fill(&mut self, digest: &Digest, bytes: &[u8]) -> Filled
        ensures told { result ≡ fill_result self.old.store.held digest.now bytes.now }
        ensures holds { self.new ≡ record self.old {
          store = record self.old.store { held = held_after_fill result digest.now bytes.now self.old.store.held };
        } }
    {
        self.store.fill(digest, bytes)
    }

    /// The same, where it is known that the digest is that of the bytes: they are not hashed.
    pub fn fill_known(&mut self, digest: &Digest, bytes: &[u8]) -> Filled
        requires named { sha256 bytes.now ≡ digest.now }
        ensures told { result ≡ fill_result self.old.store.held digest.now bytes.now }
        ensures holds { self.new ≡ record self.old {
          store = record self.old.store { held = held_after_fill result digest.now bytes.now self.old.store.held };
        } }
    {
        self.store.fill_known(digest, bytes)
    }

    /// The bytes of a row, once they came: a search of the store. They are lent, not copied.
    pub fn bytes(&self, digest: &Digest) -> Option<&[u8]>
        ensures lends { option_map (λ b. b.now) result ≡ bytes_of self.now.store.held digest.now }
        ensures named { IfSome result (λ b. sha256 b.now ≡ digest.now) }
        ensures sized { IfSome result (λ b. IsTrue (is_held_with_size self.now.store.held digest.now (length b.now))) }
    {
        self.store.get(digest)
    }
}
