ghost use Rattle.std.specs.Prelude.{◌≡◌, ◌+◌, ◌≤◌, ◌<◌, false, [], map, length, IfOk, IfSome, IsTrue};
ghost use Rattle.std.specs.List.Sorted.{IsStrictlySortedBy};
ghost use Rattle.std.specs.Option.{option_map};
ghost use Rattle.sha2.specs.Sha256.{sha256};
ghost use Rattle.blob_rows.specs.Places.{is_free};
ghost use Rattle.blob_rows.specs.Extents.{extent_at, AreApart};
ghost use Rattle.blob_rows.specs.Digests.{digest_cmp};
ghost use Rattle.blob_rows.specs.BlobRows.{units_of};
ghost use Rattle.content_store.specs.Contents.{extent_of, number_of, is_held, is_held_with_size, bytes_of, unfilled_content, with_content, without_content};
ghost use Rattle.content_store.specs.Plain.{hold_result, held_after_hold, fill_result, held_after_fill};

use crate::slot::Slot;
use crate::{Digest, Filled, Held, filling, holding};
use placed_list::PlacedList;
use region::Region;
use std::alloc::{AllocError, Global};
use std::marker::Model;

/// Contents by their digests, each at its extent of a region. A name takes 64 bytes, and a unit 64
/// for what it holds and 4 in the region.
#[derive(Drop)]
pub struct ContentStore {
    region: Region,
    names: u32,
    /// Sorted by digest.
    slots: PlacedList<Slot>,
    /// The units of the region, up to the furthest content that came.
    bytes: Vec<u8>,
}

impl Model for ContentStore {
    ghost use Rattle.content_store.specs.Plain.{ContentStoreState};

    ghost Value = { ContentStoreState };

    ghost use Rattle.content_store.specs.Inside.{kept_of, IsKept};

    ghost view = { kept_of };

    ghost invariant = { IsKept };
}

impl ContentStore {
    /// A store of so many units of 64 bytes, which holds at most so many names and holds none yet.
    /// The memory of what its units hold is taken and not written to.
    ///
    /// # Errors
    ///
    /// There is no memory for so many units and names.
    pub fn new(alloc: Global, units: u32, names: u32) -> Result<ContentStore, AllocError>
        ensures { IfOk result (λ s. s ≡ record { units = units; names = names; held = [] }) }
    {
        Ok(ContentStore {
            region: Region::new(alloc, units)?,
            names,
            slots: PlacedList::with_capacity(alloc, names)?,
            bytes: Vec::with_capacity(alloc, units as usize * 64)?,
        })
    }

    /// What `hold` would answer.
    pub fn probe(&self, digest: &Digest, size: u32) -> Held
        ensures { result ≡ hold_result self.now digest.now size }
    {
        holding::probe(&self.region, &self.slots, self.names, digest, size)
    }

    /// The number of a held name.
    pub fn number_of(&self, digest: &Digest) -> Option<u32>
        ensures { result ≡ number_of self.now.held digest.now }
    {
        holding::number_of(&self.slots, digest)
    }

    /// Holds a name for a content of so many bytes, which are to be brought by `fill`, and gives it
    /// the number. A name that is held stays as it is, whatever its size and its number.
    pub fn hold(&mut self, digest: &Digest, size: u32, number: u32) -> Held
        ensures told { result ≡ hold_result self.old digest.now size }
        ensures holds { self.new ≡ record self.old { held = held_after_hold result digest.now size number self.old.held } }
        ensures apart { AreApart (map extent_of self.new.held) }
        ensures sorted { IsStrictlySortedBy digest_cmp (map (λ c. c.digest) self.new.held) }
    {
        holding::hold(
            &mut self.region,
            &mut self.slots,
            self.names,
            digest,
            size,
            number,
        )
    }

    /// Holds a name that is not held, for a content of so many bytes at the units from a place on, which
    /// lie inside and which no content has. Its bytes are to be brought by `fill`.
    pub fn hold_at(&mut self, digest: &Digest, size: u32, number: u32, at: u32)
        requires fresh { is_held self.old.held digest.now ≡ false }
        requires few { length self.old.held < self.old.names }
        requires inside { at + units_of size ≤ self.old.units }
        requires free { IsTrue (is_free (map extent_of self.old.held) (units_of size) at) }
        ensures holds { self.new ≡ record self.old {
          held = with_content (unfilled_content digest.now size number (extent_at (units_of size) at)) self.old.held;
        } }
        ensures apart { AreApart (map extent_of self.new.held) }
        ensures sorted { IsStrictlySortedBy digest_cmp (map (λ c. c.digest) self.new.held) }
    {
        holding::hold_at(&mut self.region, &mut self.slots, digest, size, number, at);
    }

    /// Brings the bytes of a held name, which are hashed and then copied to their place. Nothing
    /// changes where they are not those of the name and of its size. They may be brought again.
    pub fn fill(&mut self, digest: &Digest, bytes: &[u8]) -> Filled
        ensures told { result ≡ fill_result self.old.held digest.now bytes.now }
        ensures holds { self.new ≡ record self.old { held = held_after_fill result digest.now bytes.now self.old.held } }
    {
        filling::fill(
            &self.region,
            &mut self.slots,
            &mut self.bytes,
            digest,
            bytes,
        )
    }

    /// The same, where it is known that the name is the digest of the bytes: they are not hashed.
    pub fn fill_known(&mut self, digest: &Digest, bytes: &[u8]) -> Filled
        requires named { sha256 bytes.now ≡ digest.now }
        ensures told { result ≡ fill_result self.old.held digest.now bytes.now }
        ensures holds { self.new ≡ record self.old { held = held_after_fill result digest.now bytes.now self.old.held } }
    {
        filling::fill_known(
            &self.region,
            &mut self.slots,
            &mut self.bytes,
            digest,
            bytes,
        )
    }

    /// The bytes of a held name, once they came.
    pub fn get(&self, digest: &Digest) -> Option<&[u8]>
        ensures lends { option_map (λ b. b.now) result ≡ bytes_of self.now.held digest.now }
        ensures named { IfSome result (λ b. sha256 b.now ≡ digest.now) }
        ensures sized { IfSome result (λ b. IsTrue (is_held_with_size self.now.held digest.now (length b.now))) }
    {
        filling::get(&self.slots, self.bytes.as_slice(), digest)
    }

    /// Lets go of a name, of its bytes and of its extent, and tells whether it was held.
    pub fn remove(&mut self, digest: &Digest) -> bool
        ensures told { result ≡ is_held self.old.held digest.now }
        ensures holds { self.new ≡ record self.old { held = without_content digest.now self.old.held } }
    {
        holding::remove(&mut self.region, &mut self.slots, digest)
    }
}
