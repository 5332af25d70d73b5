//! Bytes come for the names that are held, and are lent.
ghost use Rattle.std.specs.Prelude.{◌≡◌, ◌+◌, ◌*◌, ◌≤◌, ◌<◌, map, length, slice_index_or, slice_set, vec_capacity, IfSome, IsTrue};
ghost use Rattle.std.specs.Bool.{OnTrue};
ghost use Rattle.std.specs.List.{HoldsAt};
ghost use Rattle.std.specs.List.Sorted.{IsStrictlySortedBy};
ghost use Rattle.std.specs.Option.{option_map};
ghost use Rattle.sha2.specs.Sha256.{sha256};
ghost use Rattle.blob_rows.specs.Digests.{digest_cmp};
ghost use Rattle.content_store.specs.Contents.{is_held_with_size, filled_with, bytes_of};
ghost use Rattle.content_store.specs.Plain.{fill_result, held_after_fill};
ghost use Rattle.content_store.specs.Slots.{digest_of, content_in, filled_slot, IsAt, AreLaidOut, IsThere, AreThere, IsWritten};

use crate::searching::place_of;
use crate::slot::Slot;
use crate::writing::{part, write};
use crate::{Digest, Filled};
use placed_list::PlacedList;
use region::Region;
use sha2::{Digest as Hash, Sha256};

fn hash(content: &[u8]) -> Digest
    ensures { result ≡ sha256 content.now }
{
    Sha256::digest(content)
}

/// Marks that the bytes of the slot at a place came.
fn mark(slots: &mut PlacedList<Slot>, index: usize)
    requires { index < length slots.old.items }
    ensures items { (d : Slot) → slots.new.items ≡ slice_set slots.old.items index (filled_slot (slice_index_or slots.old.items index d)) }
    ensures room { slots.new.room ≡ slots.old.room }
{
    let mut slot = slots[index];
    slot.is_filled = true;
    slots.set(index, slot);
}

/// Copies a content to the place of its slot.
fn write_at(slot: Slot, bytes: &mut Vec<u8>, content: &[u8])
    requires { slot.at * 64 + length content.now ≤ vec_capacity bytes.old }
    ensures written { IsWritten bytes.old.items bytes.new.items (slot.at * 64) content.now }
    ensures room { vec_capacity bytes.old ≤ vec_capacity bytes.new }
{
    write(bytes, slot.at as usize * 64, content);
}

/// Brings the bytes for the slot at a place, whose size they have.
fn fill_at(
    region: &Region,
    slots: &mut PlacedList<Slot>,
    bytes: &mut Vec<u8>,
    index: usize,
    digest: &Digest,
    content: &[u8],
)
    requires laid_out { AreLaidOut region.now slots.old.items }
    requires there { AreThere bytes.old.items slots.old.items }
    requires room { region.now.units * 64 ≤ vec_capacity bytes.old }
    requires at { IsAt (map digest_of slots.old.items) digest.now index }
    requires sized { HoldsAt (λ slot. slot.size ≡ length content.now) slots.old.items index }
    requires named { sha256 content.now ≡ digest.now }
    ensures holds { map (content_in bytes.new.items) slots.new.items ≡
        map (filled_with digest.now content.now) (map (content_in bytes.old.items) slots.old.items) }
    ensures laid_out { AreLaidOut region.now slots.new.items }
    ensures there { AreThere bytes.new.items slots.new.items }
    ensures bytes_room { vec_capacity bytes.old ≤ vec_capacity bytes.new }
    ensures slots_room { slots.new.room ≡ slots.old.room }
{
    let slot = slots[index];
    write_at(slot, bytes, content);
    mark(slots, index);
}

/// Brings the bytes of a name that is known to be their digest, where they are of its size.
pub(crate) fn fill_known(
    region: &Region,
    slots: &mut PlacedList<Slot>,
    bytes: &mut Vec<u8>,
    digest: &Digest,
    content: &[u8],
) -> Filled
    requires laid_out { AreLaidOut region.now slots.old.items }
    requires there { AreThere bytes.old.items slots.old.items }
    requires room { region.now.units * 64 ≤ vec_capacity bytes.old }
    requires named { sha256 content.now ≡ digest.now }
    ensures told { result ≡ fill_result (map (content_in bytes.old.items) slots.old.items) digest.now content.now }
    ensures holds { map (content_in bytes.new.items) slots.new.items ≡
        held_after_fill result digest.now content.now (map (content_in bytes.old.items) slots.old.items) }
    ensures laid_out { AreLaidOut region.now slots.new.items }
    ensures there { AreThere bytes.new.items slots.new.items }
    ensures bytes_room { vec_capacity bytes.old ≤ vec_capacity bytes.new }
    ensures slots_room { slots.new.room ≡ slots.old.room }
{
    match place_of(slots, digest) {
        Err(_) => Filled::Unknown,
        Ok(index) => {
            if slots[index].size as usize != content.len() {
                return Filled::Unknown;
            }
            fill_at(region, slots, bytes, index, digest, content);
            Filled::Done
        }
    }
}

/// Brings the bytes of a name, where they are those of the name and of its size.
pub(crate) fn fill(
    region: &Region,
    slots: &mut PlacedList<Slot>,
    bytes: &mut Vec<u8>,
    digest: &Digest,
    content: &[u8],
) -> Filled
    requires laid_out { AreLaidOut region.now slots.old.items }
    requires there { AreThere bytes.old.items slots.old.items }
    requires room { region.now.units * 64 ≤ vec_capacity bytes.old }
    ensures told { result ≡ fill_result (map (content_in bytes.old.items) slots.old.items) digest.now content.now }
    ensures holds { map (content_in bytes.new.items) slots.new.items ≡
        held_after_fill result digest.now content.now (map (content_in bytes.old.items) slots.old.items) }
    ensures laid_out { AreLaidOut region.now slots.new.items }
    ensures there { AreThere bytes.new.items slots.new.items }
    ensures bytes_room { vec_capacity bytes.old ≤ vec_capacity bytes.new }
    ensures slots_room { slots.new.room ≡ slots.old.room }
{
    let actual = hash(content);
    if actual != *digest {
        return Filled::Differs(actual);
    }
    fill_known(region, slots, bytes, digest, content)
}

/// The bytes of a slot, once they are there.
fn lend(slot: Slot, bytes: &[u8]) -> Option<&[u8]>
    requires { OnTrue slot.is_filled (IsThere bytes.now slot) }
    ensures lends { option_map (λ b. b.now) result ≡ (content_in bytes.now slot).bytes }
    ensures named { IfSome result (λ b. sha256 b.now ≡ slot.digest) }
    ensures sized { IfSome result (λ b. length b.now ≡ slot.size) }
{
    if slot.is_filled {
        Some(part(bytes, slot.at as usize * 64, slot.size as usize))
    } else {
        None
    }
}

/// The bytes that are held under a name.
pub(crate) fn get<'a>(
    slots: &PlacedList<Slot>,
    bytes: &'a [u8],
    digest: &Digest,
) -> Option<&'a [u8]>
    requires sorted { IsStrictlySortedBy digest_cmp (map digest_of slots.now.items) }
    requires there { AreThere bytes.now slots.now.items }
    ensures lends { option_map (λ b. b.now) result ≡ bytes_of (map (content_in bytes.now) slots.now.items) digest.now }
    ensures named { IfSome result (λ b. sha256 b.now ≡ digest.now) }
    ensures sized { IfSome result (λ b. IsTrue (is_held_with_size (map (content_in bytes.now) slots.now.items) digest.now (length b.now))) }
{
    match place_of(slots, digest) {
        Err(_) => None,
        Ok(index) => lend(slots[index], bytes),
    }
}
