//! Names come and go, over the parts of a store.
ghost use Rattle.std.specs.Prelude.{◌≡◌, ℕ, ◌+◌, ◌≤◌, ◌<◌, true, false, List, map, length, IsTrue};
ghost use Rattle.std.specs.List.{insert, remove, Contains};
ghost use Rattle.std.specs.List.Sorted.{IsStrictlySortedBy};
ghost use Rattle.blob_rows.specs.declared.extent.Extent.{Extent};
ghost use Rattle.blob_rows.specs.Places.{is_free, overlaps};
ghost use Rattle.blob_rows.specs.Extents.{extent_at, without_extent};
ghost use Rattle.blob_rows.specs.Digests.{digest_cmp};
ghost use Rattle.blob_rows.specs.BlobRows.{units_of};
ghost use Rattle.region.specs.Plain.{is_free_unit};
ghost use Rattle.region.specs.FreeUnits.{IsFreeBeside, AreInUse, least_extent, with_placed};
ghost use Rattle.content_store.specs.Contents.{number_of, is_held, unfilled_content, with_content, without_content};
ghost use Rattle.content_store.specs.Plain.{hold_result, held_after_hold};
ghost use Rattle.content_store.specs.Slots.{digest_of, extent_of_slot, content_in, state_in, BelongsAt, AreLaidOut, AreThere};

use crate::searching::place_of;
use crate::slot::{Slot, units_of};
use crate::{Digest, Held};
use placed_list::PlacedList;
use region::{Extent, Region};

/// The extent of a content of this size, at its least place.
fn find_for(region: &Region, size: u32) -> Option<Extent>
    ensures { (extents : List Extent) → IsFreeBeside region.now extents → result ≡ least_extent extents region.now.units (units_of size) }
{
    region.find(units_of(size))
}

/// Takes that extent into use.
fn place_for(region: &mut Region, size: u32) -> Option<Extent>
    ensures least { (extents : List Extent) → IsFreeBeside region.old extents → result ≡ least_extent extents region.old.units (units_of size) }
    ensures adds { (extents : List Extent) (index : ℕ) → IsFreeBeside region.old extents →
        IsFreeBeside region.new (with_placed result index extents) }
    ensures units { region.new.units ≡ region.old.units }
{
    region.place(units_of(size))
}

/// Takes the units of a content of this size into use that begin at a place, each of which is free.
fn take_at(region: &mut Region, size: u32, at: u32)
    requires inside { at + units_of size ≤ region.old.units }
    requires free { (unit : ℕ) → overlaps unit 1 (extent_at (units_of size) at) ≡ true → is_free_unit region.old unit ≡ true }
    ensures adds { (extents : List Extent) (index : ℕ) → IsFreeBeside region.old extents →
        IsFreeBeside region.new (insert extents index (extent_at (units_of size) at)) }
    ensures units { region.new.units ≡ region.old.units }
{
    region.place_at(Extent {
        at,
        units: units_of(size),
    });
}

/// Makes the extent of a slot free again.
fn give_back(region: &mut Region, slot: Slot)
    requires { (extents : List Extent) × Contains extents (extent_of_slot slot) × AreInUse region.old extents }
    ensures frees { (extents : List Extent) → Contains extents (extent_of_slot slot) → AreInUse region.old extents →
        IsFreeBeside region.new (without_extent (extent_of_slot slot) extents) }
    ensures units { region.new.units ≡ region.old.units }
{
    region.give_back(Extent {
        at: slot.at,
        units: units_of(slot.size),
    });
}

/// What `hold` would answer.
pub(crate) fn probe(
    region: &Region,
    slots: &PlacedList<Slot>,
    names: u32,
    digest: &Digest,
    size: u32,
) -> Held
    requires { AreLaidOut region.now slots.now.items }
    ensures { (bytes : List ℕ) → result ≡ hold_result (state_in region.now.units names bytes slots.now.items) digest.now size }
{
    match place_of(slots, digest) {
        Ok(_) => Held::Present,
        Err(_) => {
            if slots.len() >= names as usize {
                return Held::NoNames;
            }
            match find_for(region, size) {
                None => Held::NoRoom,
                Some(extent) => Held::Placed(extent),
            }
        }
    }
}

/// The number of a name that is held.
pub(crate) fn number_of(slots: &PlacedList<Slot>, digest: &Digest) -> Option<u32>
    requires { IsStrictlySortedBy digest_cmp (map digest_of slots.now.items) }
    ensures { (bytes : List ℕ) → result ≡ number_of (map (content_in bytes) slots.now.items) digest.now }
{
    match place_of(slots, digest) {
        Err(_) => None,
        Ok(index) => Some(slots[index].number),
    }
}

/// Holds a new name, which belongs at a place of the list, where its content finds a place.
fn add(
    region: &mut Region,
    slots: &mut PlacedList<Slot>,
    index: usize,
    digest: &Digest,
    size: u32,
    number: u32,
) -> Held
    requires laid_out { AreLaidOut region.old slots.old.items }
    requires belongs { BelongsAt (map digest_of slots.old.items) digest.now index }
    requires room { length slots.old.items < slots.old.room }
    ensures told { (names : ℕ) (bytes : List ℕ) → length slots.old.items < names →
        result ≡ hold_result (state_in region.old.units names bytes slots.old.items) digest.now size }
    ensures holds { (bytes : List ℕ) →
        map (content_in bytes) slots.new.items ≡ held_after_hold result digest.now size number (map (content_in bytes) slots.old.items) }
    ensures laid_out { AreLaidOut region.new slots.new.items }
    ensures there { (bytes : List ℕ) → AreThere bytes slots.old.items → AreThere bytes slots.new.items }
    ensures units { region.new.units ≡ region.old.units }
    ensures room { slots.new.room ≡ slots.old.room }
{
    match place_for(region, size) {
        None => Held::NoRoom,
        Some(extent) => {
            let slot = Slot {
                digest: *digest,
                size,
                number,
                at: extent.at,
                is_filled: false,
            };
            slots.insert_reserved(index, slot);
            Held::Placed(extent)
        }
    }
}

/// Holds a name, where it is new and may be held.
pub(crate) fn hold(
    region: &mut Region,
    slots: &mut PlacedList<Slot>,
    names: u32,
    digest: &Digest,
    size: u32,
    number: u32,
) -> Held
    requires laid_out { AreLaidOut region.old slots.old.items }
    requires room { names ≤ slots.old.room }
    ensures told { (bytes : List ℕ) → result ≡ hold_result (state_in region.old.units names bytes slots.old.items) digest.now size }
    ensures holds { (bytes : List ℕ) →
        map (content_in bytes) slots.new.items ≡ held_after_hold result digest.now size number (map (content_in bytes) slots.old.items) }
    ensures laid_out { AreLaidOut region.new slots.new.items }
    ensures there { (bytes : List ℕ) → AreThere bytes slots.old.items → AreThere bytes slots.new.items }
    ensures units { region.new.units ≡ region.old.units }
    ensures room { slots.new.room ≡ slots.old.room }
{
    match place_of(slots, digest) {
        Ok(_) => Held::Present,
        Err(index) => {
            if slots.len() >= names as usize {
                return Held::NoNames;
            }
            add(region, slots, index, digest, size, number)
        }
    }
}

/// Holds a new name, which belongs at a place of the list, for a content at units that are free.
fn add_at(
    region: &mut Region,
    slots: &mut PlacedList<Slot>,
    index: usize,
    digest: &Digest,
    size: u32,
    number: u32,
    at: u32,
)
    requires laid_out { AreLaidOut region.old slots.old.items }
    requires belongs { BelongsAt (map digest_of slots.old.items) digest.now index }
    requires room { length slots.old.items < slots.old.room }
    requires inside { at + units_of size ≤ region.old.units }
    requires free { IsTrue (is_free (map extent_of_slot slots.old.items) (units_of size) at) }
    ensures holds { (bytes : List ℕ) → map (content_in bytes) slots.new.items ≡
        with_content (unfilled_content digest.now size number (extent_at (units_of size) at)) (map (content_in bytes) slots.old.items) }
    ensures laid_out { AreLaidOut region.new slots.new.items }
    ensures there { (bytes : List ℕ) → AreThere bytes slots.old.items → AreThere bytes slots.new.items }
    ensures units { region.new.units ≡ region.old.units }
    ensures room { slots.new.room ≡ slots.old.room }
{
    take_at(region, size, at);
    slots.insert_reserved(
        index,
        Slot {
            digest: *digest,
            size,
            number,
            at,
            is_filled: false,
        },
    );
}

/// Holds a name that is not held, for a content at units that are free.
pub(crate) fn hold_at(
    region: &mut Region,
    slots: &mut PlacedList<Slot>,
    digest: &Digest,
    size: u32,
    number: u32,
    at: u32,
)
    requires laid_out { AreLaidOut region.old slots.old.items }
    requires fresh { (bytes : List ℕ) × (is_held (map (content_in bytes) slots.old.items) digest.now ≡ false) }
    requires room { length slots.old.items < slots.old.room }
    requires inside { at + units_of size ≤ region.old.units }
    requires free { IsTrue (is_free (map extent_of_slot slots.old.items) (units_of size) at) }
    ensures holds { (bytes : List ℕ) → map (content_in bytes) slots.new.items ≡
        with_content (unfilled_content digest.now size number (extent_at (units_of size) at)) (map (content_in bytes) slots.old.items) }
    ensures laid_out { AreLaidOut region.new slots.new.items }
    ensures there { (bytes : List ℕ) → AreThere bytes slots.old.items → AreThere bytes slots.new.items }
    ensures units { region.new.units ≡ region.old.units }
    ensures room { slots.new.room ≡ slots.old.room }
{
    match place_of(slots, digest) {
        Ok(_) => unreachable!(),
        Err(index) => add_at(region, slots, index, digest, size, number, at),
    }
}

/// Lets go of the name at a place of the list, and of its extent.
fn remove_at(region: &mut Region, slots: &mut PlacedList<Slot>, index: usize)
    requires laid_out { AreLaidOut region.old slots.old.items }
    requires index { index < length slots.old.items }
    ensures items { slots.new.items ≡ remove slots.old.items index }
    ensures laid_out { AreLaidOut region.new slots.new.items }
    ensures units { region.new.units ≡ region.old.units }
    ensures room { slots.new.room ≡ slots.old.room }
{
    let slot = slots.remove(index);
    give_back(region, slot);
}

/// Lets go of a name, where it is held.
pub(crate) fn remove(region: &mut Region, slots: &mut PlacedList<Slot>, digest: &Digest) -> bool
    requires { AreLaidOut region.old slots.old.items }
    ensures told { (bytes : List ℕ) → result ≡ is_held (map (content_in bytes) slots.old.items) digest.now }
    ensures holds { (bytes : List ℕ) →
        map (content_in bytes) slots.new.items ≡ without_content digest.now (map (content_in bytes) slots.old.items) }
    ensures laid_out { AreLaidOut region.new slots.new.items }
    ensures there { (bytes : List ℕ) → AreThere bytes slots.old.items → AreThere bytes slots.new.items }
    ensures units { region.new.units ≡ region.old.units }
    ensures room { slots.new.room ≡ slots.old.room }
{
    match place_of(slots, digest) {
        Err(_) => false,
        Ok(index) => {
            remove_at(region, slots, index);
            true
        }
    }
}
