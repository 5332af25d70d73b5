//! Puts and removals, over the rows and the store.
ghost use Rattle.std.specs.Prelude.{◌≡◌, ℕ, ◌+◌, ◌<◌, ◌≤◌, ◌^◌, ◌++◌, ◌∷◌, [], false, map, length, None, IsTrue, slice_index_or, slice_set};
ghost use Rattle.std.specs.List.{filter, remove, All};
ghost use Rattle.std.specs.VecDeque.{deque_len, deque_capacity};
ghost use Rattle.blob_rows.specs.Places.{is_free};
ghost use Rattle.blob_rows.specs.Extents.{extent_at};
ghost use Rattle.blob_rows.specs.BlobRows.{blob_of, blob_numbered, is_other, renewed, longer_kept, units_of, new_blob, put};
ghost use Rattle.blob_rows.specs.declared.blob_row.BlobRow.{BlobRow};
ghost use Rattle.content_store.specs.Contents.{extent_of, is_held, unfilled_content, with_content};
ghost use Rattle.content_store.specs.Plain.{hold_result, held_after_hold};
ghost use Rattle.content_store.specs.RowOrder.{NumbersRise};
ghost use Rattle.content_store.specs.StoredRows.{AreStored, held_without, rows_beside};

use crate::row_places::{place_of_digest, place_of_number};
use crate::slot::units_of;
use crate::{BlobRow, ContentStore, Digest, Held};
use region::Extent;
use std::collections::VecDeque;

/// Adds a row for which there is room.
fn push(rows: &mut VecDeque<BlobRow>, row: BlobRow)
    requires { deque_len rows.old < deque_capacity rows.old }
    ensures items { rows.new.items ≡ rows.old.items ++ row ∷ [] }
    ensures count { length rows.new.items ≡ length rows.old.items + 1 }
    ensures room { deque_capacity rows.new ≡ deque_capacity rows.old }
{
    rows.push_back_reserved(row);
}

/// Places a blob that is not present, where there is a place, and answers how many were placed.
fn add(
    rows: &mut VecDeque<BlobRow>,
    store: &mut ContentStore,
    placed: u32,
    deadline: u64,
    digest: &Digest,
    size: u32,
) -> u32
    requires stored { AreStored rows.old.items placed store.old.held }
    requires rising { NumbersRise rows.old.items }
    requires fresh { is_held store.old.held digest.now ≡ false }
    requires few { length store.old.held < store.old.names }
    requires room { deque_len rows.old < deque_capacity rows.old }
    requires number { placed + 1 < 2 ^ 32 }
    ensures rows { rows_beside rows.new.items result store.new ≡ put (rows_beside rows.old.items placed store.old) deadline digest.now size }
    ensures store { store.new ≡ record store.old {
      held = held_after_hold (hold_result store.old digest.now size) digest.now size (placed + 1) store.old.held;
    } }
    ensures stored { AreStored rows.new.items result store.new.held }
    ensures rising { NumbersRise rows.new.items }
    ensures count { length rows.new.items ≤ length rows.old.items + 1 }
    ensures placed { result ≤ placed + 1 }
    ensures room { deque_capacity rows.old ≤ deque_capacity rows.new }
{
    match store.hold(digest, size, placed + 1) {
        Held::Placed(extent) => {
            push(
                rows,
                BlobRow {
                    no: placed + 1,
                    digest: *digest,
                    size,
                    extent,
                    deadline,
                },
            );
            placed + 1
        }
        _ => placed,
    }
}

/// The row of a blob that lies at a place.
fn new_row(number: u32, deadline: u64, digest: &Digest, size: u32, at: u32) -> BlobRow
    ensures { result ≡ record { no = number; digest = digest.now; size = size; extent = extent_at (units_of size) at; deadline = deadline } }
{
    BlobRow {
        no: number,
        digest: *digest,
        size,
        extent: Extent {
            at,
            units: units_of(size),
        },
        deadline,
    }
}

/// Adds a blob that is not present, with the number that comes next, at units that are free.
pub(crate) fn add_at(
    rows: &mut VecDeque<BlobRow>,
    store: &mut ContentStore,
    placed: u32,
    deadline: u64,
    digest: &Digest,
    size: u32,
    at: u32,
)
    requires stored { AreStored rows.old.items placed store.old.held }
    requires rising { NumbersRise rows.old.items }
    requires fresh { is_held store.old.held digest.now ≡ false }
    requires few { length store.old.held < store.old.names }
    requires room { deque_len rows.old < deque_capacity rows.old }
    requires number { placed + 1 < 2 ^ 32 }
    requires inside { at + units_of size ≤ store.old.units }
    requires free { IsTrue (is_free (map extent_of store.old.held) (units_of size) at) }
    ensures rows { rows.new.items ≡ rows.old.items ++ new_blob (rows_beside rows.old.items placed store.old) deadline digest.now size at ∷ [] }
    ensures store { store.new ≡ record store.old {
      held = with_content (unfilled_content digest.now size (placed + 1) (extent_at (units_of size) at)) store.old.held;
    } }
    ensures stored { AreStored rows.new.items (placed + 1) store.new.held }
    ensures rising { NumbersRise rows.new.items }
    ensures room { deque_capacity rows.old ≤ deque_capacity rows.new }
{
    store.hold_at(digest, size, placed + 1, at);
    push(rows, new_row(placed + 1, deadline, digest, size, at));
}

/// Keeps the row at a place until then.
fn renew_at(rows: &mut VecDeque<BlobRow>, index: usize, deadline: u64)
    requires { index < length rows.old.items }
    ensures items { (d : BlobRow) →
        rows.new.items ≡ slice_set rows.old.items index (renewed deadline (slice_index_or rows.old.items index d)) }
    ensures count { length rows.new.items ≡ length rows.old.items }
    ensures room { deque_capacity rows.new ≡ deque_capacity rows.old }
{
    let row = &mut rows[index];
    row.deadline = deadline;
}

/// Renews a blob that is present, and places any other; answers how many were placed.
pub(crate) fn put(
    rows: &mut VecDeque<BlobRow>,
    store: &mut ContentStore,
    placed: u32,
    deadline: u64,
    digest: &Digest,
    size: u32,
) -> u32
    requires stored { AreStored rows.old.items placed store.old.held }
    requires rising { NumbersRise rows.old.items }
    requires few { blob_of rows.old.items digest.now ≡ None → length rows.old.items < store.old.names }
    requires room { store.old.names ≤ deque_capacity rows.old }
    requires number { placed + 1 < 2 ^ 32 }
    ensures rows { rows_beside rows.new.items result store.new ≡ put (rows_beside rows.old.items placed store.old) deadline digest.now size }
    ensures store { store.new ≡ record store.old {
      held = held_after_hold (hold_result store.old digest.now size) digest.now size (placed + 1) store.old.held;
    } }
    ensures stored { AreStored rows.new.items result store.new.held }
    ensures rising { NumbersRise rows.new.items }
    ensures count { length rows.new.items ≤ length rows.old.items + 1 }
    ensures placed { result ≤ placed + 1 }
    ensures room { deque_capacity rows.old ≤ deque_capacity rows.new }
{
    match place_of_digest(rows, store, digest) {
        Some(index) => {
            renew_at(rows, index, deadline);
            placed
        }
        None => add(rows, store, placed, deadline, digest, size),
    }
}

/// Keeps the row of a number for so many seconds more.
pub(crate) fn keep_longer(rows: &mut VecDeque<BlobRow>, secs: u64, number: u32)
    requires rising { NumbersRise rows.old.items }
    requires early { All (λ row. row.deadline + secs < 2 ^ 64) rows.old.items }
    ensures items { rows.new.items ≡ map (longer_kept secs number) rows.old.items }
    ensures room { deque_capacity rows.new ≡ deque_capacity rows.old }
{
    if let Some(index) = place_of_number(rows, number) {
        let later = rows[index].deadline + secs;
        renew_at(rows, index, later);
    }
}

/// Takes out the row at a place.
fn take_out(rows: &mut VecDeque<BlobRow>, index: usize) -> BlobRow
    requires { index < length rows.old.items }
    ensures row { result ≡ slice_index_or rows.old.items index result }
    ensures items { rows.new.items ≡ remove rows.old.items index }
    ensures count { length rows.new.items ≤ length rows.old.items }
    ensures room { deque_capacity rows.new ≡ deque_capacity rows.old }
{
    match rows.remove(index) {
        Some(row) => row,
        None => unreachable!(),
    }
}

/// Takes out the row of a number, and its content with it: its extent is free again.
pub(crate) fn remove(rows: &mut VecDeque<BlobRow>, store: &mut ContentStore, number: u32)
    requires stored { (placed : ℕ) × AreStored rows.old.items placed store.old.held }
    requires rising { NumbersRise rows.old.items }
    ensures rows { rows.new.items ≡ filter (is_other number) rows.old.items }
    ensures store { store.new ≡ record store.old { held = held_without (blob_numbered rows.old.items number) store.old.held } }
    ensures stored { (placed : ℕ) → AreStored rows.old.items placed store.old.held → AreStored rows.new.items placed store.new.held }
    ensures count { length rows.new.items ≤ length rows.old.items }
    ensures room { deque_capacity rows.new ≡ deque_capacity rows.old }
{
    if let Some(index) = place_of_number(rows, number) {
        let row = take_out(rows, index);
        store.remove(&row.digest);
    }
}
