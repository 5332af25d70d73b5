//! Where rows stand, which are in the order of their numbers.
ghost use Rattle.std.specs.Prelude.{◌≡◌, ℕ, position, slice_get};
ghost use Rattle.std.specs.Option.{option_copied};
ghost use Rattle.blob_rows.specs.BlobRows.{has_digest, is_blob, blob_of, blob_numbered};
ghost use Rattle.content_store.specs.RowOrder.{NumbersRise};
ghost use Rattle.content_store.specs.StoredRows.{AreStored};

use crate::{BlobRow, ContentStore, Digest};
use std::collections::VecDeque;

/// The place of the row of a number, by bisection.
pub(crate) fn place_of_number(rows: &VecDeque<BlobRow>, number: u32) -> Option<usize>
    requires { NumbersRise rows.now.items }
    ensures { result ≡ position (is_blob number) rows.now.items }
{
    rows.binary_search_by_key(&number, |row| row.no).ok()
}

/// The place of the row of a digest, whose number the store tells.
pub(crate) fn place_of_digest(
    rows: &VecDeque<BlobRow>,
    store: &ContentStore,
    digest: &Digest,
) -> Option<usize>
    requires stored { (placed : ℕ) × AreStored rows.now.items placed store.now.held }
    requires rising { NumbersRise rows.now.items }
    ensures { result ≡ position (has_digest digest.now) rows.now.items }
{
    match store.number_of(digest) {
        None => None,
        Some(number) => place_of_number(rows, number),
    }
}

/// The row at a place.
pub(crate) fn row_at(rows: &VecDeque<BlobRow>, at: usize) -> Option<&BlobRow>
    ensures { option_copied result ≡ slice_get rows.now.items at }
{
    rows.get(at)
}

pub(crate) fn blob_of<'a>(
    rows: &'a VecDeque<BlobRow>,
    store: &ContentStore,
    digest: &Digest,
) -> Option<&'a BlobRow>
    requires stored { (placed : ℕ) × AreStored rows.now.items placed store.now.held }
    requires rising { NumbersRise rows.now.items }
    ensures { option_copied result ≡ blob_of rows.now.items digest.now }
{
    match place_of_digest(rows, store, digest) {
        None => None,
        Some(at) => row_at(rows, at),
    }
}

pub(crate) fn blob_numbered(rows: &VecDeque<BlobRow>, number: u32) -> Option<&BlobRow>
    requires { NumbersRise rows.now.items }
    ensures { option_copied result ≡ blob_numbered rows.now.items number }
{
    match place_of_number(rows, number) {
        None => None,
        Some(at) => row_at(rows, at),
    }
}
