//! Where a name stands among those that are held.
ghost use Rattle.std.specs.Prelude.{◌≡◌, ◌≤◌, ◌<◌, map, length};
ghost use Rattle.std.specs.Result.{MatchResult};
ghost use Rattle.std.specs.List.Sorted.{IsStrictlySortedBy};
ghost use Rattle.blob_rows.specs.Digests.{digest_cmp};
ghost use Rattle.content_store.specs.Slots.{digest_of, IsAt, BelongsAt};

use crate::Digest;
use crate::slot::Slot;
use placed_list::PlacedList;
use std::cmp::Ordering;

/// The place of a name, or the place to which it belongs.
pub(crate) fn place_of(slots: &PlacedList<Slot>, digest: &Digest) -> Result<usize, usize>
    requires { IsStrictlySortedBy digest_cmp (map digest_of slots.now.items) }
    ensures { MatchResult result (IsAt (map digest_of slots.now.items) digest.now) (BelongsAt (map digest_of slots.now.items) digest.now) }
{
    let mut low = 0;
    let mut high = slots.len();
    while low < high {
        let middle = low + (high - low) / 2;
        match slots[middle].digest.cmp(digest) {
            Ordering::Less => low = middle + 1,
            Ordering::Equal => return Ok(middle),
            Ordering::Greater => high = middle,
        }
    }
    Err(low)
}
