ghost use Rattle.std.specs.Prelude.{◌≡◌, ◌≤◌, length, All, MatchBool};
ghost use Rattle.std.specs.List.{AllAdjacentBelow};
ghost use Rattle.blob_rows.specs.Places.{overlaps};
ghost use Rattle.blob_rows.specs.Extents.{AreApart};
ghost use Rattle.base_checks.specs.Keys.{ShareNone, IsFull};

use blob_rows::Extent;

/// Whether two extents share a unit.
fn overlaps(one: Extent, other: Extent) -> bool
    ensures { result ≡ overlaps one.at one.units other }
{
    (other.at as u64) < one.at as u64 + one.units as u64
        && (one.at as u64) < other.at as u64 + other.units as u64
}

/// Whether two extents that stand side by side share a unit.
fn has_overlap(extents: &[Extent]) -> bool
    ensures { MatchBool result (AreApart extents.now → ⊥) (AllAdjacentBelow ShareNone extents.now (length extents.now)) }
{
    for place in 1..extents.len() {
        if overlaps(extents[place - 1], extents[place]) {
            return true;
        }
    }
    false
}

/// Whether two of the extents, each of a unit at least, share a unit. It sorts them, in place, by
/// their first units, and compares neighbours.
pub fn extents_overlap(extents: &mut [Extent]) -> bool
    requires full { All IsFull extents.old }
    ensures { MatchBool result (AreApart extents.old → ⊥) (AreApart extents.old) }
{
    extents.sort_unstable_by_key(|extent| extent.at);
    has_overlap(extents)
}
