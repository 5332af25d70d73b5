//! Units come into use and go out of it, over the sizes of the holes.
ghost use Rattle.std.specs.Prelude.{◌≡◌, ℕ, ◌+◌, ◌≤◌, ◌<◌, ◌^◌, ◌&&◌, ◌||◌, false, true, not, length};
ghost use Rattle.blob_rows.specs.Places.{overlaps};
ghost use Rattle.region.specs.HoleSizes.{size_at, is_in_hole, AreHoles, IsOutside, IsTaken, IsJoined, BeginsJoined};

use crate::Extent;
use crate::hole_sizes::HoleSizes;

/// Takes the first units of a hole into use. Those that are left are a hole behind them.
pub(crate) fn take_front(sizes: &mut HoleSizes, at: u32, units: u32)
    requires holes { AreHoles sizes.old }
    requires some { 1 ≤ units }
    requires room { units ≤ size_at sizes.old at }
    requires few { length sizes.old < 2 ^ 32 }
    ensures holes { AreHoles sizes.new }
    ensures taken { IsTaken sizes.old sizes.new at units }
    ensures count { length sizes.new ≡ length sizes.old }
{
    let size = sizes.get(at);
    sizes.set(at, 0);
    if size > units {
        sizes.set(at + units, size - units);
    }
}

/// Where the hole begins that an extent is part of, once it is free: at the hole before it, where
/// that one ends at the extent.
fn joined_start(sizes: &HoleSizes, place: u32) -> u32
    requires holes { AreHoles sizes.now }
    requires place { place ≤ length sizes.now }
    requires few { length sizes.now < 2 ^ 32 }
    ensures { BeginsJoined sizes.now place result }
{
    match sizes.last_before(place) {
        None => place,
        Some(start) => {
            if start + sizes.get(start) == place {
                start
            } else {
                place
            }
        }
    }
}

/// Makes the units of an extent free, in one hole with those that it touches.
pub(crate) fn give_back(sizes: &mut HoleSizes, extent: Extent)
    requires holes { AreHoles sizes.old }
    requires some { 1 ≤ extent.units }
    requires inside { extent.at + extent.units ≤ length sizes.old }
    requires outside { IsOutside sizes.old extent }
    requires few { length sizes.old < 2 ^ 32 }
    ensures joined { (start : ℕ) × BeginsJoined sizes.old extent.at start × IsJoined sizes.old sizes.new extent start }
    ensures count { length sizes.new ≡ length sizes.old }
{
    let start = joined_start(sizes, extent.at);
    let behind = extent.at + extent.units;
    let size_behind = sizes.get(behind);
    if size_behind > 0 {
        sizes.set(behind, 0);
    }
    sizes.set(start, behind + size_behind - start);
}

/// Takes the units of an extent into use, which lie in one hole: first all units of the hole up to the
/// end of the extent, of which those before the extent then become free again.
pub(crate) fn take_inside(sizes: &mut HoleSizes, start: u32, extent: Extent)
    requires holes { AreHoles sizes.old }
    requires some { 1 ≤ extent.units }
    requires behind { start ≤ extent.at }
    requires room { extent.at + extent.units ≤ start + size_at sizes.old start }
    requires few { length sizes.old < 2 ^ 32 }
    ensures holes { AreHoles sizes.new }
    ensures taken { (unit : ℕ) → is_in_hole sizes.new unit ≡ (is_in_hole sizes.old unit && not (overlaps unit 1 extent)) }
    ensures count { length sizes.new ≡ length sizes.old }
{
    let before = extent.at - start;
    take_front(sizes, start, before + extent.units);
    if before > 0 {
        give_back(
            sizes,
            Extent {
                at: start,
                units: before,
            },
        );
    }
}
