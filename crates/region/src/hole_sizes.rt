//! The sizes of holes, at the units at which they start, with an index of the greatest ones.
ghost use Rattle.std.specs.Prelude.{◌≡◌, ℕ, ◌+◌, ◌-◌, ◌/◌, ◌≤◌, ◌<◌, ◌^◌, length, slice_index_or, slice_set, IfOk, replicate};
ghost use Rattle.std.specs.Option.{MatchOption};
ghost use Rattle.region.specs.HoleSizes.{size_at, IsFirstWith, IsLastBefore};
ghost use Rattle.region.specs.SizesInside.{AreGreatest, AreGreatestBeside};

use std::alloc::{AllocError, Global};
use std::marker::Model;

/// How many units in a row make up a band.
const BAND: usize = 2048;

/// For each unit of a region, how many units the hole has that starts there, or 0 where none
/// starts. Contracts see the list of these numbers.
///
/// The greatest number of each band of 2048 units is kept too. So a search passes over a band by
/// one comparison, and looks at the numbers of at most two bands.
#[derive(Drop)]
pub(crate) struct HoleSizes {
    sizes: Vec<u32>,
    greatest: Vec<u32>,
}

impl Model for HoleSizes {
    ghost use Rattle.std.specs.Prelude.{List, ℕ};

    ghost Value = { List ℕ };

    ghost use Rattle.region.specs.SizesInside.{sizes_of, IsIndexed};

    ghost view = { sizes_of };

    ghost invariant = { IsIndexed };
}

/// So many zeros.
fn zeros(alloc: Global, count: usize) -> Result<Vec<u32>, AllocError>
    ensures { IfOk result (λ numbers. numbers.items ≡ replicate count 0) }
{
    let mut numbers = Vec::new(alloc);
    numbers.resize(count, 0)?;
    Ok(numbers)
}

/// The first place from one on with at least so great a number, or the end.
fn first_from(numbers: &[u32], from: usize, least: u32) -> usize
    requires { from ≤ length numbers.now }
    ensures inside { from ≤ result × result ≤ length numbers.now }
    ensures passed { (k : ℕ) → from ≤ k → k < result → slice_index_or numbers.now k 0 < least }
    ensures found { result < length numbers.now → least ≤ slice_index_or numbers.now result 0 }
{
    let mut at = from;
    while at < numbers.len() && numbers[at] < least {
        at += 1;
    }
    at
}

/// The place behind the last number of a part that isn't 0, or the begin of the part.
fn end_of_last(numbers: &[u32], from: usize, to: usize) -> usize
    requires { from ≤ to × to ≤ length numbers.now }
    ensures inside { from ≤ result × result ≤ to }
    ensures passed { (k : ℕ) → result ≤ k → k < to → slice_index_or numbers.now k 0 ≡ 0 }
    ensures found { from < result → 1 ≤ slice_index_or numbers.now (result - 1) 0 }
{
    let mut at = to;
    while at > from && numbers[at - 1] == 0 {
        at -= 1;
    }
    at
}

/// The first unit at which a hole of so many units starts: the first one in the first band that has
/// such a hole.
fn first_with(sizes: &[u32], greatest: &[u32], units: u32) -> Option<usize>
    requires some { 1 ≤ units }
    requires indexed { AreGreatest sizes.now greatest.now }
    requires few { length sizes.now < 2 ^ 32 }
    ensures { MatchOption result ((unit : ℕ) → size_at sizes.now unit < units) (IsFirstWith sizes.now units) }
{
    let band = first_from(greatest, 0, units);
    let at = first_from(sizes, sizes.len().min(band * BAND), units);
    if at < sizes.len() { Some(at) } else { None }
}

/// The last unit before a place at which a hole starts: in the band of the place, or the last one in
/// the last band before it that has a hole.
fn last_before(sizes: &[u32], greatest: &[u32], place: usize) -> Option<usize>
    requires place { place ≤ length sizes.now }
    requires indexed { AreGreatest sizes.now greatest.now }
    ensures { MatchOption result ((unit : ℕ) → unit < place → size_at sizes.now unit ≡ 0) (IsLastBefore sizes.now place) }
{
    let own = place / BAND;
    let behind = end_of_last(sizes, own * BAND, place);
    if behind > own * BAND {
        return Some(behind - 1);
    }
    let bands = end_of_last(greatest, 0, own);
    let end = end_of_last(sizes, 0, bands * BAND);
    if end > 0 { Some(end - 1) } else { None }
}

/// The greatest of some numbers, or 0 where there is none.
fn greatest_of(sizes: &[u32]) -> u32
    ensures bound { (k : ℕ) → slice_index_or sizes.now k 0 ≤ result }
    ensures reached { 1 ≤ length sizes.now → (k : ℕ) × (k < length sizes.now) × (slice_index_or sizes.now k 0 ≡ result) }
{
    let mut greatest = 0;
    for size in sizes {
        greatest = greatest.max(*size);
    }
    greatest
}

/// Finds the greatest number of a unit's band anew.
fn update_band(sizes: &[u32], greatest: &mut [u32], unit: usize)
    requires unit { unit < length sizes.now }
    requires indexed { AreGreatestBeside (unit / 2048) sizes.now greatest.old }
    ensures indexed { AreGreatest sizes.now greatest.new }
{
    let start = unit / BAND * BAND;
    let end = sizes.len().min(start + BAND);
    greatest[unit / BAND] = greatest_of(&sizes[start..end]);
}

impl HoleSizes {
    /// The sizes of so many units, none of which is in a hole.
    pub(crate) fn new(alloc: Global, units: u32) -> Result<HoleSizes, AllocError>
        ensures count { IfOk result (λ sizes. length sizes ≡ units) }
        ensures none { IfOk result (λ sizes. (unit : ℕ) → size_at sizes unit ≡ 0) }
    {
        Ok(HoleSizes {
            sizes: zeros(alloc, units as usize)?,
            greatest: zeros(alloc, units as usize / BAND + 1)?,
        })
    }

    /// The size at a unit, 0 behind the last one.
    pub(crate) fn get(&self, unit: u32) -> u32
        ensures { result ≡ size_at self.now unit }
    {
        if (unit as usize) < self.sizes.len() {
            self.sizes[unit as usize]
        } else {
            0
        }
    }

    /// Sets the size at a unit, and finds the greatest one of its band.
    pub(crate) fn set(&mut self, unit: u32, size: u32)
        requires { unit < length self.old }
        ensures { self.new ≡ slice_set self.old unit size }
    {
        self.sizes[unit as usize] = size;
        update_band(
            self.sizes.as_slice(),
            self.greatest.as_mut_slice(),
            unit as usize,
        );
    }

    /// The first unit at which a hole of so many units starts.
    pub(crate) fn first_with(&self, units: u32) -> Option<u32>
        requires { 1 ≤ units }
        ensures { MatchOption result ((unit : ℕ) → size_at self.now unit < units) (IsFirstWith self.now units) }
    {
        match first_with(self.sizes.as_slice(), self.greatest.as_slice(), units) {
            None => None,
            Some(unit) => Some(unit as u32),
        }
    }

    /// The last unit before a place at which a hole starts.
    pub(crate) fn last_before(&self, place: u32) -> Option<u32>
        requires { place ≤ length self.now }
        ensures { MatchOption result ((unit : ℕ) → unit < place → size_at self.now unit ≡ 0) (IsLastBefore self.now place) }
    {
        match last_before(
            self.sizes.as_slice(),
            self.greatest.as_slice(),
            place as usize,
        ) {
            None => None,
            Some(unit) => Some(unit as u32),
        }
    }
}
