ghost use Rattle.std.specs.Prelude.{◌≡◌, ℕ, ◌+◌, ◌≤◌, true, List, [], IfOk};
ghost use Rattle.std.specs.List.{insert, Contains};
ghost use Rattle.blob_rows.specs.declared.extent.Extent.{Extent};
ghost use Rattle.blob_rows.specs.Places.{overlaps};
ghost use Rattle.blob_rows.specs.Extents.{without_extent};
ghost use Rattle.region.specs.Plain.{is_free_unit};
ghost use Rattle.region.specs.FreeUnits.{IsFreeBeside, AreInUse, least_extent, with_placed};

use crate::hole_sizes::HoleSizes;
use crate::{Extent, holes};
use std::alloc::{AllocError, Global};
use std::marker::Model;

/// Units in a row, of which some are free. It takes four bytes for each unit, and the time of a
/// call depends on the number of units alone, however many holes there are among them.
#[derive(Drop)]
pub struct Region {
    units: u32,
    sizes: HoleSizes,
}

impl Model for Region {
    ghost use Rattle.region.specs.Plain.{RegionState};

    ghost Value = { RegionState };

    ghost use Rattle.region.specs.Inside.{state_of, IsKept};

    ghost view = { state_of };

    ghost invariant = { IsKept };
}

impl Region {
    /// A region of so many units, all free.
    ///
    /// # Errors
    ///
    /// There is no memory for a number for each unit.
    pub fn new(alloc: Global, units: u32) -> Result<Region, AllocError>
        ensures units { IfOk result (λ r. r.units ≡ units) }
        ensures free { IfOk result (λ r. IsFreeBeside r []) }
    {
        let mut sizes = HoleSizes::new(alloc, units)?;
        if units > 0 {
            sizes.set(0, units);
        }
        Ok(Region { units, sizes })
    }

    /// The extent that `place` would answer. It looks at one number for each 2048 units, up to the
    /// first of these bands in which a hole with so many units starts, and at the units of that band.
    pub fn find(&self, units: u32) -> Option<Extent>
        requires { 1 ≤ units }
        ensures least { (extents : List Extent) → IsFreeBeside self.now extents → result ≡ least_extent extents self.now.units units }
    {
        match self.sizes.first_with(units) {
            None => None,
            Some(at) => Some(Extent { at, units }),
        }
    }

    /// Takes so many units in a row into use, at the least place at which they are free. Nothing
    /// changes where there is no such place. It takes the time of `find`, and that of looking at the
    /// units of two bands.
    pub fn place(&mut self, units: u32) -> Option<Extent>
        requires { 1 ≤ units }
        ensures least { (extents : List Extent) → IsFreeBeside self.old extents → result ≡ least_extent extents self.old.units units }
        ensures adds { (extents : List Extent) (index : ℕ) → IsFreeBeside self.old extents →
            IsFreeBeside self.new (with_placed result index extents) }
        ensures units { self.new.units ≡ self.old.units }
    {
        match self.sizes.first_with(units) {
            None => None,
            Some(at) => {
                holes::take_front(&mut self.sizes, at, units);
                Some(Extent { at, units })
            }
        }
    }

    /// Takes the units of an extent into use, each of which is free. The hole in which they lie is
    /// looked for from the first of them downwards, by one number for each band without one; then it
    /// looks at the units of a few bands.
    pub fn place_at(&mut self, extent: Extent)
        requires some { 1 ≤ extent.units }
        requires inside { extent.at + extent.units ≤ self.old.units }
        requires free { (unit : ℕ) → overlaps unit 1 extent ≡ true → is_free_unit self.old unit ≡ true }
        ensures adds { (extents : List Extent) (index : ℕ) → IsFreeBeside self.old extents →
            IsFreeBeside self.new (insert extents index extent) }
        ensures units { self.new.units ≡ self.old.units }
    {
        match self.sizes.last_before(extent.at + 1) {
            None => unreachable!(),
            Some(start) => holes::take_inside(&mut self.sizes, start, extent),
        }
    }

    /// Makes the units of an extent free again. The hole before it is looked for from the extent
    /// downwards, by one number for each band without one; then it looks at the units of two bands.
    pub fn give_back(&mut self, extent: Extent)
        requires { (extents : List Extent) × Contains extents extent × AreInUse self.old extents }
        ensures frees { (extents : List Extent) → Contains extents extent → AreInUse self.old extents →
            IsFreeBeside self.new (without_extent extent extents) }
        ensures units { self.new.units ≡ self.old.units }
    {
        holes::give_back(&mut self.sizes, extent);
    }
}
