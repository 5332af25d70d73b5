//! Places of a region at work, as facts that the check computes.
ghost use Rattle.std.specs.Prelude.{◌≡◌, ◌∷◌, [], Some, None};
ghost use Rattle.blob_rows.specs.Extents.{extent_at, without_extent};
ghost use Rattle.region.specs.FreeUnits.{least_extent};

/// The least place is taken at which so many units in a row are free.
pub fn the_least_place_is_taken()
    ensures too_many { least_extent [] 4 5 ≡ None }
    ensures first { least_extent [] 4 1 ≡ Some (extent_at 1 0) }
    ensures behind { least_extent (extent_at 1 0 ∷ []) 4 2 ≡ Some (extent_at 2 1) }
    ensures no_room { least_extent (extent_at 1 0 ∷ extent_at 2 1 ∷ []) 4 2 ≡ None }
    ensures last { least_extent (extent_at 1 0 ∷ extent_at 2 1 ∷ []) 4 1 ≡ Some (extent_at 1 3) }
    ensures full { least_extent (extent_at 1 0 ∷ extent_at 2 1 ∷ extent_at 1 3 ∷ []) 4 1 ≡ None }
{}

/// So many free units in a row serve also where they lie between two extents, and fewer never do.
pub fn the_least_place_that_fits_is_taken()
    ensures fits { least_extent (extent_at 1 0 ∷ extent_at 1 3 ∷ []) 8 2 ≡ Some (extent_at 2 1) }
    ensures larger { least_extent (extent_at 1 0 ∷ extent_at 1 3 ∷ []) 8 3 ≡ Some (extent_at 3 4) }
{}

/// Units that become free are one run with the free ones before and behind them, and none is lost.
pub fn free_units_that_touch_are_one_run()
    ensures before { least_extent (without_extent (extent_at 1 1) (extent_at 1 1 ∷ extent_at 1 2 ∷ [])) 3 2 ≡ Some (extent_at 2 0) }
    ensures behind { least_extent (without_extent (extent_at 1 1) (extent_at 1 0 ∷ extent_at 1 1 ∷ [])) 3 2 ≡ Some (extent_at 2 1) }
    ensures all { least_extent (without_extent (extent_at 3 0) (extent_at 3 0 ∷ [])) 3 3 ≡ Some (extent_at 3 0) }
{}
