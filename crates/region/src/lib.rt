//! Where the blobs of a pool lie: an allocator of runs of units, each at the least place at which
//! it is free, or at a place that is given.
//!
//! A [`Region`] is seen as its units, and which of them are free (`specs/Plain.antt`). Its calls
//! speak of the extents in use beside which the units are free (`specs/FreeUnits.antt`): the caller
//! knows which they are, and the region keeps the holes alone, the free runs of units. The place of a
//! new extent is `least_place` (`specs/Places.antt` of `blob_rows`), which asks only which units are
//! taken, so it does not depend on how a region finds it. An extent that is placed at a given place
//! has units that are all free, wherever they lie. `new` takes all the memory; no other call
//! takes any. What a unit holds is up to the layer above. The crate stands on `blob_rows`.
#![tactic(auto)]

mod hole_sizes;
mod holes;
mod region;

pub use blob_rows::Extent;
pub use region::Region;
