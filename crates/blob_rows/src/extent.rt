/// A run of units of a region.
#[derive(Clone, Copy, Debug, PartialEq, Eq)]
pub struct Extent {
    /// The first unit, counted from 0.
    pub at: u32,
    /// How many units; a region hands out no extent without one.
    pub units: u32,
}
