use crate::Extent;

/// What became of a name that was to be held.
#[derive(Clone, Copy, Debug, PartialEq, Eq)]
pub enum Held {
    /// It is held, at this extent of the region.
    Placed(Extent),
    /// It was held before, with its size and bytes as they are.
    Present,
    /// As many names are held as may be.
    NoNames,
    /// The region has no place for so many bytes.
    NoRoom,
}
