ghost use Rattle.std.specs.Prelude.{◌≡◌};
ghost use Rattle.blob_rows.specs.BlobRows.{units_of};

use crate::Digest;

/// A name that is held: how many bytes it stands for, the number that it was given, the unit of the
/// region at which the bytes begin, and whether they came.
#[derive(Clone, Copy)]
pub(crate) struct Slot {
    pub digest: Digest,
    pub size: u32,
    pub number: u32,
    pub at: u32,
    pub is_filled: bool,
}

/// How many units of 64 bytes a content takes, at least one.
pub(crate) fn units_of(size: u32) -> u32
    ensures { result ≡ units_of size }
{
    size.div_ceil(64).max(1)
}
