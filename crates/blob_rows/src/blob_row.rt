use crate::{Digest, Extent};

/// What a pool knows of a content that it holds.
#[derive(Clone, Copy, Debug, PartialEq, Eq)]
pub struct BlobRow {
    /// From 1, in the order in which blobs were placed. No number is used twice.
    pub no: u32,
    pub digest: Digest,
    /// In bytes.
    pub size: u32,
    /// Where the bytes lie, in units of 64 bytes.
    pub extent: Extent,
    /// The second until which it is kept.
    pub deadline: u64,
}
