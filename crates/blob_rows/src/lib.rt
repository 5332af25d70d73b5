//! The rows of a pool's blobs, and what is said of them without an allocator or a byte.
//!
//! A [`BlobRow`] says of a content its digest, its size and its [`Extent`], the units in which its
//! bytes lie. `specs/Places.antt` has the least place at which so many units are free beside some
//! extents, and `specs/BlobRows.antt` what a put and the end of a deadline leave of the rows;
//! [`Held`] and [`Filled`] are what becomes of a content that is to be held, and of bytes that are
//! brought. So the definitions of a pool stand on these rows, and what finds a place and keeps the
//! bytes, `region` and `content_store`, stands beside them and passes the types on. The crate stands
//! on `dimensions`.
#![tactic(auto)]

mod blob_row;
mod extent;
mod filled;
mod held;

pub use blob_row::BlobRow;
pub use extent::Extent;
pub use filled::Filled;
pub use held::Held;

/// The SHA-256 of a content.
pub type Digest = [u8; 32];
