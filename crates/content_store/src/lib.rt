//! The contents that a pool holds, named by their SHA-256 digests (FIPS 180-4), and the rows of its
//! blobs beside them.
//!
//! A [`ContentStore`] is seen as the contents that it holds, sorted by digest, each with its size,
//! its extent and, once they came, its bytes (`specs/Contents.antt`, `specs/Plain.antt`). A name
//! is held first, at the least place of a [`Region`](region::Region) of 64-byte units or at a given
//! one, and its bytes are brought later: they are copied once, to that place, and lent from there. Each
//! answer is a function of what is held (`hold_result`, `fill_result`).
//!
//! [`Blobs`] keeps a row for each blob, in the order in which they were placed, and a store that
//! holds exactly the digests of the rows, each with the size and at the extent of its row
//! (`AreStored` of `specs/StoredRows.antt`). What a call does to the rows is said of the rows alone
//! (`specs/BlobRows.antt` of `blob_rows`): a machine over them needs to know nothing of the store. A
//! row is found by its number with a bisection of the rows, and by its digest over the number that the
//! store keeps. Rows that were kept come back one after the other, in the order of their numbers, each
//! with its number and at its place (`raise_placed`, `put_at`).
//!
//! `new` takes all the memory; no other call takes any, and the memory of what units hold is written
//! to no further than some content has reached. The crate stands on `placed_list`, `region`,
//! `blob_rows` and the kit's `sha2`.
#![tactic(auto)]

mod blobs;
mod content_store;
mod filling;
mod holding;
mod row_changing;
mod row_places;
mod searching;
mod slot;
mod writing;

pub use blob_rows::{BlobRow, Digest, Filled, Held};
pub use blobs::Blobs;
pub use content_store::ContentStore;
