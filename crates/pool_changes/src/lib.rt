//! What an entry does to a pool beside its rows of tasks and bots: to its blobs, and to its log.
//!
//! A [`BlobEffect`] is what an entry does to the blobs ([`blob_effect`]), and [`change_blobs`] does it
//! to the rows and the bytes of `content_store`; `specs/Blobs.antt` says what each effect is, in the
//! words of `swarm_model`. [`bring_bytes`] and [`lend_bytes`] bring and lend the bytes of a blob, and
//! [`load_blobs`] loads the blobs of a base. A machine takes from `proofs/`: `BlobEffects`, that an
//! entry that may follow can change the blobs, and that they are then those of the pool after it;
//! `Legality` and `Growing`, that a log stays legal and its replay is the pool after the entry that is
//! added. The crate stands on `pool_laws`, `row_changes` and `content_store`.
#![tactic(auto)]

mod bytes_of_blobs;
mod changing_blobs;
mod effects;
mod loading_blobs;

pub use bytes_of_blobs::{bring_bytes, lend_bytes};
pub use changing_blobs::change_blobs;
pub use effects::{BlobEffect, blob_effect};
pub use loading_blobs::load_blobs;
