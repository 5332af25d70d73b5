//! Where the bases of pools, the lines of their logs and the contents of their blobs are kept.
//!
//! A [`Keeper`] keeps one pool's: the lines of its base, how many entries came before that, the lines
//! of the log since then, and the bytes of its blobs. `Tables` of `specs/Tables.antt` says what it
//! tells of them, and a keeper may tell nothing, as one over a file. An entry is appended to the log;
//! a base takes the place of all that was kept but the blobs. A [`KeeperFault::Failed`] comes only
//! from a call in which the count of faults rose. A sure keeper keeps nothing and never fails. A
//! [`Store`] hands out keepers by folder and pool and takes them back (`specs/Stores.antt`).
//! [`MemoryKeeper`] and [`MemoryStore`] tell all, [`NoKeeper`] is sure. [`MemoryTables`] are what a
//! store in memory holds of a pool, of the first version, which has no base, or of the second.
//! The crate stands on `sw_base` and `dimensions`.
#![tactic(auto)]

mod keeper;
mod memory_keeper;
mod memory_store;
mod memory_tables;
mod no_keeper;
mod store;

pub use keeper::{Digest, Keeper, KeeperFault};
pub use memory_keeper::MemoryKeeper;
pub use memory_store::MemoryStore;
pub use memory_tables::MemoryTables;
pub use no_keeper::NoKeeper;
pub use store::{Store, faults_after};
