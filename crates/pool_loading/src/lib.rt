//! How a pool is taken up again from its kept records.
//!
//! [`load_pool`] makes a machine of the records that a [`Keeper`](swarm_keeper::Keeper) has. It opens
//! on the rows that the lines of the base tell, and with no such lines on none, after as many entries
//! as are counted. Then each line of the log since is read, and its entry is added where it is legal
//! there; and each blob that the log leaves gets its bytes. The first line of the base that is none of
//! its place is refused, and so are rows from which a pool may not open; of the log, the first line
//! that is of no entry that is legal at its place, and records that lack the bytes of a blob
//! (`specs/Records.antt`). A [`StorePart`] says which of the two is refused.
//!
//! Whether an entry is legal at its place is decided by the machine that holds those before it: an
//! entry of a deadline has to be the one that is due at its moment, and any other the one that the
//! answer to its request adds (`following`, `asking`). Entries are compared by their lines. No
//! bytes come with the entries of a replay, so that all bytes that the machine holds in the end are
//! those of the keeper (`filling`).
//!
//! The lines of the base are read as `base_lines` reads them (`base_reading`), and whether their rows
//! are a base is asked of `base_checks` (`opening`). The crate stands further on `entry_lines`,
//! `request_fits`, `swarm_keeper`, `pool_laws` and `swarm_model`. It holds for every machine and every
//! keeper that keep their traits' contracts.
#![tactic(auto)]

mod adding;
mod asking;
mod base_reading;
mod filling;
mod following;
mod loading;
mod opening;
mod replaying;
mod store_part;

pub use loading::{LoadStop, load_pool};
pub use store_part::StorePart;
