//! What stands between a session and the pools.
//!
//! A [`Door`] answers one request at one point of the log of its pool, after what is due by the
//! call's moment was settled, and tells the list of the entries that it has seen of each pool.
//! `IsCall` of `specs/Doors.antt` says what a call may do; its points are those of `swarm_model`'s
//! `Points`. What a door tells of the logs that it writes to (`Writer`) stays with each call: the
//! numbers that its entries bear, whether it writes alone, and which logs they are. Where its keepers
//! tell records that have the lines of what it has seen, and no others, so they do after each call
//! (`KeepsRecords`). A fresh door (`IsFreshDoor`) has seen the logs that it was made with, each of
//! which begins from a base of its pool, and was not called. The crate stands on `swarm_model`,
//! `entry_lines`, `swarm_keeper` and `sw_base`.
#![tactic(auto)]

mod door;
mod pool_call;

pub use door::{Answered, CallFault, Door};
pub use pool_call::PoolCall;
