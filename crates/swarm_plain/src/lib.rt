//! The plain machine: one pool as lists of rows that are scanned in full.
//!
//! [`ListPool`] is a [`Machine`](swarm_model::Machine): the log is that of `pool_log`, over
//! [`ListRows`]. They answer the queries of `pool_rules` by scans of all rows, and none by an index.
//! What an entry does to the rows is that of `common_rows`, on whose rows the program's machine
//! stands too. It is a machine for tests: no crate of the program stands on it, and the program's own is `Pool` of
//! `swarm_machine`.
#![tactic(auto)]

mod deadlines;
mod list_rows;
mod pages;
mod scans;
mod sources;

pub use list_rows::ListRows;
use pool_log::LoggedPool;

/// A pool that scans its rows.
pub type ListPool = LoggedPool<ListRows>;
