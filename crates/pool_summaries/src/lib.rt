//! What is printed of a server's pools.
//!
//! [`summary`] writes, for each pool in its order, the line `pool NAME entries E accepted T`, where E is
//! the length of the pool's log with the entries that led to its base, and T how many tasks it accepted,
//! and then a line `STATE N` for each of the nine states of a task, N being how many of those tasks are
//! in it. [`fronts`] writes one line for each, `pool NAME front E tasks T`. All numbers are told by the
//! rows from which the pool's log begins and the log alone: `summary_of` and `fronts_of` of
//! `specs/Summaries.antt` are the texts.
#![tactic(auto)]

mod summaries;

pub use summaries::{fronts, summary};
