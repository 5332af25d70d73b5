//! Runners: what runs the children of a bot, one at a time.
//!
//! A [`Runner`] makes the folder of a bot. For each run it lays out a work folder there, with the inputs
//! and caches of the run, starts a child in it, shows the child's output as it comes, sends it signals,
//! reads the files that it left, and clears the folder away again, with the caches moved back. Its
//! contract speaks of one record, its state: the calls made on it and the answers that are left, which
//! may be untold, as of real children, and how often a call failed. A `Failed` comes only from a call in
//! which that count rose, and a call that answers want of memory is told as if it wasn't made.
//! [`MemoryRunner`] tells all: it keeps each call as a [`RunnerCall`], and its children do what its
//! list of [`RunnerAnswer`]s says.
#![tactic(auto)]

mod answer;
mod cache;
mod call;
mod collect_fault;
mod copying;
mod memory_runner;
mod runner;

pub use answer::{Look, RunnerAnswer};
pub use cache::{CachePath, PreparedCache};
pub use call::RunnerCall;
pub use collect_fault::CollectFault;
pub use memory_runner::MemoryRunner;
pub use runner::Runner;
