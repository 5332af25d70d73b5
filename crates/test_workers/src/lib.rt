//! Tests of several workers that serve beside each other, with real threads and links in memory.
//!
//! What `serve_shared` of `swarm_workers` does is proved; that a call of it ends, and that two workers
//! run at one time, no contract says. So here:
//!
//! - 32 workers serve the requests of 128 connections over four pools, and each reply is compared with
//!   the one that a single server gives at that point of the pool's log (`src/tests/many.rt`). The
//!   single server has `ListPool`, the machine that scans lists;
//! - two workers with a connection each answer both, and the summary has both tasks;
//! - two connections that each wait for the other one are both answered (`src/tests/meeting.rt` has
//!   their links).
//!
//! The crate has no code that the program runs.
#![tactic(auto)]

#[cfg(test)]
mod tests;
