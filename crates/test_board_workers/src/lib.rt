//! Tests of boards that serve beside workers, with real threads and links in memory.
//!
//! What `serve_with_boards` of `board_workers` does is proved; that anything is ever posted, and that
//! boards are asked while workers add to the log, no contract says. So here:
//!
//! - four boards are asked 100,000 times while four workers add 50,000 entries: each answer is that
//!   after as many entries of the closed log as its front says, and of no board one goes back
//!   (`src/tests/many.rt`);
//! - a board that is asked once a post was made shows the tasks that were there before it
//!   (`src/tests/posted.rt` has its links).
//!
//! The crate has no code that the program runs.
#![tactic(auto)]

#[cfg(test)]
mod tests;
