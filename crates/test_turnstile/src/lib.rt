//! Tests of `turnstile` with threads that take turns at a journal.
//!
//! The crate has no code that the program runs.
#![tactic(auto)]

mod journal;
#[cfg(test)]
mod tests;
mod turns;

pub use journal::{Entry, Journal};
pub use turns::{add_all, add_in_two, add_one, write_one};
