//! A value that only proofs see.
#![tactic(auto)]

mod ghost_value;

pub use ghost_value::GhostValue;
