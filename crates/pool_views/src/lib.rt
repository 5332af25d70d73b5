//! What stands between the session of a board and the published entries of the pools.
//!
//! A board answers requests that read tasks and bots, from copies of the rows that follow the log of a
//! pool as its entries are published. [`Views`] has a view of each pool. What one shows is the reply of
//! a machine after some list of published entries, at the moment of the last one; no deadline is
//! settled, and no log grows. That list begins with the one that the view has seen before and with
//! each that it was told, so a board never goes back. `IsAsk` of `specs/Views.antt` says so of one
//! call, and what is seen stays with each call as a `Known`. The crate stands on `swarm_model`.
#![tactic(auto)]

mod views;

pub use views::{Viewed, Views};
