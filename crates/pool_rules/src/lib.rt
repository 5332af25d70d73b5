//! The table of replies, decided once.
//!
//! [`decide`] gives the reply to a request and the entry that it adds, as `decide` of
//! `swarm_model`'s `Answers` defines them, over any rows that meet the contract of
//! [`PoolQueries`]. A machine implements the queries, each of which is a scan of the rows by its
//! contract, and repeats neither the table nor its proof. What only reads is decided in
//! `pool_queries`, on which the crate stands, beside `swarm_model`.
#![tactic(auto)]

mod admitting;
mod canceling;
mod chunks;
mod claiming;
mod deciding;
mod events;
mod handshakes;
mod missing;
mod new_tasks;
mod polling;
mod putting;
mod reusing;
mod runs;
mod settling;
mod terminating;
mod updating;

pub use deciding::decide;
pub use pool_queries::PoolQueries;
pub use settling::due_entry;
