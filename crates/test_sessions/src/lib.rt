//! One connection, served over a door that a test makes itself.
//!
//! [`serve`] makes a [`PlainDoor`](swarm_history::PlainDoor) over machines of any kind and over the
//! keepers that it is given, serves a link by `session` of `swarm_http`, and gives the keepers back;
//! [`serve_new`] does so over new logs, of which nothing is kept ([`no_keepers`]). A test that asks
//! nothing of the words, the client or the bot calls these in place of `run`, and its proof and its
//! program have none of them.
#![tactic(auto)]

mod serving;

pub use serving::{no_keepers, serve, serve_new};
