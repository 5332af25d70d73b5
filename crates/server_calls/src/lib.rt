//! One call of a server, as a client or a bot makes it: the exchange, and what its reply tells.
//!
//! [`exchange`] dials, writes one request, reads one reply and ends the link; `IsExchanged` of
//! `specs/Exchanges.antt` is its contract: what it answers is what the reply at the front of all the
//! bytes of that link tells of the call, and each other answer has its cause.
//!
//! [`read_reply`] reads the status and the body of a reply to the call of a [`Route`](routes::Route)
//! and tells exactly what `told_of` of `specs/Reading.antt` says, but for want of memory: a reply of
//! that route with status 200, or a refusal with another. What is neither is no reply of this
//! profile, and tells nothing. `specs/` has a module a topic: `Members`, the members that the
//! replies share, `Places`, the ids and the one place that they name, `Tasks`, `Bots`, `Pages`,
//! `Commands` and `Blobs`, what each reply tells, `Refusals`, what a refusal tells, and `Exchanges`.
//!
//! Fields, lists, ids, digests and numbers are read by `json_fields`, and the properties of a run are
//! those that a request for a task may have, read by `task_bodies` and `task_checks`. The crate
//! stands on these, on `link_writer`, `reply_reader` and `sw_base`, on `routes`, `refusal_codes`,
//! `swarm_model`, `task_props` and `dimensions`, and on `serde_json`, `base64` and `sha2`.
#![tactic(auto)]

mod blobs;
mod bots;
mod commands;
mod exchanged;
mod exchanging;
mod ids;
mod members;
mod pages;
mod places;
mod reading;
mod refusals;
mod run_properties;
mod task_views;
mod tasks;
mod told;

pub use exchanged::Exchanged;
pub use exchanging::exchange;
pub use reading::{a_reply_has_one_reading, read_reply};
pub use told::Told;
