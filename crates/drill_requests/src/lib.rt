//! The input of a drill: the bytes of one connection, made from a number.
//!
//! A drill sends a pool a large valid input that has no file: eight bots shake hands, and then each
//! cycle makes a task and ends it, in one of five ways that a generator of numbers draws. The same
//! start and the same number of cycles give the same bytes, so that an input of thousands of requests
//! is told by two numbers. It serves tests over whole connections and tests under load.
//!
//! [`drill_input`] writes the bytes, [`request_count`] says how many requests they are.
//! `specs/Requests.antt` has the requests as data, `specs/Draws.antt` the numbers that are drawn, and
//! `specs/Texts.antt` the bytes of a request. A pool `default` in the first place, with room for a
//! task a cycle and a caller who may do everything, answers each request with status 200, as long as
//! no deadline comes: `docs/protocol.md` says what each request means.
#![tactic(auto)]

mod body;
mod cycle;
mod draws;
mod examples;
mod input;
mod request;
mod text;

pub use draws::Draws;
pub use examples::{first_draws_from_one, three_cycles_from_one};
pub use input::{drill_input, drill_requests, request_count};
pub use request::DrillRequest;
