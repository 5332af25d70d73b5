//! The bodies of replies, in JSON (RFC 8259) with the names of `swarming.v2`, and their statuses.
//!
//! [`show_reply`] is the body of a reply of the pool at a place, exactly `body_of` of
//! `specs/Bodies.antt`: compact, with the keys of each object in the order of their bytes. The body
//! of a blob is its bytes, so [`content_type`] says how a body is to be read. [`status_of`] is the
//! reply's status. Each value is a definition first: `Bodies` has the table of replies, `Refusals`
//! that of refusals, with the code and the members of each, `Views` what is shown of a task and of a
//! bot, and `Commands` what a bot is told to do. [`code_of`] is the code of a refusal, and
//! `refusal_codes` has its name and its status. Any body may give way to want of memory.
//!
//! The ids of tasks and runs are shown by `json_fields`, which also reads them. The crate stands on
//! it, on `refusal_codes`, `swarm_model`, `task_props`, `dimensions` and `json_values`, and on
//! `serde_json`, `base64`, `hex` and `http`.
#![tactic(auto)]

mod commands;
mod items;
mod output;
mod pages;
mod refusals;
mod reply;
mod views;

pub use refusals::code_of;
pub use reply::{content_type, show_reply, status_of};
