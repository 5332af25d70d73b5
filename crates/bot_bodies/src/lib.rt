//! The bodies of the calls of bots, and of those on bots, in JSON (RFC 8259) with the names of
//! `swarming.v2`.
//!
//! [`read_handshake`], [`read_poll`], [`read_claim`], [`read_bot_event`], [`read_terminate`],
//! [`read_get_bot`] and [`read_list_bots`] give a [`PoolRequest`], which each pool of its name may be
//! asked (`FitsNamed` of `specs/BotCalls.antt`); [`read_report`] gives a [`Report`] on the run of an
//! id, with the bytes of its [`Output`]. Each gives what the body says or the first rule that it breaks, exactly as its definition
//! says, but for want of memory: all fields are read in their order before the other rules are tried.
//! `specs/` has `BotCalls` and `Reports` for the calls, `BotFields`, `Outputs` and `Files` for what
//! they hold, and `Names` and `ExitCodes` for single fields.
//!
//! Fields, lists, ids, digests, numbers within a range and how many rows a page shows are read by
//! `json_fields`; the rule on paths is that of `task_checks`. The crate stands on those two, on
//! `swarm_model`, `task_props` and `dimensions`, and on `serde_json`, `base64` and `sha2`.
#![tactic(auto)]

mod bot_calls;
mod bot_fields;
mod exit_codes;
mod files;
mod names;
mod outputs;
mod pool_request;
mod reports;

pub use bot_calls::{
    read_bot_event, read_claim, read_get_bot, read_handshake, read_list_bots, read_poll,
    read_terminate,
};
pub use outputs::Output;
pub use pool_request::PoolRequest;
pub use reports::{Report, read_report};
