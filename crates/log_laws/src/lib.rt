//! What the log of a pool holds behind its replies and its rows.
//!
//! Each law is the contract of an empty function, and speaks of a log that begins from the rows of a
//! base. `Sent`: the tasks that callers sent under uuids. `Names`: bots keep their numbers and names.
//! `Runs`: what the log tells of each run. `Replies`: which entry of the log stands behind a reply to
//! a bot. `Calls`: both for a whole call, which first settles what is due. `Checked`: the properties
//! of each task. `Worked`: a bot that asks again after lost replies. The crate has no code that runs.
#![tactic(auto)]

mod laws;

pub use laws::{
    a_bot_asks_again, attempts_are_told, calls_are_told, names_last, new_is_asked, pool_tells,
    properties_are_checked, tasks_are_sent_once,
};
