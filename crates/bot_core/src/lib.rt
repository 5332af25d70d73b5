//! What a bot does next: a machine that takes events and answers actions, and does nothing itself.
//!
//! A bot opens a session with its server, polls, claims a task, runs its command and reports the
//! output and the end. [`Bot::step`] takes what came of the last action, with its moment, and
//! answers the next [`Action`]; [`Bot::expects`] tells which events can come. The action is a function
//! of what the bot keeps, so a request whose answer was lost is sent again as it was.
//!
//! The contract of `step` is `stepped` of `specs/Table.antt`, a table by the phase of the bot and the
//! event; [`BotState`] is all that it keeps. Over every list of events hold the laws of `laws.rt`, each
//! the contract of an empty function. A refusal comes by its number, and the table goes by the
//! `RefusalCode` that has it. No call takes memory, and moments may come in any order: a
//! clock that goes back reaches no limit.
#![tactic(auto)]

mod action;
mod bot;
mod bot_event;
mod bot_limits;
mod bot_state;
mod examples;
mod laws;
mod looks;
mod run;
mod run_changes;
mod steps;
mod table;

pub use action::{Action, End, Signal, StopWhy};
pub use bot::Bot;
pub use bot_event::BotEvent;
pub use bot_limits::BotLimits;
pub use bot_state::{Awaited, BotState, Phase};
pub use examples::a_run_out_of_time;
pub use laws::{
    cleans_up_each_run, ids_grow, kills_after_term_and_grace, repeats_requests, reports_fit,
    reports_in_time, sends_what_was_written, starts_once, stops_where_asked, tells_timeouts,
};
pub use run::Run;
