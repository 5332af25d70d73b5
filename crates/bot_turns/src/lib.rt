//! A bot at work: one action carried out, and the run of a bot over all its turns.
//!
//! [`bot_turn`] carries out one action of `bot_core` and answers its event. Its contract is `IsTurnOf` of
//! `specs/Turns.antt`: by the action, which request was exchanged with the server, which calls were made
//! on the runner, in which order, what they came to, which event that is, and what the bot's hands hold
//! then. `Lost` comes only where an exchange was lost or its bytes are no reply to it, `RunnerFailed` only
//! where a call on the runner failed or an input can't be had. [`run_bot`] lets a bot act from its first
//! moment to its stop; `RunsBot` of `specs/Runs.antt` says that its turns follow each other over the same
//! hands, dialer, runner and clock, each event with the clock's next moment, as the bot's table has it.
//! By [`turns_follow_the_table`] the laws on that table hold of each such run.
//!
//! `specs/` has a module a topic: `Events`, `ServerTurns` (Handshake, Poll, Claim and Send), `Inputs`
//! (Prepare), `Outputs` (Upload), `CacheTurns` (CleanUp) and `ChildTurns` (Start, Look and Signal).
//!
//! The crate stands on `bot_core`, `bot_requests`, `server_calls`, `runners` and `named_caches`, on
//! `refusal_codes`, `sw_base`, `swarm_model`, `json_fields`, `routes`, `task_props` and `dimensions`,
//! and on `sha2`.
#![tactic(auto)]

mod caches;
mod child;
mod claiming;
mod events;
mod inputs;
mod laws;
mod outputs;
mod requests;
mod running;
mod stopped;
mod turns;

pub use laws::turns_follow_the_table;
pub use running::run_bot;
pub use stopped::Stopped;
pub use turns::bot_turn;
