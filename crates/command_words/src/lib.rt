//! The words of the command line, read by `clap`.
//!
//! [`read_words`] gives a [`Command`], a plain enum with the values of its options, or the text with
//! which `clap` refuses the words. The grammar is `swarm_app` of `specs/Grammar`, a value that
//! `clap`'s own definitions read; `command_of` of `specs/Commands` is the command that the words
//! ask for by those definitions. The builders of `src/` are proved to make that grammar, so no
//! option, range or default stands in code alone. The text of a refusal and of help is `clap`'s, and
//! no clause says more of it than that there is one.
//!
//! No type of `clap` leaves this crate: a crate above would prove again how such a value is dropped.
#![tactic(auto)]

mod arguments;
mod bot_command;
mod bot_reading;
mod client_work;
mod command;
mod command_reading;
mod program;
mod serve_command;
mod serve_reading;
mod server_commands;
mod values;
mod words;

pub use client_work::ClientWork;
pub use command::{Boards, Bot, Checkpoint, Client, Command, Drill, Serve, Session};
pub use words::{Words, read_words};
