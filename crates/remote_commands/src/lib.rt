//! The commands of the command line that ask a server: those of a client, and `bot`.
//!
//! [`run_client`] and [`run_bot_command`] look at the options whose grammars `clap` doesn't know: the
//! server's address, the caller, an id, a state, a bot's name and its dimensions. The first one that is
//! out of its grammar is printed. Else the command of a client is that of `client_commands`, as
//! `RunsClient` of `specs/Clients.antt` says, and `bot` is that of `bot_turns` over a runner of
//! children, as `RunsBotCommand` of `specs/BotCommands.antt` says. Both speak of all that the program
//! works on, which is `Environment` of `specs/Environment.antt`.
#![tactic(auto)]

mod bot_command;
mod clients;
mod option_fault;
mod options;

pub use bot_command::run_bot_command;
pub use clients::run_client;
