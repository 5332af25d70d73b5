//! The program with its commands, and what it makes of the words.

ghost use Rattle.std.specs.Prelude.{◌≡◌, ◌≢◌, [], IfErr, IfOk, codes, false, map, string_bytes};
ghost use Rattle.clap.specs.Values.{kind_of};
ghost use Rattle.clap.specs.Words.{app_of, fault_of, subcommand_of, subcommand_rows_of};
ghost use Rattle.clap.specs.declared.builder.command.Command.TheViews.{out-Command as fields_of};
ghost use Rattle.clap.specs.declared.error.kind.ErrorKind.TheVariants.{OutOfMemory};
ghost use Rattle.command_words.specs.Grammar.{program_app, server_app, swarm_app};

use crate::arguments::{command, enter};
use crate::bot_command::bot;
use crate::client_work::with_clients;
use crate::serve_command::serve;
use crate::server_commands::{checkpoint, drill, session};
use clap::{ArgMatches, Command, Error};
use std::alloc::{AllocError, Global};

/// The program before its commands. Its words are those after its own name.
fn program<'a>(alloc: Global) -> Result<Command<'a>, AllocError>
    ensures app { IfOk result (λ c. app_of c ≡ program_app) }
    ensures plain { IfOk result (λ c. (fields_of c).has_globals ≡ false) }
{
    let program = command(
        alloc,
        "swarm",
        "The task server of a build lab: serves pools of tasks and bots, and asks such a server",
    );
    program
        .no_binary_name(true)
        .subcommand_required(true)
        .bin_name("swarm")
}

fn with_servers<'a>(alloc: Global) -> Result<Command<'a>, AllocError>
    ensures app { IfOk result (λ c. app_of c ≡ server_app) }
    ensures plain { IfOk result (λ c. (fields_of c).has_globals ≡ false) }
{
    let command = program(alloc)?;
    let command = enter(command, session(alloc)?)?;
    let command = enter(command, serve(alloc)?)?;
    enter(command, checkpoint(alloc)?)
}

fn swarm<'a>(alloc: Global) -> Result<Command<'a>, AllocError>
    ensures app { IfOk result (λ c. app_of c ≡ swarm_app) }
    ensures plain { IfOk result (λ c. (fields_of c).has_globals ≡ false) }
{
    let command = enter(with_servers(alloc)?, bot(alloc)?)?;
    let command = with_clients(command, alloc)?;
    enter(command, drill(alloc)?)
}

/// What `clap` finds in the words, which don't begin with the program's name.
pub(crate) fn matched<'a>(alloc: Global, words: &'a [String]) -> Result<ArgMatches<'a>, Error>
    ensures found { IfOk result (λ m. subcommand_rows_of m ≡ subcommand_of swarm_app (map string_bytes words.entry.now)) }
    ensures taken { IfOk result (λ _. fault_of swarm_app (map string_bytes words.entry.now) ≡ []) }
    ensures refused { IfErr result (λ e. kind_of e ≢ OutOfMemory → fault_of swarm_app (map string_bytes words.entry.now) ≢ []) }
{
    let command = swarm(alloc)?;
    command.try_get_matches_from(words)
}
