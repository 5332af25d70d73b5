//! The command, from what `clap` found of its words.

ghost use Rattle.std.specs.Prelude.{◌≡◌, IfOk, IfSome, option_and_then, option_map};
ghost use Rattle.clap.specs.Words.{found_of, rows_of, subcommand_rows_of};
ghost use Rattle.command_words.specs.ClientWork.{work_in};
ghost use Rattle.command_words.specs.Commands.{HasRanges, checkpoint_in, client_with, command_in, drill_in, session_in, value_of};

use crate::bot_reading::bot;
use crate::client_work::read_work;
use crate::command::{Checkpoint, Client, Command, Drill, Session};
use crate::serve_reading::serve;
use crate::values::{client, number, subcommand, text};
use clap::ArgMatches;
use std::alloc::{AllocError, Global};

fn session(alloc: Global, found: &ArgMatches<'_>) -> Result<Option<Command>, AllocError>
    ensures value { IfOk result (λ c. option_map value_of c ≡ session_in (rows_of (found_of found.now))) }
    ensures ranges { IfOk result (λ c. IfSome c (λ c. HasRanges (value_of c))) }
{
    let settings = text(alloc, found, "settings")?;
    Ok(Some(Command::Session(Session { settings })))
}

fn checkpoint(alloc: Global, found: &ArgMatches<'_>) -> Result<Option<Command>, AllocError>
    ensures value { IfOk result (λ c. option_map value_of c ≡ checkpoint_in (rows_of (found_of found.now))) }
    ensures ranges { IfOk result (λ c. IfSome c (λ c. HasRanges (value_of c))) }
{
    match text(alloc, found, "settings")? {
        Some(settings) => Ok(Some(Command::Checkpoint(Checkpoint { settings }))),
        None => Ok(None),
    }
}

/// The command of a client.
fn client_command(
    alloc: Global,
    name: &str,
    found: &ArgMatches<'_>,
) -> Result<Option<Command>, AllocError>
    ensures value { IfOk result (λ c. option_map value_of c ≡ client_with (rows_of (found_of found.now)) (work_in name.now (rows_of (found_of found.now)))) }
    ensures ranges { IfOk result (λ c. IfSome c (λ c. HasRanges (value_of c))) }
{
    let client = client(alloc, found)?;
    let work = read_work(alloc, name, found)?;
    match (client, work) {
        (Some((server, caller)), Some(work)) => Ok(Some(Command::Client(Client {
            server,
            caller,
            work,
        }))),
        _ => Ok(None),
    }
}

fn drill(found: &ArgMatches<'_>) -> Option<Command>
    ensures value { option_map value_of result ≡ drill_in (rows_of (found_of found.now)) }
    ensures ranges { IfSome result (λ c. HasRanges (value_of c)) }
{
    let Some(cycles) = number(found, "cycles", 1, 10000) else {
        return None;
    };
    let Some(start) = number(found, "start", 0, 2147483647) else {
        return None;
    };
    Some(Command::Drill(Drill { cycles, start }))
}

fn named(alloc: Global, name: &str, found: &ArgMatches<'_>) -> Result<Option<Command>, AllocError>
    ensures value { IfOk result (λ c. option_map value_of c ≡ command_in name.now (rows_of (found_of found.now))) }
    ensures ranges { IfOk result (λ c. IfSome c (λ c. HasRanges (value_of c))) }
{
    match name {
        "session" => session(alloc, found),
        "serve" => serve(alloc, found),
        "checkpoint" => checkpoint(alloc, found),
        "bot" => bot(alloc, found),
        "drill" => Ok(drill(found)),
        _ => client_command(alloc, name, found),
    }
}

/// The command that was found.
pub(crate) fn read_command(
    alloc: Global,
    found: &ArgMatches<'_>,
) -> Result<Option<Command>, AllocError>
    ensures value { IfOk result (λ c. option_map value_of c ≡ option_and_then (λ p. command_in p.0 p.1) (subcommand_rows_of found.now)) }
    ensures ranges { IfOk result (λ c. IfSome c (λ c. HasRanges (value_of c))) }
{
    match subcommand(found) {
        Some((name, inner)) => named(alloc, name, inner),
        None => Ok(None),
    }
}
