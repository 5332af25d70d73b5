//! The command of a server.

ghost use Rattle.std.specs.Prelude.{◌≡◌, IfOk, false};
ghost use Rattle.clap.specs.Words.{app_of};
ghost use Rattle.clap.specs.declared.builder.command.Command.TheViews.{out-Command as fields_of};
ghost use Rattle.command_words.specs.Grammar.{serve_app, serve_boards_app, serve_workers_app};

use crate::arguments::{add, command, defaulted, number};
use crate::server_commands::settings;
use clap::Command;
use std::alloc::{AllocError, Global};

/// The command with its settings and its workers.
fn with_workers<'a>(alloc: Global) -> Result<Command<'a>, AllocError>
    ensures app { IfOk result (λ c. app_of c ≡ serve_workers_app) }
    ensures plain { IfOk result (λ c. (fields_of c).has_globals ≡ false) }
{
    let serve = command(
        alloc,
        "serve",
        "Listens at an address and serves connections, then prints a summary of each pool",
    );
    let serve = add(serve, settings(alloc))?;
    let serve = add(
        serve,
        defaulted(
            alloc,
            "address",
            "HOST:PORT",
            "127.0.0.1:8080",
            "Where to listen",
        ),
    )?;
    let serve = add(
        serve,
        number(
            alloc,
            "workers",
            1,
            32,
            "1",
            "How many workers serve, each one connection at a time: 1 to 32. With a `store` in the settings there is one worker only",
        ),
    )?;
    add(
        serve,
        number(
            alloc,
            "connections",
            1,
            1000000,
            "1000000",
            "How many connections each worker serves before it ends: 1 to 1000000",
        ),
    )
}

/// That with its boards.
fn with_boards<'a>(alloc: Global) -> Result<Command<'a>, AllocError>
    ensures app { IfOk result (λ c. app_of c ≡ serve_boards_app) }
    ensures plain { IfOk result (λ c. (fields_of c).has_globals ≡ false) }
{
    let serve = with_workers(alloc)?;
    let serve = add(
        serve,
        number(
            alloc,
            "boards",
            0,
            8,
            "0",
            "How many boards serve beside the workers, each one connection at a time: 0 to 8. A board answers CountTasks, ListTasks, GetResult, ListBots and GetBot from published copies of the pools, without waiting for a pool's turn. With a `store` in the settings there is none",
        ),
    )?;
    let serve = add(
        serve,
        defaulted(
            alloc,
            "board-address",
            "HOST:PORT",
            "127.0.0.1:8081",
            "Where the boards listen",
        ),
    )?;
    add(
        serve,
        number(
            alloc,
            "board-connections",
            1,
            1000000,
            "1000000",
            "How many connections each board serves before it ends: 1 to 1000000",
        ),
    )
}

pub(crate) fn serve<'a>(alloc: Global) -> Result<Command<'a>, AllocError>
    ensures app { IfOk result (λ c. app_of c ≡ serve_app) }
    ensures plain { IfOk result (λ c. (fields_of c).has_globals ≡ false) }
{
    let serve = with_boards(alloc)?;
    let serve = add(
        serve,
        number(
            alloc,
            "board-every",
            1,
            3600,
            "5",
            "How many seconds pass between two rounds, each of which publishes what is new in every pool to the boards: 1 to 3600",
        ),
    )?;
    add(
        serve,
        number(
            alloc,
            "board-rounds",
            1,
            1000000,
            "1000000",
            "How many such rounds there are at most: 1 to 1000000",
        ),
    )
}
