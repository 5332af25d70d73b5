//! The commands over pools of one's own, but for `serve`: session, checkpoint and drill.

ghost use Rattle.std.specs.Prelude.{◌≡◌, IfOk, codes, false};
ghost use Rattle.clap.specs.Words.{app_of, rule_of};
ghost use Rattle.clap.specs.declared.builder.command.Command.TheViews.{out-Command as fields_of};
ghost use Rattle.command_words.specs.Grammar.{checkpoint_app, drill_app, session_app};
ghost use Rattle.command_words.specs.Rules.{text_rule};

use crate::arguments::{add, command, number, required, text};
use clap::{Arg, Command};
use std::alloc::{AllocError, Global};

/// The option of the settings, which `serve` has too.
pub(crate) fn settings<'a>(alloc: Global) -> Arg<'a>
    ensures rule { rule_of result ≡ text_rule (codes "settings") }
    ensures plain { result.global ≡ false }
{
    text(
        alloc,
        "settings",
        "FILE",
        "The settings of the server, a TOML file. Without it there is one pool, open to every caller",
    )
}

pub(crate) fn session<'a>(alloc: Global) -> Result<Command<'a>, AllocError>
    ensures app { IfOk result (λ c. app_of c ≡ session_app) }
    ensures plain { IfOk result (λ c. (fields_of c).has_globals ≡ false) }
{
    let session = command(
        alloc,
        "session",
        "Serves one connection: reads HTTP requests from standard input, writes replies to standard output",
    );
    add(session, settings(alloc))
}

pub(crate) fn checkpoint<'a>(alloc: Global) -> Result<Command<'a>, AllocError>
    ensures app { IfOk result (λ c. app_of c ≡ checkpoint_app) }
    ensures plain { IfOk result (λ c. (fields_of c).has_globals ≡ false) }
{
    let checkpoint = command(
        alloc,
        "checkpoint",
        "Makes the kept records of a stopped server begin anew from its tasks, bots and blobs as they stand, then prints a line for each pool",
    );
    add(
        checkpoint,
        required(
            alloc,
            "settings",
            "FILE",
            "The settings of the server, a TOML file with a `store`, the folder of the records",
        ),
    )
}

pub(crate) fn drill<'a>(alloc: Global) -> Result<Command<'a>, AllocError>
    ensures app { IfOk result (λ c. app_of c ≡ drill_app) }
    ensures plain { IfOk result (λ c. (fields_of c).has_globals ≡ false) }
{
    let drill = command(
        alloc,
        "drill",
        "Makes a large valid session from a number, serves it in memory, and prints the counts of requests and replies",
    );
    let drill = add(
        drill,
        number(
            alloc,
            "cycles",
            1,
            10000,
            "1000",
            "How many rounds of requests the session has: 1 to 10000",
        ),
    )?;
    add(
        drill,
        number(
            alloc,
            "start",
            0,
            2147483647,
            "1",
            "The number that the session is made from: 0 to 2147483647. The same number makes the same session",
        ),
    )
}
