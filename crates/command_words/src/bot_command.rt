//! The command of a bot.

ghost use Rattle.std.specs.Prelude.{◌≡◌, IfOk, false};
ghost use Rattle.clap.specs.Words.{app_of};
ghost use Rattle.clap.specs.declared.builder.command.Command.TheViews.{out-Command as fields_of};
ghost use Rattle.command_words.specs.Grammar.{bot_app, bot_place_app, bot_limits_app};

use crate::arguments::{add, client, command, defaulted, number, required};
use clap::Command;
use std::alloc::{AllocError, Global};

/// The command with the server, and what the bot is.
fn with_place<'a>(alloc: Global) -> Result<Command<'a>, AllocError>
    ensures app { IfOk result (λ c. app_of c ≡ bot_place_app) }
    ensures plain { IfOk result (λ c. (fields_of c).has_globals ≡ false) }
{
    let bot = command(
        alloc,
        "bot",
        "Runs tasks of a server on this machine, one after the other, then prints why it ended",
    );
    let bot = client(bot, alloc)?;
    let bot = add(
        bot,
        required(alloc, "id", "NAME", "The name of the bot, such as linux-1"),
    )?;
    let bot = add(
        bot,
        required(
            alloc,
            "pool",
            "POOL",
            "The name of the pool whose tasks it runs",
        ),
    )?;
    add(
        bot,
        defaulted(
            alloc,
            "dimensions",
            "PAIRS",
            "",
            "What the machine has beside pool, id and caches: pairs key=value with ; between them, such as 'os=Linux;cpu=x86-64'",
        ),
    )
}

/// That with the limits of tasks, of polls and of steps.
fn with_limits<'a>(alloc: Global) -> Result<Command<'a>, AllocError>
    ensures app { IfOk result (λ c. app_of c ≡ bot_limits_app) }
    ensures plain { IfOk result (λ c. (fields_of c).has_globals ≡ false) }
{
    let bot = with_place(alloc)?;
    let bot = add(
        bot,
        number(
            alloc,
            "tasks",
            1,
            1000000,
            "1",
            "How many tasks it runs before it ends: 1 to 1000000",
        ),
    )?;
    let bot = add(
        bot,
        number(
            alloc,
            "polls",
            1,
            1000000,
            "1000",
            "How often it asks for work before it ends: 1 to 1000000",
        ),
    )?;
    add(
        bot,
        number(
            alloc,
            "steps",
            1,
            4000000000,
            "10000000",
            "How many steps it takes before it ends, each a request, a look at the output, a wait or the like: 1 to 4000000000",
        ),
    )
}

pub(crate) fn bot<'a>(alloc: Global) -> Result<Command<'a>, AllocError>
    ensures app { IfOk result (λ c. app_of c ≡ bot_app) }
    ensures plain { IfOk result (λ c. (fields_of c).has_globals ≡ false) }
{
    let bot = with_limits(alloc)?;
    let bot = add(
        bot,
        number(
            alloc,
            "caches",
            0,
            64,
            "8",
            "How many named caches it keeps: 0 to 64",
        ),
    )?;
    add(
        bot,
        number(
            alloc,
            "cache-bytes",
            0,
            1 << 40,
            "8589934592",
            "How many bytes its caches have in all: 0 to 1099511627776",
        ),
    )
}
