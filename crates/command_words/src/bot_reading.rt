//! The command `bot`, from what `clap` found of its words.

ghost use Rattle.std.specs.Prelude.{◌≡◌, ◌≤◌, ◌^◌, IfOk, IfSome, option_map, string_bytes};
ghost use Rattle.clap.specs.Words.{found_of, rows_of};
ghost use Rattle.command_words.specs.Commands.{HasRanges, bot_in, caches_in, limits_in, place_in, value_of};

use crate::command::{Bot, Command};
use crate::values::{client, large_number, number, text};
use clap::ArgMatches;
use std::alloc::{AllocError, Global};

/// The id of the bot, and its pool.
fn place(alloc: Global, found: &ArgMatches<'_>) -> Result<Option<(String, String)>, AllocError>
    ensures { IfOk result (λ p. option_map (λ p. (string_bytes p.0, string_bytes p.1)) p ≡ place_in (rows_of (found_of found.now))) }
{
    let id = text(alloc, found, "id")?;
    let pool = text(alloc, found, "pool")?;
    match (id, pool) {
        (Some(id), Some(pool)) => Ok(Some((id, pool))),
        _ => Ok(None),
    }
}

/// The limits of tasks and of polls.
fn limits(found: &ArgMatches<'_>) -> Option<(u32, u32)>
    ensures value { result ≡ limits_in (rows_of (found_of found.now)) }
    ensures tasks { IfSome result (λ l. (1 ≤ l.0) × (l.0 ≤ 1000000)) }
    ensures polls { IfSome result (λ l. (1 ≤ l.1) × (l.1 ≤ 1000000)) }
{
    let Some(tasks) = number(found, "tasks", 1, 1000000) else {
        return None;
    };
    let Some(polls) = number(found, "polls", 1, 1000000) else {
        return None;
    };
    Some((tasks, polls))
}

/// How many caches there may be, and of how many bytes in all.
fn caches(found: &ArgMatches<'_>) -> Option<(u32, u64)>
    ensures value { result ≡ caches_in (rows_of (found_of found.now)) }
    ensures count { IfSome result (λ c. c.0 ≤ 64) }
    ensures bytes { IfSome result (λ c. c.1 ≤ 2 ^ 40) }
{
    let Some(caches) = number(found, "caches", 0, 64) else {
        return None;
    };
    let Some(cache_bytes) = large_number(found, "cache-bytes", 0, 1 << 40) else {
        return None;
    };
    Some((caches, cache_bytes))
}

#[tactic(auto, using(crate::proofs::BotParts::bot_value))]
pub(crate) fn bot(alloc: Global, found: &ArgMatches<'_>) -> Result<Option<Command>, AllocError>
    ensures value { IfOk result (λ c. option_map value_of c ≡ bot_in (rows_of (found_of found.now))) }
    ensures ranges { IfOk result (λ c. IfSome c (λ c. HasRanges (value_of c))) }
{
    let Some((tasks, polls)) = limits(found) else {
        return Ok(None);
    };
    let Some(steps) = number(found, "steps", 1, 4000000000) else {
        return Ok(None);
    };
    let Some((caches, cache_bytes)) = caches(found) else {
        return Ok(None);
    };
    let Some((server, caller)) = client(alloc, found)? else {
        return Ok(None);
    };
    let Some((id, pool)) = place(alloc, found)? else {
        return Ok(None);
    };
    let Some(dimensions) = text(alloc, found, "dimensions")? else {
        return Ok(None);
    };
    Ok(Some(Command::Bot(Bot {
        server,
        caller,
        id,
        pool,
        dimensions,
        tasks,
        polls,
        steps,
        caches,
        cache_bytes,
    })))
}
