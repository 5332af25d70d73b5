//! The command `serve`, from what `clap` found of its words.

ghost use Rattle.std.specs.Prelude.{◌≡◌, ◌≤◌, IfOk, IfSome, option_map, string_bytes};
ghost use Rattle.clap.specs.Words.{found_of, rows_of};
ghost use Rattle.command_words.specs.Commands.{BoardRanges, HasRanges, boards_in, boards_of, posts_in, serve_in, value_of, workers_in};

use crate::command::{Boards, Command, Serve};
use crate::values::{number, text};
use clap::ArgMatches;
use std::alloc::{AllocError, Global};

/// How many workers there are, and how many connections each serves.
fn workers(found: &ArgMatches<'_>) -> Option<(u32, u32)>
    ensures value { result ≡ workers_in (rows_of (found_of found.now)) }
    ensures count { IfSome result (λ w. (1 ≤ w.0) × (w.0 ≤ 32)) }
    ensures connections { IfSome result (λ w. (1 ≤ w.1) × (w.1 ≤ 1000000)) }
{
    let Some(workers) = number(found, "workers", 1, 32) else {
        return None;
    };
    let Some(connections) = number(found, "connections", 1, 1000000) else {
        return None;
    };
    Some((workers, connections))
}

/// The seconds between two rounds, and how many rounds there are.
fn posts(found: &ArgMatches<'_>) -> Option<(u32, u32)>
    ensures value { result ≡ posts_in (rows_of (found_of found.now)) }
    ensures every { IfSome result (λ p. (1 ≤ p.0) × (p.0 ≤ 3600)) }
    ensures rounds { IfSome result (λ p. (1 ≤ p.1) × (p.1 ≤ 1000000)) }
{
    let Some(every) = number(found, "board-every", 1, 3600) else {
        return None;
    };
    let Some(rounds) = number(found, "board-rounds", 1, 1000000) else {
        return None;
    };
    Some((every, rounds))
}

#[tactic(auto, using(crate::proofs::ServeParts::boards_value))]
fn boards(alloc: Global, found: &ArgMatches<'_>) -> Result<Option<Boards>, AllocError>
    ensures value { IfOk result (λ b. option_map boards_of b ≡ boards_in (rows_of (found_of found.now))) }
    ensures ranges { IfOk result (λ b. IfSome b (λ b. BoardRanges (boards_of b))) }
{
    let Some(count) = number(found, "boards", 0, 8) else {
        return Ok(None);
    };
    let Some(connections) = number(found, "board-connections", 1, 1000000) else {
        return Ok(None);
    };
    let Some((every, rounds)) = posts(found) else {
        return Ok(None);
    };
    match text(alloc, found, "board-address")? {
        Some(address) => Ok(Some(Boards {
            count,
            address,
            connections,
            every,
            rounds,
        })),
        None => Ok(None),
    }
}

#[tactic(auto, using(crate::proofs::ServeParts::serve_value))]
pub(crate) fn serve(alloc: Global, found: &ArgMatches<'_>) -> Result<Option<Command>, AllocError>
    ensures value { IfOk result (λ c. option_map value_of c ≡ serve_in (rows_of (found_of found.now))) }
    ensures ranges { IfOk result (λ c. IfSome c (λ c. HasRanges (value_of c))) }
{
    let Some((workers, connections)) = workers(found) else {
        return Ok(None);
    };
    let Some(boards) = boards(alloc, found)? else {
        return Ok(None);
    };
    let settings = text(alloc, found, "settings")?;
    match text(alloc, found, "address")? {
        Some(address) => Ok(Some(Command::Serve(Serve {
            settings,
            address,
            workers,
            connections,
            boards,
        }))),
        None => Ok(None),
    }
}
