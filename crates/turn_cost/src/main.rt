//! Takes turns at a turnstile round a journal at which nobody else waits, as many as its word says,
//! and prints how many nanoseconds they took in all. Without a word it takes 1000 turns and prints
//! nothing. It ends with status 2 where its word is no number below 2^32.
//!
//! A turn is `enter` and `leave`, and nothing is done in it.
#![tactic(auto)]

mod turns;

use crate::turns::take_turns;
use std::process::ExitCode;
use std::time::Instant;
use std::{env, io};
use test_turnstile::Journal;
use turnstile::Turnstile;

/// The turns that are taken without a word.
const UNTIMED: u32 = 1000;

fn main(rt: HostRuntime) -> io::Result<ExitCode> {
    let word = env::args(&rt)?.nth(1);
    let count = match &word {
        None => Some(UNTIMED),
        Some(word) => word.parse::<u32>().ok(),
    };
    let Some(count) = count else {
        return Ok(ExitCode::from(2));
    };
    let (lock, pass) = Turnstile::new(rt.alloc(), Journal::new(rt.alloc(), 0))?;
    let begun = Instant::now(&rt)?;
    let _pass = take_turns(&rt, &lock, pass, count);
    let taken = begun.elapsed(&rt)?;
    if word.is_some() {
        println!(rt; "{}", taken.as_nanos())?;
    }
    Ok(ExitCode::SUCCESS)
}
