ghost use Rattle.std.specs.Prelude.{◌≡◌, ◌+◌, ◌<◌, ◌≤◌, ◌^◌};
ghost use Rattle.turnstile.specs.Passes.{IsPassOf, IsTurn, IsRaised, lock_of, pass_of, turns};

use crate::journal::Journal;
use std::alloc::AllocError;
use std::sync::Wait;
use std::thread;
use std::thread::Threads;
use turnstile::{Pass, Turn, Turnstile};

/// Writes an item under the number of the pass whose turn it is, and raises it.
pub fn write_one(turn: &mut Turn<'_, Journal>, item: u32) -> Result<(), AllocError>
    requires ready { IsTurn (λ j. j.title) turn.old × IsRaised (λ j. j.entries.items) (λ j. j.title) turn.old }
    ensures ready { IsTurn (λ j. j.title) turn.new × IsRaised (λ j. j.entries.items) (λ j. j.title) turn.new }
    ensures same { (lock_of turn.new ≡ lock_of turn.old) × (turns (pass_of turn.new) ≡ turns (pass_of turn.old)) }
{
    let number = turn.number();
    turn.value().write(number, item)?;
    turn.raise();
    Ok(())
}

/// One turn, in which an item is written. `false`: the journal had no room.
pub fn add_one<R: Wait>(
    rt: &R,
    lock: &Turnstile<Journal>,
    pass: Pass<Journal>,
    item: u32,
) -> (Pass<Journal>, bool)
    requires own { IsPassOf (λ j. j.title) lock.now pass }
    requires turns { turns pass < 2 ^ 40 }
    ensures own { IsPassOf (λ j. j.title) lock.now result.0 }
    ensures turns { turns result.0 ≡ turns pass + 1 }
{
    let mut turn = lock.enter(rt, pass);
    let added = write_one(&mut turn, item).is_ok();
    (turn.leave(), added)
}

/// A turn for each item below the count, as long as there is room.
pub fn add_all<R: Wait>(
    rt: &R,
    lock: &Turnstile<Journal>,
    mut pass: Pass<Journal>,
    count: u32,
) -> (Pass<Journal>, bool)
    requires own { IsPassOf (λ j. j.title) lock.now pass }
    requires turns { turns pass + count ≤ 2 ^ 40 }
    ensures { IsPassOf (λ j. j.title) lock.now result.0 }
{
    for item in 0..count {
        let (back, added) = add_one(rt, lock, pass, item);
        pass = back;
        if !added {
            return (pass, false);
        }
    }
    (pass, true)
}

/// Two threads, each of which adds so many items.
pub fn add_in_two<R: Threads + Wait + Sync>(
    rt: &R,
    lock: &Turnstile<Journal>,
    one: Pass<Journal>,
    two: Pass<Journal>,
    count: u32,
) -> ((Pass<Journal>, bool), (Pass<Journal>, bool))
    requires own { IsPassOf (λ j. j.title) lock.now one × IsPassOf (λ j. j.title) lock.now two }
    requires turns { (turns one + count ≤ 2 ^ 40) × (turns two + count ≤ 2 ^ 40) }
    ensures { IsPassOf (λ j. j.title) lock.now result.0.0 × IsPassOf (λ j. j.title) lock.now result.1.0 }
{
    thread::join(
        rt,
        || -> (Pass<Journal>, bool)
            requires { IsPassOf (λ j. j.title) lock.now one × (turns one + count ≤ 2 ^ 40) }
            ensures { IsPassOf (λ j. j.title) lock.entry.now result.0 }
        { add_all(rt, lock, one, count) },
        || -> (Pass<Journal>, bool)
            requires { IsPassOf (λ j. j.title) lock.now two × (turns two + count ≤ 2 ^ 40) }
            ensures { IsPassOf (λ j. j.title) lock.entry.now result.0 }
        { add_all(rt, lock, two, count) },
    )
}
