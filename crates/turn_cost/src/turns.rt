ghost use Rattle.std.specs.Prelude.{◌≡◌, ◌+◌, ◌≤◌, ◌^◌};
ghost use Rattle.turnstile.specs.Passes.{IsPassOf, turns};

use std::sync::Wait;
use test_turnstile::Journal;
use turnstile::{Pass, Turnstile};

/// So many turns, in each of which nothing is done.
pub fn take_turns<R: Wait>(
    rt: &R,
    lock: &Turnstile<Journal>,
    mut pass: Pass<Journal>,
    count: u32,
) -> Pass<Journal>
    requires own { IsPassOf (λ j. j.title) lock.now pass }
    requires turns { turns pass + count ≤ 2 ^ 40 }
    ensures own { IsPassOf (λ j. j.title) lock.now result }
    ensures turns { turns result ≡ turns pass + count }
{
    for _turn in 0..count {
        pass = lock.enter(rt, pass).leave();
    }
    pass
}
