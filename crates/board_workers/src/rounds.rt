//! Rounds of posts, beside those that serve.
ghost use Rattle.std.specs.Prelude.{◌≡◌, ◌≤◌, ◌<◌, ◌+◌, ◌^◌, ℕ, length, map};
ghost use Rattle.shared_doors.specs.Machines.{lasting_in};
ghost use Rattle.shared_doors.specs.Views.{views};
ghost use Rattle.board_workers.specs.Posts.{EachReads, MayPost};

use crate::plan::BoardPlan;
use crate::posters::OwnPoster;
use pool_posts::post;
use shared_doors::{Passes, Server};
use std::sync::Wait;
use std::sync::atomic::{AtomicU64, Ordering};
use swarm_http::Clock;
use swarm_keeper::Keeper;
use swarm_model::Machine;

/// Posts each pool. Want of memory is let pass: what was taken in stays pending for the next round.
fn post_all<'a, M: Machine + Drop, K: Keeper + Drop, R: Wait>(
    rt: &R,
    server: &Server<M, K>,
    posters: &mut Vec<OwnPoster<'a, R>>,
    passes: Passes<M, K>,
) -> Passes<M, K>
    requires few { length server.now.turnstiles.items ≤ 4 }
    requires may { (turns : ℕ) × (turns < 2 ^ 40) × MayPost (lasting_in M.kept) server.now.turnstiles.items turns (map (λ own. own.poster) posters.old.items) passes.passes.items }
    ensures may { (turns : ℕ) → turns < 2 ^ 40 → MayPost (lasting_in M.kept) server.now.turnstiles.items turns (map (λ own. own.poster) posters.old.items) passes.passes.items
        → MayPost (lasting_in M.kept) server.now.turnstiles.items (turns + 1) (map (λ own. own.poster) posters.new.items) result.passes.items }
    ensures reads { EachReads (length server.now.turnstiles.items) (views passes.passes.items) (views result.passes.items) }
{
    let mut passes = passes;
    for place in 0..posters.len() {
        let poster = &mut posters[place].poster;
        let (given, _posted) = post(rt, poster, server, passes, place as u32);
        passes = given;
    }
    passes
}

/// Waits for so many seconds, or until so many crews are done. Tells whether they are.
fn wait_round<C: Clock>(clock: &mut C, seconds: u32, done: &AtomicU64, crews: u64) -> bool {
    for _second in 0..seconds {
        if crews <= done.load(Ordering::SeqCst) {
            return true;
        }
        clock.wait(1);
    }
    crews <= done.load(Ordering::SeqCst)
}

/// Posts each pool and then waits, round after round: until there were as many as the plan has, or so
/// many crews are done.
pub(crate) fn run_rounds<'a, M: Machine + Drop, K: Keeper + Drop, R: Wait, C: Clock>(
    rt: &R,
    server: &Server<M, K>,
    posters: &mut Vec<OwnPoster<'a, R>>,
    passes: Passes<M, K>,
    clock: &mut C,
    plan: BoardPlan,
    done: &AtomicU64,
    crews: u64,
) -> Passes<M, K>
    requires few { length server.now.turnstiles.items ≤ 4 }
    requires rounds { plan.rounds ≤ 1000000 }
    requires may { MayPost (lasting_in M.kept) server.now.turnstiles.items 0 (map (λ own. own.poster) posters.old.items) passes.passes.items }
    ensures may { (turns : ℕ) × MayPost (lasting_in M.kept) server.now.turnstiles.items turns (map (λ own. own.poster) posters.new.items) result.passes.items }
    ensures reads { EachReads (length server.now.turnstiles.items) (views passes.passes.items) (views result.passes.items) }
{
    let mut passes = passes;
    for _round in 0..plan.rounds {
        passes = post_all(rt, server, posters, passes);
        if wait_round(clock, plan.every, done, crews) {
            break;
        }
    }
    passes
}
