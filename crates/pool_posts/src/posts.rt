ghost use Rattle.std.specs.Prelude.{◌≡◌, ◌<◌, ◌+◌, ◌^◌, ◌++◌, List, [], length, take, OnOk, OnErr};
ghost use mathlib.Core.List.{IsPrefix};
ghost use Rattle.swarm_model.specs.declared.entry.Entry.{Entry};
ghost use Rattle.swarm_model.specs.History.{IsLegal};
ghost use Rattle.shared_doors.specs.Machines.{lasting_in};
ghost use Rattle.shared_doors.specs.SharedDoors.{pools_of, start_of};
ghost use Rattle.shared_doors.specs.Turns.{TakesTurnAt};
ghost use Rattle.shared_doors.specs.Views.{AreOf, view_at, views};
ghost use Rattle.pool_posts.specs.Takes.{TakesIn};

use shared_doors::{Passes, Server};
use std::alloc::AllocError;
use std::sync::Wait;
use swarm_boards::Poster;
use swarm_keeper::Keeper;
use swarm_model::{Entry, Machine};

/// The most entries that are copied in one turn.
const MOST_ENTRIES: u32 = 4096;

/// Takes in the entries in their order.
fn add_all(poster: &mut Poster, entries: Vec<Entry>) -> Result<(), AllocError>
    requires legal { IsLegal poster.old.start.rows (poster.old.published ++ poster.old.pending ++ entries.items) }
    ensures all { OnOk result (TakesIn poster.old poster.new entries.items []) }
    ensures some { OnErr result ((rest : List Entry) × TakesIn poster.old poster.new entries.items rest) }
{
    let mut rest = entries.into_iter();
    while let Some(entry) = rest.next() {
        let Ok(()) = poster.add(entry) else {
            return Err(AllocError);
        };
    }
    Ok(())
}

/// Publishes the entries behind those that the poster has taken in.
fn publish_all<R: Wait>(rt: &R, poster: &mut Poster, entries: Vec<Entry>) -> Result<(), AllocError>
    requires legal { IsLegal poster.old.start.rows (poster.old.published ++ poster.old.pending ++ entries.items) }
    ensures all { OnOk result (poster.new ≡ record poster.old { published = poster.old.published ++ poster.old.pending ++ entries.items; pending = [] }) }
    ensures some { OnErr result ((rest : List Entry) × TakesIn poster.old poster.new entries.items rest) }
{
    add_all(poster, entries)?;
    poster.publish(rt)
}

/// Waits for the turn of the pool at the place, and copies in it the next 4096 entries of the log that
/// the poster has not taken in, or all where fewer are there. They are published behind the turn.
///
/// # Errors
///
/// Want of memory. What was taken in by then stays pending, and the next call goes on behind it.
pub fn post<M: Machine + Drop, K: Keeper + Drop, R: Wait>(
    rt: &R,
    poster: &mut Poster,
    server: &Server<M, K>,
    passes: Passes<M, K>,
    place: u32,
) -> (Passes<M, K>, Result<(), AllocError>)
    requires own { AreOf (lasting_in M.kept) server.now.turnstiles.items passes.passes.items }
    requires place { place < length server.now.turnstiles.items }
    requires turns { (view_at (views passes.passes.items) place).turns < 2 ^ 40 }

    // The poster's log is that of the pool, and the pass has seen what the poster has.
    requires start { poster.old.start ≡ start_of (pools_of (lasting_in M.kept) server.now.turnstiles.items) place }
    requires prefix { IsPrefix (poster.old.published ++ poster.old.pending) (view_at (views passes.passes.items) place).seen }

    ensures own { AreOf (lasting_in M.kept) server.now.turnstiles.items result.0.passes.items }
    ensures turn { TakesTurnAt (start_of (pools_of (lasting_in M.kept) server.now.turnstiles.items) place).rows place (views passes.passes.items) (views result.0.passes.items) }

    ensures start { poster.new.start ≡ poster.old.start }
    ensures prefix { IsPrefix (poster.new.published ++ poster.new.pending) (view_at (views result.0.passes.items) place).seen }

    ensures published { OnOk result.1 (poster.new.published ≡ take (length (poster.old.published ++ poster.old.pending) + 4096) (view_at (views result.0.passes.items) place).seen) }
    ensures none_pending { OnOk result.1 (poster.new.pending ≡ []) }

    // Without memory nothing more is published, and what was pending still is.
    ensures same_published { OnErr result.1 (poster.new.published ≡ poster.old.published) }
    ensures still_pending { OnErr result.1 (IsPrefix poster.old.pending poster.new.pending) }
{
    let from = poster.length();
    let (passes, copied) = server.copy(rt, passes, place, from, MOST_ENTRIES);
    let Ok(entries) = copied else {
        return (passes, Err(AllocError));
    };
    let posted = publish_all(rt, poster, entries);
    (passes, posted)
}
