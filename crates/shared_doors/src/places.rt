//! One pass among those of a server, by its place.
ghost use Rattle.std.specs.Prelude.{◌≡◌, ◌<◌, ◌≤◌, ◌^◌, ℕ, length, get_or, slice_index_or, slice_set, take, drop, Some, None, IsTrue, is_some, IfOk};
ghost use Rattle.std.specs.Bool.{Decides};
ghost use Rattle.turnstile.specs.Passes.{IsPassOf};
ghost use Rattle.shared_doors.specs.Machines.{lasting_in};
ghost use Rattle.shared_doors.specs.Joined.{IsAloneView, Joins, MaySplit, Splits};
ghost use Rattle.shared_doors.specs.SharedDoors.{pools_of, start_of};
ghost use Rattle.shared_doors.specs.Turns.{TakesTurnAt};
ghost use Rattle.shared_doors.specs.Views.{AreOf, IsFrontOf, IsOneOf, look, view_at, views};

use crate::kept::Kept;
use crate::server::{Passes, Server};
use crate::shared_desk::copy_turn;
use std::alloc::AllocError;
use std::sync::Wait;
use swarm_keeper::Keeper;
use swarm_model::{Entry, Machine};
use turnstile::Pass;

/// Takes out the pass at a place.
pub(crate) fn take_at<M: Machine + Drop, K: Keeper + Drop>(
    passes: &mut Vec<Option<Pass<Kept<M, K>>>>,
    place: usize,
) -> Pass<Kept<M, K>>
    requires place { place < length passes.old.items }
    requires there { IsTrue (is_some (slice_index_or passes.old.items place None)) }
    ensures pass { slice_index_or passes.old.items place None ≡ Some result }
    ensures taken { passes.new.items ≡ slice_set passes.old.items place None }
{
    let Some(pass) = passes[place].take() else {
        unreachable!();
    };
    pass
}

/// Splits the pass at a place. The new one is given.
pub(crate) fn split_at<M: Machine + Drop, K: Keeper + Drop>(
    server: &Server<M, K>,
    passes: &mut Passes<M, K>,
    place: usize,
) -> Pass<Kept<M, K>>
    requires own { AreOf (lasting_in M.kept) server.now.turnstiles.items passes.old.passes.items }
    requires place { place < length server.now.turnstiles.items }
    requires first { MaySplit (view_at (views passes.old.passes.items) place) }
    ensures own { AreOf (lasting_in M.kept) server.now.turnstiles.items passes.new.passes.items }
    ensures given { IsOneOf (lasting_in M.kept) server.now.turnstiles.items place result }
    ensures split { (kept : _) × (views passes.new.passes.items ≡ slice_set (views passes.old.passes.items) place kept) × Splits (view_at (views passes.old.passes.items) place) kept (look result) }
{
    let pass = take_at(&mut passes.passes, place);
    let turnstile = &server.turnstiles[place];
    let (kept, given) = turnstile.split(pass);
    passes.passes[place] = Some(kept);
    given
}

/// Joins another pass to the one at a place.
pub(crate) fn join_at<M: Machine + Drop, K: Keeper + Drop>(
    server: &Server<M, K>,
    passes: &mut Passes<M, K>,
    place: usize,
    other: Pass<Kept<M, K>>,
)
    requires own { AreOf (lasting_in M.kept) server.now.turnstiles.items passes.old.passes.items }
    requires place { place < length server.now.turnstiles.items }
    requires other { IsOneOf (lasting_in M.kept) server.now.turnstiles.items place other }
    ensures own { AreOf (lasting_in M.kept) server.now.turnstiles.items passes.new.passes.items }
    ensures joined { (joined : _) × (views passes.new.passes.items ≡ slice_set (views passes.old.passes.items) place joined) × Joins (view_at (views passes.old.passes.items) place) (look other) joined }
{
    let pass = take_at(&mut passes.passes, place);
    let turnstile = &server.turnstiles[place];
    let joined = turnstile.join(pass, other);
    passes.passes[place] = Some(joined);
}

/// Whether no other pass is out at a place.
pub(crate) fn alone_at<M: Machine + Drop, K: Keeper + Drop>(
    server: &Server<M, K>,
    passes: &Passes<M, K>,
    place: usize,
) -> bool
    requires own { AreOf (lasting_in M.kept) server.now.turnstiles.items passes.now.passes.items }
    requires place { place < length server.now.turnstiles.items }
    ensures { Decides result (IsAloneView (view_at (views passes.now.passes.items) place)) }
{
    match &passes.passes[place] {
        Some(pass) => server.turnstiles[place].alone(pass),
        None => unreachable!(),
    }
}

/// The length of the log of the pool at a place, read without a turn.
pub(crate) fn front_at<M: Machine + Drop, K: Keeper + Drop>(
    server: &Server<M, K>,
    passes: &mut Passes<M, K>,
    place: usize,
) -> u64
    requires own { AreOf (lasting_in M.kept) server.now.turnstiles.items passes.old.passes.items }
    requires place { place < length server.now.turnstiles.items }
    ensures own { AreOf (lasting_in M.kept) server.now.turnstiles.items passes.new.passes.items }
    ensures front { IsFrontOf (view_at (views passes.old.passes.items) place) result }
    ensures told { views passes.new.passes.items ≡ slice_set (views passes.old.passes.items) place (record (view_at (views passes.old.passes.items) place) { told = result }) }
{
    let mut pass = take_at(&mut passes.passes, place);
    let front = server.turnstiles[place].front(&mut pass);
    passes.passes[place] = Some(pass);
    front
}

/// One turn of the pass at a place, in which the next `most` entries of the log from the place `from`
/// are copied, or all where fewer are there.
pub(crate) fn copy_at<M: Machine + Drop, K: Keeper + Drop, R: Wait>(
    rt: &R,
    server: &Server<M, K>,
    passes: &mut Passes<M, K>,
    place: usize,
    from: u64,
    most: u32,
) -> Result<Vec<Entry>, AllocError>
    requires own { AreOf (lasting_in M.kept) server.now.turnstiles.items passes.old.passes.items }
    requires place { place < length server.now.turnstiles.items }
    requires turns { (view_at (views passes.old.passes.items) place).turns < 2 ^ 40 }
    ensures own { AreOf (lasting_in M.kept) server.now.turnstiles.items passes.new.passes.items }
    ensures copied { IfOk result (λ entries. entries.items ≡ take most (drop from (view_at (views passes.new.passes.items) place).seen)) }
    ensures turn { TakesTurnAt (start_of (pools_of (lasting_in M.kept) server.now.turnstiles.items) place).rows place (views passes.old.passes.items) (views passes.new.passes.items) }
{
    let pass = take_at(&mut passes.passes, place);
    let turnstile = &server.turnstiles[place];
    let (pass, copied) = copy_turn(rt, server.alloc, turnstile, pass, from, most);
    passes.passes[place] = Some(pass);
    copied
}
