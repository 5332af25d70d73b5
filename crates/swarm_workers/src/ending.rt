//! The workers of a server, as they end.
ghost use Rattle.std.specs.Prelude.{◌≡◌, ◌<◌, ◌≤◌, ◌+◌, ℕ, length, map, IfSome};
ghost use Rattle.std.specs.List.{All};
ghost use Rattle.sw_base.specs.Listeners.{Shuts};
ghost use Rattle.sw_base.specs.Told.{IsOut};
ghost use Rattle.shared_doors.specs.Machines.{lasting_in};
ghost use Rattle.shared_doors.specs.SharedDoors.{identities_of, pools_of, shared_door};
ghost use Rattle.shared_doors.specs.Views.{AreOf, view_at, views};
ghost use Rattle.swarm_workers.specs.Crews.{IsDoorTo, IsFirst, IsJoined, ShutsAll, graver, stop_of};

use crate::WorkStop;
use crate::crew::Worker;
use shared_doors::{Passes, Server, SharedDoor};
use std::sync::Wait;
use sw_base::Listener;
use swarm_http::{Clock, Door};
use swarm_keeper::Keeper;
use swarm_model::Machine;

/// Of two stops the one that decides how the work ended.
pub fn graver(stop: WorkStop, other: WorkStop) -> WorkStop
    ensures { result ≡ graver stop other }
{
    match (stop, other) {
        (WorkStop::Failed, _) | (_, WorkStop::Failed) => WorkStop::Failed,
        (WorkStop::Memory, _) => WorkStop::Memory,
        (WorkStop::Done | WorkStop::NoMore, other) => other,
    }
}

/// Ends one worker: its passes come out of its door, and its acceptor is shut.
fn end_worker<'a, M: Machine + Drop, K: Keeper + Drop, T: Wait, C: Clock + Drop, N: Listener>(
    server: &Server<M, K>,
    listener: &mut N,
    worker: Worker<SharedDoor<'a, M, K, T>, C, N::Acceptor>,
) -> (WorkStop, Passes<M, K>)
    requires door { IsDoorTo (record { store = server.now.store; pools = pools_of (lasting_in M.kept) server.now.turnstiles.items }) (identities_of server.now.turnstiles.items) (⟦<SharedDoor<'a, M, K, T> as Door>⟧.state worker.door) }
    requires out { IsOut (N.state listener.old).out }

    ensures own { AreOf (lasting_in M.kept) server.now.turnstiles.items result.1.passes.items }
    ensures door { ⟦<SharedDoor<'a, M, K, T> as Door>⟧.state worker.entry.door ≡ shared_door server.now.store (pools_of (lasting_in M.kept) server.now.turnstiles.items) (identities_of server.now.turnstiles.items) (views result.1.passes.items) }

    ensures shuts { Shuts (N.Acceptor.state worker.entry.acceptor) (N.state listener.old) (N.state listener.new) }
    ensures stop { result.0 ≡ worker.entry.worked.stop }
{
    let Worker {
        door,
        clock: _,
        acceptor,
        worked,
    } = worker;
    let passes = door.end(server);
    listener.shut(acceptor);
    (worked.stop, passes)
}

/// Ends the workers in their order: joins their passes, and shuts their acceptors.
pub fn end_workers<'a, M: Machine + Drop, K: Keeper + Drop, T: Wait, C: Clock + Drop, N: Listener>(
    server: &Server<M, K>,
    listener: &mut N,
    workers: Vec<Worker<SharedDoor<'a, M, K, T>, C, N::Acceptor>>,
) -> (WorkStop, Passes<M, K>)
    requires some { 0 < length workers.items }
    requires doors { All (λ w. IsDoorTo (record { store = server.now.store; pools = pools_of (lasting_in M.kept) server.now.turnstiles.items }) (identities_of server.now.turnstiles.items) (⟦<SharedDoor<'a, M, K, T> as Door>⟧.state w.door)) workers.items }
    requires out { IfSome (N.state listener.old).out (λ n. length workers.items ≤ n) }

    ensures own { AreOf (lasting_in M.kept) server.now.turnstiles.items result.1.passes.items }
    ensures joined { (p : ℕ) → p < length server.now.turnstiles.items → IsJoined p (map (λ w. ⟦<SharedDoor<'a, M, K, T> as Door>⟧.state w.door) workers.entry.items) (view_at (views result.1.passes.items) p) }
    ensures first { (p : ℕ) → p < length server.now.turnstiles.items → IsFirst p (map (λ w. ⟦<SharedDoor<'a, M, K, T> as Door>⟧.state w.door) workers.entry.items) (view_at (views result.1.passes.items) p) }

    ensures shuts { ShutsAll (map (λ w. N.Acceptor.state w.acceptor) workers.entry.items) (N.state listener.old) (N.state listener.new) }
    ensures stop { result.0 ≡ stop_of (map (λ w. w.worked.stop) workers.entry.items) }
{
    let mut rest = workers.into_iter();
    let Some(worker) = rest.next() else {
        unreachable!();
    };
    let (mut stop, mut passes) = end_worker(server, listener, worker);
    while let Some(worker) = rest.next() {
        let (next, given) = end_worker(server, listener, worker);
        passes = server.join(passes, given);
        stop = graver(stop, next);
    }
    (stop, passes)
}
