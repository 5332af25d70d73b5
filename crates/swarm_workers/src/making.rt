//! The workers of a server, as they are made.
ghost use Rattle.std.specs.Prelude.{◌≡◌, ◌<◌, ◌≤◌, ◌+◌, ◌∷◌, ℕ, length, map, vec_len, vec_capacity, IfOk};
ghost use Rattle.std.specs.List.{All};
ghost use Rattle.shared_doors.specs.Machines.{lasting_in};
ghost use Rattle.shared_doors.specs.SharedDoors.{pools_of, identities_of, shared_door};
ghost use Rattle.shared_doors.specs.Views.{AreOf, first_view, view_at, views};
ghost use Rattle.swarm_workers.specs.Crews.{AreNewDoors, KnowsMade};
ghost use Rattle.swarm_workers.specs.Splits.{AreShares};

use crate::crew::Worker;
use crate::{WorkStop, Worked};
use shared_doors::{Passes, Server, SharedDoor};
use std::alloc::{AllocError, Global};
use std::sync::Wait;
use sw_base::Acceptor;
use swarm_http::{Clock, Door};
use swarm_keeper::Keeper;
use swarm_model::Machine;

/// Passes for the first of so many workers, and for each of the others in their order.
pub fn split_all<M: Machine + Drop, K: Keeper + Drop>(
    alloc: Global,
    server: &Server<M, K>,
    passes: Passes<M, K>,
    workers: u32,
) -> Result<(Passes<M, K>, Vec<Passes<M, K>>), AllocError>
    requires own { AreOf (lasting_in M.kept) server.now.turnstiles.items passes.passes.items }
    requires first { (p : ℕ) → p < length server.now.turnstiles.items → view_at (views passes.passes.items) p ≡ first_view }
    requires number { (1 ≤ workers) × (workers ≤ 32) }

    ensures count { IfOk result (λ r. length r.1.items + 1 ≡ workers) }
    ensures shares { IfOk result (λ r. AreShares (lasting_in M.kept) server.now.turnstiles.items 0 (map (λ s. s.passes.items) (r.0 ∷ r.1.items))) }
    ensures made { IfOk result (λ r. (p : ℕ) → p < length server.now.turnstiles.items → (view_at (views r.0.passes.items) p).made ≡ workers) }
{
    let mut others = Vec::with_capacity(alloc, workers as usize)?;
    let mut first = passes;
    for number in 1..workers {
        match server.split(first) {
            Ok((kept, given)) => {
                first = kept;
                others.push_reserved(given);
            }
            Err((error, _)) => return Err(error),
        }
    }
    Ok((first, others))
}

/// A worker with these passes, which did nothing yet.
fn make_worker<'a, M: Machine + Drop, K: Keeper + Drop, T: Wait, C: Clock, A: Acceptor>(
    rt: &'a T,
    server: &'a Server<M, K>,
    passes: Passes<M, K>,
    clock: &C,
    acceptor: A,
) -> Worker<SharedDoor<'a, M, K, T>, C, A>
    requires own { AreOf (lasting_in M.kept) server.now.turnstiles.items passes.passes.items }
    ensures door { ⟦<SharedDoor<'a, M, K, T> as Door>⟧.state result.door ≡ shared_door server.now.store (pools_of (lasting_in M.kept) server.now.turnstiles.items) (identities_of server.now.turnstiles.items) (views passes.passes.items) }
    ensures clock { C.ahead result.clock ≡ C.ahead clock.now }
    ensures acceptor { A.state result.acceptor ≡ A.state acceptor }
{
    Worker {
        door: SharedDoor::new(rt, server, passes),
        clock: clock.twin(),
        acceptor,
        worked: Worked {
            sessions: 0,
            stop: WorkStop::Done,
        },
    }
}

/// A worker for each acceptor, in their order. There is room for them.
pub fn make_workers<
    'a,
    M: Machine + Drop,
    K: Keeper + Drop,
    T: Wait,
    C: Clock + Drop,
    A: Acceptor + Drop,
>(
    rt: &'a T,
    server: &'a Server<M, K>,
    first: Passes<M, K>,
    others: Vec<Passes<M, K>>,
    clock: &C,
    acceptors: Vec<A>,
    room: Vec<Worker<SharedDoor<'a, M, K, T>, C, A>>,
) -> Vec<Worker<SharedDoor<'a, M, K, T>, C, A>>
    requires shares { AreShares (lasting_in M.kept) server.now.turnstiles.items 0 (map (λ s. s.passes.items) (first ∷ others.items)) }
    requires count { length acceptors.items ≡ length others.items + 1 }
    requires empty { vec_len room ≡ 0 }
    requires room { length acceptors.items ≤ vec_capacity room }

    ensures doors { AreNewDoors (record { store = server.now.store; pools = pools_of (lasting_in M.kept) server.now.turnstiles.items }) (identities_of server.now.turnstiles.items) 0
        (map (λ w. ⟦<SharedDoor<'a, M, K, T> as Door>⟧.state w.door) result.items) }
    ensures made { (made : ℕ) → ((p : ℕ) → p < length server.now.turnstiles.items → (view_at (views first.passes.items) p).made ≡ made)
        → KnowsMade (record { store = server.now.store; pools = pools_of (lasting_in M.kept) server.now.turnstiles.items }) made (map (λ w. ⟦<SharedDoor<'a, M, K, T> as Door>⟧.state w.door) result.items) }

    ensures clocks { All (λ w. C.ahead w.clock ≡ C.ahead clock.now) result.items }
    ensures acceptors { map (λ w. A.state w.acceptor) result.items ≡ map A.state acceptors.items }
{
    let mut workers = room;
    let mut acceptors = acceptors.into_iter();
    let Some(acceptor) = acceptors.next() else {
        unreachable!();
    };
    let worker = make_worker(rt, server, first, clock, acceptor);
    workers.push_reserved(worker);
    let mut others = others.into_iter();
    while let Some(passes) = others.next() {
        let Some(acceptor) = acceptors.next() else {
            unreachable!();
        };
        let worker = make_worker(rt, server, passes, clock, acceptor);
        workers.push_reserved(worker);
    }
    workers
}
