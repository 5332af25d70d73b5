//! Workers beside each other.
ghost use Rattle.std.specs.Prelude.{◌≡◌, ◌+◌, ◌*◌, ◌<◌, ◌≤◌, ◌^◌, length, map, IsTrue};
ghost use Rattle.std.specs.List.{All, AllZip};
ghost use Rattle.swarm_model.specs.Settings.{are_settings};
ghost use Rattle.swarm_workers.specs.Crews.{HasWorked};

use crate::{Worked, work};
use std::alloc::Global;
use std::marker::Send;
use std::thread::{self, Threads};
use sw_base::Acceptor;
use swarm_http::{Clock, Door};
use swarm_model::Settings;

/// What serves connections: a door, a clock and an acceptor of its own, and what it did with them.
#[derive(Drop)]
pub struct Worker<D, C, A> {
    pub door: D,
    pub clock: C,
    pub acceptor: A,
    pub worked: Worked,
}

fn serve<D: Door, C: Clock, A: Acceptor>(
    alloc: Global,
    settings: &Settings,
    worker: &mut Worker<D, C, A>,
    connections: u32,
)
    requires settings { (D.state worker.old.door).settings ≡ settings.now }
    requires rules { IsTrue (are_settings settings.now) }
    requires number { connections ≤ 1000000 }
    requires calls { (D.state worker.old.door).calls ≡ 0 }
    ensures { HasWorked connections
        (record { acceptor = A.state worker.old.acceptor; clock = C.ahead worker.old.clock; door = D.state worker.old.door; worked = worker.old.worked })
        (record { acceptor = A.state worker.new.acceptor; clock = C.ahead worker.new.clock; door = D.state worker.new.door; worked = worker.new.worked }) }
{
    worker.worked = work(
        alloc,
        settings,
        &mut worker.door,
        &mut worker.clock,
        &mut worker.acceptor,
        connections,
    );
}

/// Has each worker serve the links of its acceptor, so many at most: beside the others, in a thread of
/// its own where one can be made.
pub fn run_workers<T: Threads + Sync, D: Door + Send, C: Clock + Send, A: Acceptor>(
    rt: &T,
    alloc: Global,
    settings: &Settings,
    workers: &mut [Worker<D, C, A>],
    connections: u32,
)
    requires settings { All (λ w. (D.state w.door).settings ≡ settings.now) workers.old }
    requires rules { IsTrue (are_settings settings.now) }
    requires number { connections ≤ 1000000 }
    requires calls { All (λ w. (D.state w.door).calls ≡ 0) workers.old }
    requires some { 0 < length workers.old }
    ensures { AllZip (HasWorked connections)
        (map (λ w. record { acceptor = A.state w.acceptor; clock = C.ahead w.clock; door = D.state w.door; worked = w.worked }) workers.old)
        (map (λ w. record { acceptor = A.state w.acceptor; clock = C.ahead w.clock; door = D.state w.door; worked = w.worked }) workers.new) }
{
    let threads = workers.len();
    thread::for_each_mut(
        rt,
        workers,
        threads,
        &|_, worker: &mut Worker<D, C, A>|
            requires { ((D.state worker.now.door).settings ≡ settings.now) × IsTrue (are_settings settings.now) × (connections ≤ 1000000) × ((D.state worker.now.door).calls ≡ 0) }
            ensures { HasWorked connections
                (record { acceptor = A.state worker.entry.now.acceptor; clock = C.ahead worker.entry.now.clock; door = D.state worker.entry.now.door; worked = worker.entry.now.worked })
                (record { acceptor = A.state worker.exit.now.acceptor; clock = C.ahead worker.exit.now.clock; door = D.state worker.exit.now.door; worked = worker.exit.now.worked }) }
        { serve(alloc, settings, worker, connections) },
    );
}
