//! Several workers over new logs.
ghost use Rattle.std.specs.Prelude.{◌≡◌, ◌≤◌, IsTrue};
ghost use Rattle.swarm_model.specs.Settings.{are_settings};
ghost use Rattle.swarm_cli.specs.Sharing.{RunsShared};

use crate::serving::{no_keepers, print_summary, start_status, work_status};
use std::alloc::Global;
use std::marker::Send;
use std::sync::Wait;
use std::thread::Threads;
use sw_base::{Acceptor, Listener};
use swarm_http::{Clock, Link};
use swarm_keeper::NoKeeper;
use swarm_machine::Pool;
use swarm_model::Settings;
use swarm_workers::serve_shared;

/// Has several workers serve the links that come at the address over new logs, of which nothing is
/// kept, and prints their summary.
pub(crate) fn run_shared<T: Threads + Wait + Sync, L: Link, C: Clock + Drop + Send, N: Listener>(
    rt: &T,
    alloc: Global,
    settings: &Settings,
    address: &str,
    workers: u32,
    connections: u32,
    console: &mut L,
    clock: &C,
    listener: &mut N,
) -> u8
    requires rules { IsTrue (are_settings settings.now) }
    requires workers { (1 ≤ workers) × (workers ≤ 32) }
    requires number { connections ≤ 1000000 }
    ensures { RunsShared address.now workers connections settings.now
        (record { console = L.state console.old; clock = C.ahead clock.now; listener = N.state listener.old })
        (record { console = L.state console.new; clock = C.ahead clock.now; listener = N.state listener.new }) result }
{
    let pools = settings.pools.as_slice();
    let Ok(keepers) = no_keepers(alloc, pools) else {
        return 5;
    };
    match serve_shared::<Pool, NoKeeper, T, C, N>(
        rt,
        alloc,
        settings,
        keepers,
        address,
        workers,
        connections,
        clock,
        listener,
    ) {
        Ok((stop, machines)) => {
            print_summary(alloc, pools, &machines, console, work_status(stop))
        }
        Err(fault) => start_status(fault),
    }
}
