//! Workers and boards over new logs.
ghost use Rattle.std.specs.Prelude.{◌≡◌, ◌≤◌, IsTrue};
ghost use Rattle.swarm_model.specs.Settings.{are_settings};
ghost use Rattle.command_words.specs.Commands.{BoardRanges, boards_of};
ghost use Rattle.swarm_keeper.specs.Stores.{StoreState};
ghost use Rattle.swarm_cli.specs.Boarding.{RunsCrews};
ghost use Rattle.swarm_cli.specs.LargePools.{large_path};
ghost use Rattle.swarm_cli.specs.SettingsFile.{RunsWithBoards};

use crate::large_pools::{first_large, print_large};
use crate::serving::{no_keepers, print_summary, start_status, work_status};
use board_workers::{BoardPlan, serve_with_boards};
use command_words::Boards;
use std::alloc::Global;
use std::marker::Send;
use std::sync::Wait;
use std::thread::Threads;
use sw_base::{Acceptor, Listener};
use swarm_http::{Clock, Link};
use swarm_keeper::NoKeeper;
use swarm_machine::Pool;
use swarm_model::Settings;

/// Has workers and boards serve the links that come at their addresses over new logs, of which nothing
/// is kept, and prints their summary.
fn run_crews<T: Threads + Wait + Sync, L: Link, C: Clock + Drop + Send, N: Listener>(
    rt: &T,
    alloc: Global,
    settings: &Settings,
    address: &str,
    workers: u32,
    connections: u32,
    boards: &Boards,
    console: &mut L,
    clock: &C,
    listener: &mut N,
) -> u8
    requires rules { IsTrue (are_settings settings.now) }
    requires workers { (1 ≤ workers) × (workers ≤ 32) }
    requires number { connections ≤ 1000000 }
    requires some { 1 ≤ boards.now.count }
    requires boards { BoardRanges (boards_of boards.now) }
    ensures { RunsCrews address.now workers connections (boards_of boards.now) settings.now
        (record { console = L.state console.old; clock = C.ahead clock.now; listener = N.state listener.old })
        (record { console = L.state console.new; clock = C.ahead clock.now; listener = N.state listener.new }) result }
{
    let pools = settings.pools.as_slice();
    let Ok(keepers) = no_keepers(alloc, pools) else {
        return 5;
    };
    let plan = BoardPlan {
        boards: boards.count,
        connections: boards.connections,
        every: boards.every,
        rounds: boards.rounds,
    };
    match serve_with_boards::<Pool, NoKeeper, T, C, C, N>(
        rt,
        alloc,
        settings,
        keepers,
        address,
        workers,
        connections,
        clock,
        boards.address.as_str(),
        plan,
        clock.twin(),
        listener,
    ) {
        Ok((stop, machines)) => {
            print_summary(alloc, pools, &machines, console, work_status(stop))
        }
        Err(fault) => start_status(fault),
    }
}

/// Has workers and boards serve over new logs, unless a pool is too large for boards: that is printed.
pub(crate) fn run_with_boards<
    T: Threads + Wait + Sync,
    L: Link,
    C: Clock + Drop + Send,
    N: Listener,
>(
    rt: &T,
    alloc: Global,
    settings: &Settings,
    address: &str,
    workers: u32,
    connections: u32,
    boards: &Boards,
    console: &mut L,
    clock: &C,
    listener: &mut N,
) -> u8
    requires rules { IsTrue (are_settings settings.now) }
    requires workers { (1 ≤ workers) × (workers ≤ 32) }
    requires number { connections ≤ 1000000 }
    requires some { 1 ≤ boards.now.count }
    requires boards { BoardRanges (boards_of boards.now) }
    ensures { (store : StoreState) → RunsWithBoards (large_path settings.now.pools) address.now workers connections (boards_of boards.now) settings.now store store
        (record { console = L.state console.old; clock = C.ahead clock.now; listener = N.state listener.old })
        (record { console = L.state console.new; clock = C.ahead clock.now; listener = N.state listener.new }) result }
{
    match first_large(settings.pools.as_slice()) {
        Some((place, key)) => print_large(alloc, console, place, key),
        None => run_crews(
            rt,
            alloc,
            settings,
            address,
            workers,
            connections,
            boards,
            console,
            clock,
            listener,
        ),
    }
}
