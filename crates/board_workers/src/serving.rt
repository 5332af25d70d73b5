//! The pools of one server, served by workers and boards.
ghost use Rattle.std.specs.Prelude.{◌≡◌, ◌≤◌, ℕ, length, map, slice_get, MatchResult, IfOk, IfSome, IsTrue};
ghost use Rattle.swarm_model.specs.Bases.{empty_base};
ghost use Rattle.swarm_model.specs.Settings.{are_settings};
ghost use Rattle.swarm_history.specs.Machines.{logs_of, pools_of, start_at, starts_of};
ghost use Rattle.board_workers.specs.Crews.{FailsToServe, ServesWithBoards};

use crate::ending::{serve_beside, shut_all};
use crate::making::{Prepared, make_boards, prepare};
use crate::plan::BoardPlan;
use std::alloc::Global;
use std::marker::Send;
use std::sync::Wait;
use std::thread::Threads;
use sw_base::{Acceptor, Listener, StartFault};
use swarm_http::Clock;
use swarm_keeper::Keeper;
use swarm_model::{Machine, Settings};
use swarm_workers::{WorkStop, make_workers};

/// Has so many workers serve the links that come at the address, each so many at most, over one
/// machine for each pool, whose log is empty at first; and beside them as many boards as the plan has
/// serve the links that come at theirs. What waits between two rounds of posts is a clock of its own.
/// Answers the machines, in the order of the pools, and the stop that decides how the work ended.
///
/// # Errors
///
/// Nothing was served: there was no memory, or the listener could not listen at one of the addresses.
/// Where it is the boards', the workers' acceptors are shut again.
pub fn serve_with_boards<
    M: Machine + Drop + Send,
    K: Keeper + Drop + Send,
    T: Threads + Wait + Sync,
    C: Clock + Drop + Send,
    P: Clock + Drop + Send,
    N: Listener,
>(
    rt: &T,
    alloc: Global,
    settings: &Settings,
    keepers: Vec<K>,
    address: &str,
    workers: u32,
    connections: u32,
    clock: &C,
    board_address: &str,
    plan: BoardPlan,
    board_clock: P,
    listener: &mut N,
) -> Result<(WorkStop, Vec<M>), StartFault>
    requires rules { IsTrue (are_settings settings.now) }
    requires sure { IsTrue K.SURE }
    requires keepers { length keepers.items ≡ length settings.now.pools }
    requires workers { (1 ≤ workers) × (workers ≤ 32) }
    requires number { connections ≤ 1000000 }
    requires boards { (1 ≤ plan.boards) × (plan.boards ≤ 8) }
    requires board_number { plan.connections ≤ 1000000 }
    requires rounds { plan.rounds ≤ 1000000 }
    ensures serves { MatchResult result
        (λ served. ServesWithBoards
        (record { address = address.now; number = workers; connections = connections })
        (record { address = board_address.now; number = plan.boards; connections = plan.connections })
        settings.now (C.ahead clock.now) (N.state listener.old) (N.state listener.new) (logs_of (map M.kept served.1.items)) served.0)
        (λ fault. FailsToServe (record { address = address.now; number = workers; connections = connections }) fault (N.state listener.old) (N.state listener.new)) }
    ensures pools { IfOk result (λ served. pools_of (map M.kept served.1.items) ≡ settings.now.pools) }
    ensures starts { IfOk result (λ served. (p : ℕ) → IfSome (slice_get settings.now.pools p) (λ pool. start_at (starts_of (map M.kept served.1.items)) p ≡ empty_base pool)) }
{
    let Prepared {
        server,
        first,
        others,
        posts,
        posters,
        views,
    } = prepare(rt, alloc, settings, keepers, workers, plan.boards)?;
    let room = Vec::with_capacity(alloc, workers as usize)?;
    let board_room = Vec::with_capacity(alloc, plan.boards as usize)?;
    let machines = Vec::with_capacity(alloc, server.turnstiles.len())?;
    let acceptors = listener.listen(address, workers)?;
    match listener.listen(board_address, plan.boards) {
        Ok(board_acceptors) => {
            let crew = make_workers(rt, &server, first, others, clock, acceptors, room);
            let boards = make_boards(views, board_acceptors, board_room);
            let (stop, passes) = serve_beside(
                rt,
                alloc,
                settings,
                &server,
                listener,
                crew,
                connections,
                boards,
                plan,
                posters,
                posts,
                board_clock,
            );
            match server.close(passes, machines) {
                Ok(machines) => Ok((stop, machines)),
                Err(_) => unreachable!(),
            }
        }
        Err(fault) => {
            shut_all(listener, acceptors);
            Err(fault)
        }
    }
}
