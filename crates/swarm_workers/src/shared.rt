//! The pools of one server, served by several workers.
ghost use Rattle.std.specs.Prelude.{◌≡◌, ◌≤◌, ℕ, length, map, slice_get, MatchResult, IfOk, IfSome, IsTrue};
ghost use Rattle.sw_base.specs.Listeners.{FailsToListen};
ghost use Rattle.swarm_model.specs.Bases.{empty_base};
ghost use Rattle.swarm_model.specs.Settings.{are_settings};
ghost use Rattle.swarm_history.specs.Machines.{logs_of, pools_of, start_at, starts_of};
ghost use Rattle.swarm_workers.specs.Shared.{ServesShared};

use crate::WorkStop;
use crate::crew::run_workers;
use crate::ending::end_workers;
use crate::making::{make_workers, split_all};
use shared_doors::Server;
use std::alloc::Global;
use std::marker::Send;
use std::sync::Wait;
use std::thread::Threads;
use sw_base::{Acceptor, Listener, StartFault};
use swarm_http::Clock;
use swarm_keeper::Keeper;
use swarm_model::{Machine, Settings};

/// Has so many workers serve the links that come at the address, each so many at most, over one
/// machine for each pool, whose log is empty at first. Answers the machines, in the order of the
/// pools, and the stop that decides how the work ended.
///
/// # Errors
///
/// Nothing was served: there was no memory, or the listener could not listen at the address.
pub fn serve_shared<
    M: Machine + Drop + Send,
    K: Keeper + Drop + Send,
    T: Threads + Wait + Sync,
    C: Clock + Drop + Send,
    N: Listener,
>(
    rt: &T,
    alloc: Global,
    settings: &Settings,
    keepers: Vec<K>,
    address: &str,
    workers: u32,
    connections: u32,
    clock: &C,
    listener: &mut N,
) -> Result<(WorkStop, Vec<M>), StartFault>
    requires rules { IsTrue (are_settings settings.now) }
    requires sure { IsTrue K.SURE }
    requires keepers { length keepers.items ≡ length settings.now.pools }
    requires workers { (1 ≤ workers) × (workers ≤ 32) }
    requires number { connections ≤ 1000000 }
    ensures serves { MatchResult result
        (λ served. ServesShared address.now workers connections settings.now (C.ahead clock.now) (N.state listener.old) (N.state listener.new) (logs_of (map M.kept served.1.items)) served.0)
        (λ fault. FailsToListen fault (N.state listener.old) (N.state listener.new)) }
    ensures pools { IfOk result (λ served. pools_of (map M.kept served.1.items) ≡ settings.now.pools) }
    ensures starts { IfOk result (λ served. (p : ℕ) → IfSome (slice_get settings.now.pools p) (λ pool. start_at (starts_of (map M.kept served.1.items)) p ≡ empty_base pool)) }
{
    let (server, passes) = Server::<M, K>::new(alloc, settings, keepers)?;
    let (first, others) = split_all(alloc, &server, passes, workers)?;
    let room = Vec::with_capacity(alloc, workers as usize)?;
    let machines = Vec::with_capacity(alloc, server.turnstiles.len())?;
    let acceptors = listener.listen(address, workers)?;
    let mut crew = make_workers(rt, &server, first, others, clock, acceptors, room);
    run_workers(rt, alloc, settings, &mut crew, connections);
    let (stop, passes) = end_workers(&server, listener, crew);
    match server.close(passes, machines) {
        Ok(machines) => Ok((stop, machines)),
        Err(_) => unreachable!(),
    }
}
