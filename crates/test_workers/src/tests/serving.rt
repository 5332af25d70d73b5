//! Workers that serve links in memory.
ghost use Rattle.std.specs.Prelude.{◌≡◌, ◌≤◌, map, IfOk, IsTrue};
ghost use Rattle.sw_base.specs.Listeners.{IsGiven};
ghost use Rattle.swarm_model.specs.Settings.{are_settings};

use crate::tests::clients::Asked;
use std::alloc::{AllocError, Global};
use std::marker::Send;
use std::sync::Wait;
use std::thread::Threads;
use sw_base::{Acceptor, Listener, MemoryAcceptor, MemoryListener, StartFault, StepClock};
use swarm_keeper::NoKeeper;
use swarm_machine::Pool;
use swarm_model::{Machine, Settings};
use swarm_workers::{WorkStop, serve_shared};
use test_sessions::no_keepers;

/// How many bytes a call of a link moves at most.
pub const PIECE: usize = 4096;

/// A clock whose moment stays, so that no deadline comes.
pub const STILL: StepClock = StepClock {
    at: 1000,
    step: 0,
    waited: 0,
};

/// The bytes of these requests, one behind the other.
fn input_of(alloc: Global, requests: &[Asked]) -> Result<Vec<u8>, AllocError> {
    let mut input = Vec::new(alloc);
    for request in requests {
        input.extend_from_slice(request.text.as_bytes())?;
    }
    Ok(input)
}

/// An acceptor to which these links come.
fn acceptor_of(alloc: Global, links: &[Vec<Asked>]) -> Result<MemoryAcceptor, AllocError>
    ensures { IfOk result (λ acceptor. IsGiven (⟦<MemoryAcceptor as Acceptor>⟧.state acceptor)) }
{
    let Some((last, before)) = links.split_last() else {
        return Ok(MemoryAcceptor::new(alloc, Vec::new(alloc)));
    };
    let mut acceptor = acceptor_of(alloc, before)?;
    acceptor.add(alloc, input_of(alloc, last)?, PIECE, Vec::new(alloc))?;
    Ok(acceptor)
}

/// A listener that has these links for its acceptors, so many for each.
pub fn listener_of(
    alloc: Global,
    links: &[Vec<Asked>],
    of_worker: usize,
) -> Result<MemoryListener, AllocError>
    requires { 1 ≤ of_worker }
{
    let mut listener = MemoryListener::new(alloc, Vec::new(alloc));
    for of_one in links.chunks(of_worker) {
        listener.add(acceptor_of(alloc, of_one)?)?;
    }
    Ok(listener)
}

/// Has so many workers serve all links of the listener.
pub fn serve_links<R: Threads + Wait + Sync, N: Listener>(
    rt: &R,
    alloc: Global,
    settings: &Settings,
    workers: u32,
    listener: &mut N,
) -> Result<(WorkStop, Vec<Pool>), StartFault>
    requires rules { IsTrue (are_settings settings.now) }
    requires workers { (1 ≤ workers) × (workers ≤ 32) }
    ensures { IfOk result (λ served. map (λ m. m.pool.settings) (map ⟦<Pool as Machine>⟧.kept served.1.items) ≡ settings.now.pools) }
{
    let keepers = no_keepers(alloc, settings.pools.as_slice())?;
    serve_shared::<Pool, NoKeeper, R, StepClock, N>(
        rt, alloc, settings, keepers, "memory", workers, 1000, &STILL, listener,
    )
}
