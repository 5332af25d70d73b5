//! Workers, boards and posts beside each other.
ghost use Rattle.std.specs.Prelude.{◌≡◌, ◌≤◌, ◌<◌, ℕ, length, map, IsTrue};
ghost use Rattle.std.specs.List.{All, AllZip};
ghost use Rattle.std.specs.Thread.{IsSend, IsSync};
ghost use Rattle.swarm_model.specs.Settings.{are_settings};
ghost use Rattle.pool_views.specs.Views.{pools_of};
ghost use Rattle.shared_doors.specs.Machines.{lasting_in};
ghost use Rattle.shared_doors.specs.Views.{AreOf, views};
ghost use Rattle.swarm_workers.specs.Crews.{HasWorked};
ghost use Rattle.board_workers.specs.Boards.{HasServedBoard};
ghost use Rattle.board_workers.specs.Posts.{EachReads, MayPost};

use crate::board::{Board, run_boards};
use crate::plan::BoardPlan;
use crate::posters::OwnPoster;
use crate::rounds::run_rounds;
use pool_views::Views;
use shared_doors::{Passes, Server};
use std::alloc::Global;
use std::marker::Send;
use std::sync::Wait;
use std::sync::atomic::{AtomicU64, Ordering};
use std::thread::{self, Threads};
use sw_base::Acceptor;
use swarm_http::{Clock, Door};
use swarm_keeper::Keeper;
use swarm_model::{Machine, Settings};
use swarm_workers::{Worker, run_workers};

/// The crews behind which the posts end: the workers, and the boards.
const CREWS: u64 = 2;

/// What posts the pools in the background: a poster of each, passes to them, and what waits between
/// two rounds.
#[derive(Drop)]
pub(crate) struct Background<'a, M: Machine + Drop, K: Keeper + Drop, R: Wait, P> {
    pub(crate) posters: Vec<OwnPoster<'a, R>>,
    pub(crate) passes: Passes<M, K>,
    pub(crate) clock: P,
}

fn finish_workers<T: Threads + Sync, D: Door + Send, C: Clock + Send, A: Acceptor>(
    rt: &T,
    alloc: Global,
    settings: &Settings,
    workers: Vec<Worker<D, C, A>>,
    connections: u32,
    done: &AtomicU64,
) -> Vec<Worker<D, C, A>>
    requires settings { All (λ w. (D.state w.door).settings ≡ settings.now) workers.items }
    requires rules { IsTrue (are_settings settings.now) }
    requires number { connections ≤ 1000000 }
    requires calls { All (λ w. (D.state w.door).calls ≡ 0) workers.items }
    requires some { 0 < length workers.items }
    ensures { AllZip (HasWorked connections)
        (map (λ w. record { acceptor = A.state w.acceptor; clock = C.ahead w.clock; door = D.state w.door; worked = w.worked }) workers.items)
        (map (λ w. record { acceptor = A.state w.acceptor; clock = C.ahead w.clock; door = D.state w.door; worked = w.worked }) result.items) }
{
    let mut workers = workers;
    run_workers(rt, alloc, settings, &mut workers, connections);
    done.fetch_add(1, Ordering::SeqCst);
    workers
}

fn finish_boards<T: Threads + Sync, V: Views + Send, A: Acceptor>(
    rt: &T,
    alloc: Global,
    settings: &Settings,
    boards: Vec<Board<V, A>>,
    connections: u32,
    done: &AtomicU64,
) -> Vec<Board<V, A>>
    requires rules { IsTrue (are_settings settings.now) }
    requires number { connections ≤ 1000000 }
    requires pools { All (λ b. pools_of (V.known b.views) ≡ settings.now.pools) boards.items }
    requires some { 0 < length boards.items }
    ensures { AllZip (HasServedBoard connections)
        (map (λ b. record { acceptor = A.state b.acceptor; views = V.known b.views; worked = b.worked }) boards.items)
        (map (λ b. record { acceptor = A.state b.acceptor; views = V.known b.views; worked = b.worked }) result.items) }
{
    let mut boards = boards;
    run_boards(rt, alloc, settings, &mut boards, connections);
    done.fetch_add(1, Ordering::SeqCst);
    boards
}

fn finish_posts<'a, M: Machine + Drop, K: Keeper + Drop, R: Wait, P: Clock>(
    rt: &R,
    server: &Server<M, K>,
    background: Background<'a, M, K, R, P>,
    plan: BoardPlan,
    done: &AtomicU64,
) -> Background<'a, M, K, R, P>
    requires few { length server.now.turnstiles.items ≤ 4 }
    requires rounds { plan.rounds ≤ 1000000 }
    requires may { MayPost (lasting_in M.kept) server.now.turnstiles.items 0 (map (λ own. own.poster) background.posters.items) background.passes.passes.items }
    ensures own { AreOf (lasting_in M.kept) server.now.turnstiles.items result.passes.passes.items }
    ensures reads { EachReads (length server.now.turnstiles.items) (views background.entry.passes.passes.items) (views result.passes.passes.items) }
{
    let Background {
        mut posters,
        passes,
        mut clock,
    } = background;
    let passes = run_rounds(
        rt,
        server,
        &mut posters,
        passes,
        &mut clock,
        plan,
        done,
        CREWS,
    );
    Background {
        posters,
        passes,
        clock,
    }
}

/// Boards and posts beside each other. The posts come last where no thread can be made.
fn run_others<
    'a,
    M: Machine + Drop + Send,
    K: Keeper + Drop + Send,
    T: Threads + Wait + Sync,
    A: Acceptor + Drop,
    V: Views + Drop + Send,
    P: Clock + Drop + Send,
>(
    rt: &T,
    alloc: Global,
    settings: &Settings,
    server: &Server<M, K>,
    boards: Vec<Board<V, A>>,
    background: Background<'a, M, K, T, P>,
    plan: BoardPlan,
    done: &AtomicU64,
) -> (Vec<Board<V, A>>, Background<'a, M, K, T, P>)
    requires rules { IsTrue (are_settings settings.now) }
    requires number { plan.connections ≤ 1000000 }
    requires pools { All (λ b. pools_of (V.known b.views) ≡ settings.now.pools) boards.items }
    requires some { 0 < length boards.items }
    requires few { length server.now.turnstiles.items ≤ 4 }
    requires rounds { plan.rounds ≤ 1000000 }
    requires may { MayPost (lasting_in M.kept) server.now.turnstiles.items 0 (map (λ own. own.poster) background.posters.items) background.passes.passes.items }
    ensures boards { AllZip (HasServedBoard plan.connections)
        (map (λ b. record { acceptor = A.state b.acceptor; views = V.known b.views; worked = b.worked }) boards.items)
        (map (λ b. record { acceptor = A.state b.acceptor; views = V.known b.views; worked = b.worked }) result.0.items) }
    ensures own { AreOf (lasting_in M.kept) server.now.turnstiles.items result.1.passes.passes.items }
    ensures reads { EachReads (length server.now.turnstiles.items) (views background.entry.passes.passes.items) (views result.1.passes.passes.items) }
{
    thread::join(
        rt,
        || -> Vec<Board<V, A>>
            requires { IsSync T.row × IsSend V.row × IsTrue (are_settings settings.now) × (plan.connections ≤ 1000000) × All (λ b. pools_of (V.known b.views) ≡ settings.now.pools) boards.items × (0 < length boards.items) }
            ensures { AllZip (HasServedBoard plan.connections)
                (map (λ b. record { acceptor = A.state b.acceptor; views = V.known b.views; worked = b.worked }) boards.items)
                (map (λ b. record { acceptor = A.state b.acceptor; views = V.known b.views; worked = b.worked }) result.items) }
        { finish_boards(rt, alloc, settings, boards, plan.connections, done) },
        || -> Background<M, K, T, P>
            requires { (length server.now.turnstiles.items ≤ 4) × (plan.rounds ≤ 1000000) × MayPost (lasting_in M.kept) server.now.turnstiles.items 0 (map (λ own. own.poster) background.posters.items) background.passes.passes.items }
            ensures { AreOf (lasting_in M.kept) server.entry.now.turnstiles.items result.passes.passes.items × EachReads (length server.entry.now.turnstiles.items) (views background.entry.passes.passes.items) (views result.passes.passes.items) }
        { finish_posts(rt, server, background, plan, done) },
    )
}

/// Workers, boards and posts beside each other, each in a thread of its own where one can be made. Where
/// none can be made the posts come last, and end with their first round.
pub(crate) fn run_beside<
    'a,
    M: Machine + Drop + Send,
    K: Keeper + Drop + Send,
    T: Threads + Wait + Sync,
    D: Door + Drop + Send,
    C: Clock + Drop + Send,
    A: Acceptor + Drop,
    V: Views + Drop + Send,
    P: Clock + Drop + Send,
>(
    rt: &T,
    alloc: Global,
    settings: &Settings,
    server: &Server<M, K>,
    workers: Vec<Worker<D, C, A>>,
    connections: u32,
    boards: Vec<Board<V, A>>,
    background: Background<'a, M, K, T, P>,
    plan: BoardPlan,
) -> (
    Vec<Worker<D, C, A>>,
    (Vec<Board<V, A>>, Background<'a, M, K, T, P>),
)
    requires settings { All (λ w. (D.state w.door).settings ≡ settings.now) workers.items }
    requires rules { IsTrue (are_settings settings.now) }
    requires number { connections ≤ 1000000 }
    requires calls { All (λ w. (D.state w.door).calls ≡ 0) workers.items }
    requires some { 0 < length workers.items }
    requires board_number { plan.connections ≤ 1000000 }
    requires pools { All (λ b. pools_of (V.known b.views) ≡ settings.now.pools) boards.items }
    requires some_boards { 0 < length boards.items }
    requires few { length server.now.turnstiles.items ≤ 4 }
    requires rounds { plan.rounds ≤ 1000000 }
    requires may { MayPost (lasting_in M.kept) server.now.turnstiles.items 0 (map (λ own. own.poster) background.posters.items) background.passes.passes.items }
    ensures workers { AllZip (HasWorked connections)
        (map (λ w. record { acceptor = A.state w.acceptor; clock = C.ahead w.clock; door = D.state w.door; worked = w.worked }) workers.items)
        (map (λ w. record { acceptor = A.state w.acceptor; clock = C.ahead w.clock; door = D.state w.door; worked = w.worked }) result.0.items) }
    ensures boards { AllZip (HasServedBoard plan.connections)
        (map (λ b. record { acceptor = A.state b.acceptor; views = V.known b.views; worked = b.worked }) boards.items)
        (map (λ b. record { acceptor = A.state b.acceptor; views = V.known b.views; worked = b.worked }) result.1.0.items) }
    ensures own { AreOf (lasting_in M.kept) server.now.turnstiles.items result.1.1.passes.passes.items }
    ensures reads { EachReads (length server.now.turnstiles.items) (views background.entry.passes.passes.items) (views result.1.1.passes.passes.items) }
{
    let done = AtomicU64::new(0);
    let done = &done;
    thread::join(
        rt,
        || -> Vec<Worker<D, C, A>>
            requires { IsSync T.row × IsSend D.row × IsSend C.row × All (λ w. (D.state w.door).settings ≡ settings.now) workers.items × IsTrue (are_settings settings.now) × (connections ≤ 1000000) × All (λ w. (D.state w.door).calls ≡ 0) workers.items × (0 < length workers.items) }
            ensures { AllZip (HasWorked connections)
                (map (λ w. record { acceptor = A.state w.acceptor; clock = C.ahead w.clock; door = D.state w.door; worked = w.worked }) workers.items)
                (map (λ w. record { acceptor = A.state w.acceptor; clock = C.ahead w.clock; door = D.state w.door; worked = w.worked }) result.items) }
        { finish_workers(rt, alloc, settings, workers, connections, done) },
        || -> (Vec<Board<V, A>>, Background<M, K, T, P>)
            requires { IsSync T.row × IsSend M.row × IsSend K.row × IsSend V.row × IsSend P.row × IsTrue (are_settings settings.now) × (plan.connections ≤ 1000000) × All (λ b. pools_of (V.known b.views) ≡ settings.now.pools) boards.items × (0 < length boards.items)
                × (length server.now.turnstiles.items ≤ 4) × (plan.rounds ≤ 1000000) × MayPost (lasting_in M.kept) server.now.turnstiles.items 0 (map (λ own. own.poster) background.posters.items) background.passes.passes.items }
            ensures { AllZip (HasServedBoard plan.connections)
                (map (λ b. record { acceptor = A.state b.acceptor; views = V.known b.views; worked = b.worked }) boards.items)
                (map (λ b. record { acceptor = A.state b.acceptor; views = V.known b.views; worked = b.worked }) result.0.items)
                × AreOf (lasting_in M.kept) server.entry.now.turnstiles.items result.1.passes.passes.items × EachReads (length server.entry.now.turnstiles.items) (views background.entry.passes.passes.items) (views result.1.passes.passes.items) }
        { run_others(rt, alloc, settings, server, boards, background, plan, done) },
    )
}
