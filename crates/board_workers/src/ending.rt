//! Workers, boards and posts, as they end.
ghost use Rattle.std.specs.Prelude.{◌≡◌, ◌≤◌, ◌<◌, ◌+◌, ◌++◌, length, map, IfSome, IsTrue};
ghost use Rattle.std.specs.List.{All};
ghost use Rattle.swarm_model.specs.Settings.{are_settings};
ghost use Rattle.pool_views.specs.Views.{pools_of as pools_viewed};
ghost use Rattle.shared_doors.specs.Machines.{lasting_in};
ghost use Rattle.shared_doors.specs.SharedDoors.{identities_of, pools_of};
ghost use Rattle.shared_doors.specs.Views.{AreOf, views};
ghost use Rattle.swarm_workers.specs.Crews.{AreNewDoors, IsDoorTo, ShutsAll, gravest, stop_of};
ghost use Rattle.board_workers.specs.Ends.{JoinsAll, ServeBeside};
ghost use Rattle.board_workers.specs.Posts.{MayPost};

use crate::beside::{Background, run_beside};
use crate::board::Board;
use crate::plan::BoardPlan;
use crate::posters::OwnPoster;
use pool_views::Views;
use shared_doors::{Passes, Server, SharedDoor};
use std::alloc::Global;
use std::marker::Send;
use std::sync::Wait;
use std::thread::Threads;
use sw_base::{Acceptor, Listener};
use swarm_http::{Clock, Door};
use swarm_keeper::Keeper;
use swarm_model::{Machine, Settings};
use swarm_workers::{WorkStop, Worker, end_workers, graver};

/// Shuts the acceptors in their order.
pub(crate) fn shut_all<N: Listener>(listener: &mut N, acceptors: Vec<N::Acceptor>)
    requires out { IfSome (N.state listener.old).out (λ n. length acceptors.items ≤ n) }
    ensures { ShutsAll (map N.Acceptor.state acceptors.items) (N.state listener.old) (N.state listener.new) }
{
    let mut rest = acceptors.into_iter();
    while let Some(acceptor) = rest.next() {
        listener.shut(acceptor);
    }
}

/// Ends the boards in their order: shuts their acceptors. Of the stop that decided so far and theirs it
/// answers the one that decides.
fn end_boards<V: Drop, N: Listener>(
    listener: &mut N,
    boards: Vec<Board<V, N::Acceptor>>,
    stop: WorkStop,
) -> WorkStop
    requires out { IfSome (N.state listener.old).out (λ n. length boards.items ≤ n) }
    ensures shuts { ShutsAll (map (λ b. N.Acceptor.state b.acceptor) boards.items) (N.state listener.old) (N.state listener.new) }
    ensures stop { result ≡ gravest stop (map (λ b. b.worked.stop) boards.items) }
{
    let mut gravest = stop;
    let mut rest = boards.into_iter();
    while let Some(board) = rest.next() {
        let Board {
            views: _,
            acceptor,
            worked,
        } = board;
        listener.shut(acceptor);
        gravest = graver(gravest, worked.stop);
    }
    gravest
}

/// Ends the workers and then the boards, and joins all passes.
fn end_all<'a, M: Machine + Drop, K: Keeper + Drop, T: Wait, C: Clock + Drop, V: Drop, N: Listener>(
    server: &Server<M, K>,
    listener: &mut N,
    workers: Vec<Worker<SharedDoor<'a, M, K, T>, C, N::Acceptor>>,
    boards: Vec<Board<V, N::Acceptor>>,
    posts: Passes<M, K>,
) -> (WorkStop, Passes<M, K>)
    requires some { 0 < length workers.items }
    requires doors { All (λ w. IsDoorTo (record { store = server.now.store; pools = pools_of (lasting_in M.kept) server.now.turnstiles.items }) (identities_of server.now.turnstiles.items) (⟦<SharedDoor<'a, M, K, T> as Door>⟧.state w.door)) workers.items }
    requires own { AreOf (lasting_in M.kept) server.now.turnstiles.items posts.passes.items }
    requires out { IfSome (N.state listener.old).out (λ n. length workers.items + length boards.items ≤ n) }

    ensures own { AreOf (lasting_in M.kept) server.now.turnstiles.items result.1.passes.items }
    ensures joined { JoinsAll (length server.now.turnstiles.items) (map (λ w. ⟦<SharedDoor<'a, M, K, T> as Door>⟧.state w.door) workers.entry.items) (views posts.passes.items) (views result.1.passes.items) }
    ensures shuts { ShutsAll (map (λ w. N.Acceptor.state w.acceptor) workers.entry.items ++ map (λ b. N.Acceptor.state b.acceptor) boards.items) (N.state listener.old) (N.state listener.new) }
    ensures stop { result.0 ≡ stop_of (map (λ w. w.worked.stop) workers.entry.items ++ map (λ b. b.worked.stop) boards.items) }
{
    let (stop, passes) = end_workers(server, listener, workers);
    let stop = end_boards(listener, boards, stop);
    (stop, server.join(passes, posts))
}

/// Has workers and boards serve beside each other, and ends them.
pub(crate) fn serve_beside<
    'a,
    M: Machine + Drop + Send,
    K: Keeper + Drop + Send,
    T: Threads + Wait + Sync,
    C: Clock + Drop + Send,
    V: Views + Drop + Send,
    P: Clock + Drop + Send,
    N: Listener,
>(
    rt: &T,
    alloc: Global,
    settings: &Settings,
    server: &Server<M, K>,
    listener: &mut N,
    workers: Vec<Worker<SharedDoor<'a, M, K, T>, C, N::Acceptor>>,
    connections: u32,
    boards: Vec<Board<V, N::Acceptor>>,
    plan: BoardPlan,
    posters: Vec<OwnPoster<'a, T>>,
    posts: Passes<M, K>,
    clock: P,
) -> (WorkStop, Passes<M, K>)
    requires same { record { store = server.now.store; pools = pools_of (lasting_in M.kept) server.now.turnstiles.items } ≡ settings.now }
    requires rules { IsTrue (are_settings settings.now) }
    requires number { connections ≤ 1000000 }
    requires doors { AreNewDoors (record { store = server.now.store; pools = pools_of (lasting_in M.kept) server.now.turnstiles.items }) (identities_of server.now.turnstiles.items) 0 (map (λ w. ⟦<SharedDoor<'a, M, K, T> as Door>⟧.state w.door) workers.items) }
    requires some { 0 < length workers.items }
    requires board_number { plan.connections ≤ 1000000 }
    requires pools { All (λ b. pools_viewed (V.known b.views) ≡ settings.now.pools) boards.items }
    requires some_boards { 0 < length boards.items }
    requires rounds { plan.rounds ≤ 1000000 }
    requires may { MayPost (lasting_in M.kept) server.now.turnstiles.items 0 (map (λ own. own.poster) posters.items) posts.passes.items }
    requires out { IfSome (N.state listener.old).out (λ n. length workers.items + length boards.items ≤ n) }

    ensures own { AreOf (lasting_in M.kept) server.now.turnstiles.items result.1.passes.items }
    ensures served { ServeBeside connections plan.connections (length server.now.turnstiles.items)
        (map (λ w. record { acceptor = N.Acceptor.state w.acceptor; clock = C.ahead w.clock; door = ⟦<SharedDoor<'a, M, K, T> as Door>⟧.state w.door; worked = w.worked }) workers.entry.items)
        (map (λ b. record { acceptor = N.Acceptor.state b.acceptor; views = V.known b.views; worked = b.worked }) boards.items)
        (views posts.passes.items) (N.state listener.old) (N.state listener.new) (views result.1.passes.items) result.0 }
{
    let background = Background {
        posters,
        passes: posts,
        clock,
    };
    let (workers, (boards, background)) = run_beside(
        rt,
        alloc,
        settings,
        server,
        workers,
        connections,
        boards,
        background,
        plan,
    );
    let Background {
        posters: _,
        passes,
        clock: _,
    } = background;
    end_all(server, listener, workers, boards, passes)
}
