//! Boards beside each other.
ghost use Rattle.std.specs.Prelude.{◌≡◌, ◌<◌, ◌≤◌, length, map, IsTrue};
ghost use Rattle.std.specs.List.{All, AllZip};
ghost use Rattle.swarm_model.specs.Settings.{are_settings};
ghost use Rattle.pool_views.specs.Views.{pools_of};
ghost use Rattle.board_workers.specs.Boards.{HasServedBoard};

use board_sessions::board_session;
use pool_views::Views;
use std::alloc::Global;
use std::marker::Send;
use std::thread::{self, Threads};
use sw_base::{Acceptor, Link};
use swarm_http::{Ended, RequestReader};
use swarm_model::Settings;
use swarm_workers::{LinkSessions, Worked, serve_links};

/// What serves the connections of a board: a view of each pool, an acceptor of its own, and what it did
/// with them.
#[derive(Drop)]
pub struct Board<V, A> {
    pub views: V,
    pub acceptor: A,
    pub worked: Worked,
}

/// Sessions over views. They need no clock.
struct ViewSessions;

impl<V: Views> LinkSessions<V, ()> for ViewSessions {
    ghost use Rattle.board_workers.specs.Boards.{IsBoardSession};
    ghost use Rattle.pool_views.specs.Views.{pools_of};

    ghost does = { λ first last ending x y. IsBoardSession first last ending (V.known x.0) (V.known y.0) };

    ghost may = { λ settings n x. pools_of (V.known x.0) ≡ settings.pools };

    fn session<L: Link>(
        alloc: Global,
        settings: &Settings,
        reader: &mut RequestReader,
        desk: &mut V,
        _clock: &mut (),
        link: &mut L,
    ) -> Ended {
        board_session(alloc, settings, reader, desk, link)
    }
}

/// The board serves the links of its acceptor, so many at most.
fn serve_board<V: Views, A: Acceptor>(
    alloc: Global,
    settings: &Settings,
    board: &mut Board<V, A>,
    connections: u32,
)
    requires rules { IsTrue (are_settings settings.now) }
    requires number { connections ≤ 1000000 }
    requires pools { pools_of (V.known board.old.views) ≡ settings.now.pools }
    ensures { HasServedBoard connections
        (record { acceptor = A.state board.old.acceptor; views = V.known board.old.views; worked = board.old.worked })
        (record { acceptor = A.state board.new.acceptor; views = V.known board.new.views; worked = board.new.worked }) }
{
    board.worked = serve_links::<A, V, (), ViewSessions>(
        alloc,
        settings,
        &mut board.views,
        &mut (),
        &mut board.acceptor,
        connections,
    );
}

/// Has each board serve the links of its acceptor, so many at most: beside the others, in a thread of
/// its own where one can be made.
pub fn run_boards<T: Threads + Sync, V: Views + Send, A: Acceptor>(
    rt: &T,
    alloc: Global,
    settings: &Settings,
    boards: &mut [Board<V, A>],
    connections: u32,
)
    requires rules { IsTrue (are_settings settings.now) }
    requires number { connections ≤ 1000000 }
    requires pools { All (λ b. pools_of (V.known b.views) ≡ settings.now.pools) boards.old }
    requires some { 0 < length boards.old }
    ensures { AllZip (HasServedBoard connections)
        (map (λ b. record { acceptor = A.state b.acceptor; views = V.known b.views; worked = b.worked }) boards.old)
        (map (λ b. record { acceptor = A.state b.acceptor; views = V.known b.views; worked = b.worked }) boards.new) }
{
    let threads = boards.len();
    thread::for_each_mut(
        rt,
        boards,
        threads,
        &|_, board: &mut Board<V, A>|
            requires { IsTrue (are_settings settings.now) × (connections ≤ 1000000) × (pools_of (V.known board.now.views) ≡ settings.now.pools) }
            ensures { HasServedBoard connections
                (record { acceptor = A.state board.entry.now.acceptor; views = V.known board.entry.now.views; worked = board.entry.now.worked })
                (record { acceptor = A.state board.exit.now.acceptor; views = V.known board.exit.now.views; worked = board.exit.now.worked }) }
        { serve_board(alloc, settings, board, connections) },
    );
}
