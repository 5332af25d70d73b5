//! What is made before anything listens, and the boards that are made of it.
ghost use Rattle.std.specs.Prelude.{◌≡◌, ◌≤◌, ◌<◌, ◌+◌, ◌∷◌, [], ℕ, length, map, vec_len, vec_capacity, IfOk, IsTrue};
ghost use Rattle.std.specs.List.{All};
ghost use Rattle.swarm_model.specs.Settings.{are_settings};
ghost use Rattle.turnstile.specs.Passes.{fixed_of, opening};
ghost use Rattle.shared_doors.specs.Machines.{lasting_in, log_in};
ghost use Rattle.shared_doors.specs.SharedDoors.{pools_of};
ghost use Rattle.shared_doors.specs.Views.{AreOf, first_view, view_at, views};
ghost use Rattle.swarm_workers.specs.Splits.{AreShares, IsShare};
ghost use Rattle.board_workers.specs.Boards.{new_view};
ghost use Rattle.board_workers.specs.Posts.{MayPost, new_posters};

use crate::board::Board;
use crate::posters::{OwnPoster, make_all_views, make_posters};
use pool_views::Views;
use shared_doors::{Passes, Server};
use std::alloc::{AllocError, Global};
use std::sync::Wait;
use swarm_boards::BoardViews;
use swarm_keeper::Keeper;
use swarm_model::{Machine, Settings};
use swarm_workers::{WorkStop, Worked, split_all};

/// A server, passes for its workers and for the posts, posters of its pools, and the views of its
/// boards.
#[derive(Drop)]
pub(crate) struct Prepared<'a, M: Machine + Drop, K: Keeper + Drop, R: Wait> {
    pub(crate) server: Server<M, K>,
    pub(crate) first: Passes<M, K>,
    pub(crate) others: Vec<Passes<M, K>>,
    pub(crate) posts: Passes<M, K>,
    pub(crate) posters: Vec<OwnPoster<'a, R>>,
    pub(crate) views: Vec<BoardViews>,
}

/// Passes for the first of so many workers, for each of the others in their order, and for the posts.
fn split_with_posts<M: Machine + Drop, K: Keeper + Drop>(
    alloc: Global,
    server: &Server<M, K>,
    passes: Passes<M, K>,
    workers: u32,
) -> Result<(Passes<M, K>, Vec<Passes<M, K>>, Passes<M, K>), AllocError>
    requires own { AreOf (lasting_in M.kept) server.now.turnstiles.items passes.passes.items }
    requires first { (p : ℕ) → p < length server.now.turnstiles.items → view_at (views passes.passes.items) p ≡ first_view }
    requires number { (1 ≤ workers) × (workers ≤ 32) }

    ensures count { IfOk result (λ r. length r.1.items + 1 ≡ workers) }
    ensures shares { IfOk result (λ r. AreShares (lasting_in M.kept) server.now.turnstiles.items 0 (map (λ s. s.passes.items) (r.0 ∷ r.1.items))) }
    ensures posts { IfOk result (λ r. IsShare (lasting_in M.kept) server.now.turnstiles.items workers r.2.passes.items) }
    ensures made { IfOk result (λ r. (p : ℕ) → p < length server.now.turnstiles.items → (view_at (views r.0.passes.items) p).made ≡ workers + 1) }
{
    let (first, others) = split_all(alloc, server, passes, workers)?;
    match server.split(first) {
        Ok((first, posts)) => Ok((first, others, posts)),
        Err((error, _)) => Err(error),
    }
}

/// Makes all that may want memory, but for room.
pub(crate) fn prepare<'a, M: Machine + Drop, K: Keeper + Drop, R: Wait>(
    rt: &'a R,
    alloc: Global,
    settings: &Settings,
    keepers: Vec<K>,
    workers: u32,
    boards: u32,
) -> Result<Prepared<'a, M, K, R>, AllocError>
    requires rules { IsTrue (are_settings settings.now) }
    requires sure { IsTrue K.SURE }
    requires keepers { length keepers.items ≡ length settings.now.pools }
    requires workers { (1 ≤ workers) × (workers ≤ 32) }
    requires boards { (1 ≤ boards) × (boards ≤ 8) }

    ensures store { IfOk result (λ r. r.server.store ≡ settings.now.store) }
    ensures settings { IfOk result (λ r. map (λ t. (fixed_of (lasting_in M.kept) t).settings) r.server.turnstiles.items ≡ settings.now.pools) }
    ensures opening { IfOk result (λ r. All (λ t. opening (log_in M.kept) t ≡ []) r.server.turnstiles.items) }

    ensures count { IfOk result (λ r. length r.others.items + 1 ≡ workers) }
    ensures shares { IfOk result (λ r. AreShares (lasting_in M.kept) r.server.turnstiles.items 0 (map (λ s. s.passes.items) (r.first ∷ r.others.items))) }
    ensures made { IfOk result (λ r. (p : ℕ) → p < length r.server.turnstiles.items → (view_at (views r.first.passes.items) p).made ≡ workers + 1) }

    ensures posts { IfOk result (λ r. IsShare (lasting_in M.kept) r.server.turnstiles.items workers r.posts.passes.items) }
    ensures posters { IfOk result (λ r. map (λ own. own.poster) r.posters.items ≡ new_posters settings.now.pools) }
    ensures boards { IfOk result (λ r. length r.views.items ≡ boards) }
    ensures views { IfOk result (λ r. All (λ v. ⟦<BoardViews as Views>⟧.known v ≡ map new_view settings.now.pools) r.views.items) }
{
    let (server, passes) = Server::<M, K>::new(alloc, settings, keepers)?;
    let (first, others, posts) = split_with_posts(alloc, &server, passes, workers)?;
    let mut posters = make_posters(rt, alloc, &server, boards)?;
    let views = make_all_views(alloc, &mut posters, boards)?;
    Ok(Prepared {
        server,
        first,
        others,
        posts,
        posters,
        views,
    })
}

/// A board for each acceptor, over the views at its place, which did nothing yet. There is room for them.
pub(crate) fn make_boards<V: Views + Drop, A: Drop>(
    views: Vec<V>,
    acceptors: Vec<A>,
    room: Vec<Board<V, A>>,
) -> Vec<Board<V, A>>
    requires count { length views.items ≡ length acceptors.items }
    requires empty { vec_len room ≡ 0 }
    requires room { length acceptors.items ≤ vec_capacity room }
    ensures views { map (λ b. b.views) result.items ≡ views.items }
    ensures acceptors { map (λ b. b.acceptor) result.items ≡ acceptors.items }
{
    let mut boards = room;
    let mut acceptors = acceptors.into_iter();
    let mut rest = views.into_iter();
    while let Some(views) = rest.next() {
        let Some(acceptor) = acceptors.next() else {
            unreachable!();
        };
        boards.push_reserved(Board {
            views,
            acceptor,
            worked: Worked {
                sessions: 0,
                stop: WorkStop::Done,
            },
        });
    }
    boards
}
