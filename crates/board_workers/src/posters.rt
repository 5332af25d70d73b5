//! The posters of a server's pools, and the views that boards read.
ghost use Rattle.std.specs.Prelude.{◌≡◌, ◌≤◌, ◌<◌, length, map, IfOk};
ghost use Rattle.std.specs.List.{All};
ghost use Rattle.shared_doors.specs.Machines.{lasting_in};
ghost use Rattle.shared_doors.specs.SharedDoors.{pools_of, start_of};
ghost use Rattle.board_workers.specs.Posts.{new_posted, new_posters, view_of};

use pool_views::Views;
use shared_doors::Server;
use std::alloc::{AllocError, Global};
use std::sync::Wait;
use swarm_boards::{BoardViews, Poster};
use swarm_keeper::Keeper;
use swarm_model::Machine;

/// A poster that ends once it is let go.
pub(crate) struct OwnPoster<'a, R: Wait> {
    rt: &'a R,
    pub(crate) poster: Poster,
}

impl<'a, R: Wait> Drop for OwnPoster<'a, R> {
    fn drop(self) {
        let OwnPoster { rt, poster } = self;
        poster.end(rt);
    }
}

/// A poster of the pool at the place, with room for so many views.
fn make_poster<'a, M: Machine + Drop, K: Keeper + Drop, R: Wait>(
    rt: &'a R,
    alloc: Global,
    server: &Server<M, K>,
    place: u32,
    boards: u32,
) -> Result<OwnPoster<'a, R>, AllocError>
    requires place { place < length server.now.turnstiles.items }
    requires boards { (1 ≤ boards) × (boards ≤ 8) }
    ensures { IfOk result (λ own. own.poster ≡ new_posted (start_of (pools_of (lasting_in M.kept) server.now.turnstiles.items) place)) }
{
    let base = server.base(place)?;
    let poster = Poster::new(rt, alloc, &base, 0, boards as usize)?;
    Ok(OwnPoster { rt, poster })
}

/// A poster of each pool, in the order of the pools, each with room for so many views.
pub(crate) fn make_posters<'a, M: Machine + Drop, K: Keeper + Drop, R: Wait>(
    rt: &'a R,
    alloc: Global,
    server: &Server<M, K>,
    boards: u32,
) -> Result<Vec<OwnPoster<'a, R>>, AllocError>
    requires few { length server.now.turnstiles.items ≤ 4 }
    requires boards { (1 ≤ boards) × (boards ≤ 8) }
    ensures { IfOk result (λ posters. map (λ own. own.poster) posters.items ≡ new_posters (pools_of (lasting_in M.kept) server.now.turnstiles.items)) }
{
    let count = server.turnstiles.len();
    let mut posters = Vec::with_capacity(alloc, count)?;
    for place in 0..count {
        let poster = make_poster(rt, alloc, server, place as u32, boards)?;
        posters.push_reserved(poster);
    }
    Ok(posters)
}

/// A view of each pool, in the order of the pools.
fn make_views<'a, R: Wait>(
    alloc: Global,
    posters: &mut Vec<OwnPoster<'a, R>>,
) -> Result<BoardViews, AllocError>
    ensures same { map (λ own. own.poster) posters.new.items ≡ map (λ own. own.poster) posters.old.items }
    ensures views { IfOk result (λ views. ⟦<BoardViews as Views>⟧.known views ≡ map view_of (map (λ own. own.poster) posters.old.items)) }
{
    let count = posters.len();
    let mut views = Vec::with_capacity(alloc, count)?;
    for place in 0..count {
        let view = posters[place].poster.view()?;
        views.push_reserved(view);
    }
    Ok(BoardViews::new(views))
}

/// The views of so many boards.
pub(crate) fn make_all_views<'a, R: Wait>(
    alloc: Global,
    posters: &mut Vec<OwnPoster<'a, R>>,
    boards: u32,
) -> Result<Vec<BoardViews>, AllocError>
    ensures same { map (λ own. own.poster) posters.new.items ≡ map (λ own. own.poster) posters.old.items }
    ensures count { IfOk result (λ all. length all.items ≡ boards) }
    ensures views { IfOk result (λ all. All (λ views. ⟦<BoardViews as Views>⟧.known views ≡ map view_of (map (λ own. own.poster) posters.old.items)) all.items) }
{
    let mut all = Vec::with_capacity(alloc, boards as usize)?;
    for _number in 0..boards {
        let views = make_views(alloc, posters)?;
        all.push_reserved(views);
    }
    Ok(all)
}
