ghost use Rattle.std.specs.Prelude.{◌≡◌};

use crate::view::View;
use dimensions::Text;
use pool_views::{Viewed, Views};
use std::alloc::AllocError;
use swarm_model::Request;

/// A view of each pool, in the order of the pools.
#[derive(Drop)]
pub struct BoardViews {
    views: Vec<View>,
}

impl BoardViews {
    pub fn new(views: Vec<View>) -> BoardViews
        ensures { ⟦<BoardViews as Views>⟧.known result ≡ views.items }
    {
        BoardViews { views }
    }
}

impl Views for BoardViews {
    ghost known = { λ board. board.views.items };

    fn ask(
        &mut self,
        place: u32,
        after: Option<u64>,
        who: &Text,
        request: &Request,
    ) -> Result<Viewed, AllocError> {
        let view = &mut self.views[place as usize];
        view.ask(after, who, request)
    }
}
