ghost use Rattle.std.specs.Prelude.{◌<◌, List, length, slice_get, IsTrue, IsSomeAnd};
ghost use Rattle.swarm_model.specs.Fits.{fits};
ghost use Rattle.pool_views.specs.Views.{Known, reads_rows, IsAsk};

use dimensions::Text;
use std::alloc::AllocError;
use swarm_model::{Reply, Request};

/// A reply after a list of published entries.
#[derive(Drop)]
pub struct Viewed {
    /// How many entries led to the rows that the reply shows.
    pub front: u64,
    pub reply: Reply,
}

/// What answers the requests of a board's session.
pub trait Views {
    /// What each view knows, in the order of the pools.
    ghost known: { Self → List Known };

    /// Answers a request of `who` by the view of the pool at the place. `after` is the length of a log
    /// that the caller has seen. What a view shows may be behind what was published; `Err` is want of
    /// memory for the reply.
    fn ask(
        &mut self,
        place: u32,
        after: Option<u64>,
        who: &Text,
        request: &Request,
    ) -> Result<Viewed, AllocError>
        requires place { place < length (known self.old) }
        requires reads { IsTrue (reads_rows request.now) }
        requires fits { IsSomeAnd (slice_get (known self.old) place) (λ view. IsTrue (fits view.start.rows.settings request.now)) }
        ensures { IsAsk (known self.old) (known self.new) place
            (record { caller = who.now; after = after; request = request.now }) result };
}
