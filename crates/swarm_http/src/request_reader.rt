//! What takes the requests of one connection after another.
ghost use Rattle.std.specs.Prelude.{◌≡◌, []};

use link_reader::Pending;
use routes::Routes;
use std::alloc::{AllocError, Global};

/// What takes requests off links: the router, and the bytes that were taken and not used yet. It is
/// made once, and serves one connection after another.
#[derive(Drop)]
pub struct RequestReader {
    pub(crate) routes: Routes,
    pub(crate) pending: Pending,
}

impl RequestReader {
    /// Takes all its memory at once.
    pub fn new(alloc: Global) -> Result<RequestReader, AllocError> {
        Ok(RequestReader {
            routes: Routes::new(alloc)?,
            pending: Pending::new(alloc)?,
        })
    }

    /// Forgets what an earlier connection left.
    pub(crate) fn clear(&mut self)
        ensures { self.new.pending ≡ [] }
    {
        let left = self.pending.len();
        self.pending.remove_front(left);
    }
}
