ghost use Rattle.sw_base.specs.Acceptors.{AcceptorState, Accepts, Ends};
ghost use Rattle.sw_base.specs.Told.{IsOut};

use crate::{Failed, Link};
use std::marker::Send;

/// Links that come one after another to a worker. Each is handed back as it ends, which may be after
/// others have come.
pub trait Acceptor: Send {
    type Link: Link + Drop + Send;

    ghost state: { Self → AcceptorState };

    /// The next link, whose counts of faults are 0. `None`: no link comes any more.
    ///
    /// # Errors
    ///
    /// The count of faults rose, and no link was taken.
    fn accept(&mut self) -> Result<Option<Self::Link>, Failed>
        ensures { Accepts Self.Link.state (state self.old) (state self.new) result };

    /// Ends a link that came from here: while some are out. It can't fail.
    fn end(&mut self, link: Self::Link)
        requires { IsOut (state self.old).out }
        ensures { Ends (Self.Link.state link) (state self.old) (state self.new) };
}
