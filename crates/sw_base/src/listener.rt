ghost use Rattle.std.specs.Prelude.{MatchResult};
ghost use Rattle.sw_base.specs.Told.{IsOut};
ghost use Rattle.sw_base.specs.Listeners.{ListenerState, Gives, FailsToListen, Shuts};

use crate::{Acceptor, StartFault};

/// Gives acceptors, which share the address that they listen at.
pub trait Listener {
    type Acceptor: Acceptor + Drop;

    ghost state: { Self → ListenerState };

    /// Listens at `address`, given as host and port, `127.0.0.1:80`. One acceptor for each of
    /// `workers`, whose counts of faults are 0.
    ///
    /// # Errors
    ///
    /// `Failed`: the count of faults rose. In any case nothing else changed.
    fn listen(&mut self, address: &str, workers: u32) -> Result<Vec<Self::Acceptor>, StartFault>
        ensures { MatchResult result (λ given. Gives Self.Acceptor.state given.items address.now (state self.old) (state self.new) workers) (λ fault. FailsToListen fault (state self.old) (state self.new)) };

    /// Ends an acceptor that came from here: while some are out. It can't fail. The count of faults
    /// rises where the acceptor has any.
    fn shut(&mut self, acceptor: Self::Acceptor)
        requires { IsOut (state self.old).out }
        ensures { Shuts (Self.Acceptor.state acceptor) (state self.old) (state self.new) };
}
