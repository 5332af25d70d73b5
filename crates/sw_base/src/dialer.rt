ghost use Rattle.std.specs.Prelude.{MatchResult};
ghost use Rattle.sw_base.specs.Told.{IsOut};
ghost use Rattle.sw_base.specs.Dialers.{DialerState, Dials, Declines, Hangs};

use crate::{Link, StartFault};

/// Opens links to addresses.
pub trait Dialer {
    type Link: Link + Drop;

    ghost state: { Self → DialerState };

    /// A link to `address`, given as host and port, `127.0.0.1:80`. Its counts of faults are 0.
    ///
    /// # Errors
    ///
    /// `Failed`: the count of faults rose. In any case nothing else changed.
    fn dial(&mut self, address: &str) -> Result<Self::Link, StartFault>
        ensures { MatchResult result (λ link. Dials (Self.Link.state link) address.now (state self.old) (state self.new)) (λ fault. Declines fault (state self.old) (state self.new)) };

    /// Ends a link that came from here: while some are out. It can't fail. The count of faults rises
    /// where a call of the link has failed.
    fn end(&mut self, link: Self::Link)
        requires { IsOut (state self.old).out }
        ensures { Hangs (Self.Link.state link) (state self.old) (state self.new) };
}
