ghost use Rattle.std.specs.Prelude.{◌≡◌};

use crate::HasFailed;
use std::time::Duration;

/// A link whose reads can be given a limit of time.
pub trait LimitedReads: HasFailed {
    /// Has each later read wait for so long at most, and fail then. Says whether it could be set.
    fn limit_reads(&mut self, limit: Duration) -> bool
        ensures { Self.state self.new ≡ Self.state self.old };
}
