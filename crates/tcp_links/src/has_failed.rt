ghost use Rattle.std.specs.Prelude.{◌≡◌, ◌↔◌, IsTrue};
ghost use Rattle.sw_base.specs.Link.{HasFailed};

use crate::LinkEnding;
use sw_base::Link;

/// A link that says whether a call of it has failed, and how it ended.
pub trait HasFailed: Link {
    ghost use Rattle.tcp_links.specs.declared.link_ending.LinkEnding.{LinkEnding};

    ghost ending: { Self → LinkEnding };

    fn has_failed(&self) -> bool
        ensures { IsTrue result ↔ HasFailed (Self.state self.now) };

    /// How it ended, as far as it has seen.
    fn ending(&self) -> LinkEnding
        ensures { result ≡ ending self.now };
}
