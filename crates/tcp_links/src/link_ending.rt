ghost use Rattle.std.specs.Prelude.{◌≡◌};
ghost use Rattle.tcp_links.specs.Endings.{how_ended};

use std::io;
use std::io::ErrorKind;

/// How a link ended.
#[derive(Clone, Copy)]
pub enum LinkEnding {
    /// The other side had no more to send.
    OtherSide,
    /// This side had enough.
    ThisSide,
    /// One of its limits of time was over.
    TimeLimit,
    /// A call on it failed.
    Failed(io::Error),
}

impl LinkEnding {
    /// That of a link by the error of its last call that failed, if one did, and by whether a read of it
    /// found the end. Where a limit of time was over, the system has an error for it.
    pub fn of(error: Option<io::Error>, at_end: bool) -> LinkEnding
        ensures { result ≡ how_ended error at_end }
    {
        match error {
            Some(error) => match error.kind() {
                ErrorKind::WouldBlock | ErrorKind::TimedOut => LinkEnding::TimeLimit,
                _ => LinkEnding::Failed(error),
            },
            None if at_end => LinkEnding::OtherSide,
            None => LinkEnding::ThisSide,
        }
    }
}
