ghost use Rattle.std.specs.Prelude.{◌≡◌, ◌*◌, ◌<◌, ◌≤◌};
ghost use Rattle.std.specs.Duration.{as_nanos};

use std::net::TcpStream;
use std::time::Duration;

/// The limits of time of a link. A limit of 0 can't be set on a socket.
#[derive(Clone, Copy, Debug, PartialEq, Eq)]
pub struct Limits {
    /// How long a read may wait while no request has begun: before the first one, and between two.
    pub idle: Duration,
    /// How long any other call may wait.
    pub call: Duration,
    /// How long after the first byte of a request a call for it may begin.
    pub request: Duration,
}

impl Limits {
    /// The limits of a link of a server with so many workers: 10 seconds for a call, and 60 for a
    /// request. It may be idle for 10 seconds where there are more workers than one, and for one
    /// second where one worker serves all links: as long as that one waits, all others do.
    pub fn of_server(workers: u32) -> Limits
        ensures one_worker { workers ≤ 1 → as_nanos result.idle ≡ 1 * 1_000_000_000 }
        ensures more_workers { 1 < workers → as_nanos result.idle ≡ 10 * 1_000_000_000 }
        ensures call { as_nanos result.call ≡ 10 * 1_000_000_000 }
        ensures request { as_nanos result.request ≡ 60 * 1_000_000_000 }
    {
        Limits {
            idle: Duration::from_secs(idle_secs(workers)),
            call: Duration::from_secs(10),
            request: Duration::from_secs(60),
        }
    }

    /// The limits of a client's link: 150 seconds for a call and for a reply, since the wait for a
    /// reply is a call as any other. By the limits of a server, a connection of one request holds its
    /// only worker for 72 seconds at most: one before the first byte, 60 and 10 for the request, and
    /// one until it is ended. So a client waits for two such connections before its own, and 6
    /// seconds more.
    pub fn of_client() -> Limits
        ensures idle { as_nanos result.idle ≡ 150 * 1_000_000_000 }
        ensures call { as_nanos result.call ≡ 150 * 1_000_000_000 }
        ensures request { as_nanos result.request ≡ 150 * 1_000_000_000 }
    {
        Limits {
            idle: Duration::from_secs(150),
            call: Duration::from_secs(150),
            request: Duration::from_secs(150),
        }
    }
}

/// How many seconds a link of a server with so many workers may be idle.
fn idle_secs(workers: u32) -> u64
    ensures one_worker { workers ≤ 1 → result ≡ 1 }
    ensures more_workers { 1 < workers → result ≡ 10 }
{
    if workers > 1 { 10 } else { 1 }
}

/// Sets on a stream that it sends at once what is written, and how long a write may wait: a read's
/// wait is limited by the link. Says whether both could be set.
pub fn set_limits(stream: &TcpStream, limits: Limits) -> bool {
    stream.set_nodelay(true).is_ok() && stream.set_write_timeout(Some(limits.call)).is_ok()
}
