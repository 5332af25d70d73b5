use std::net::TcpStream;
use std::time::Duration;

/// A stream whose reads can be given a limit of time.
pub trait LimitedStream {
    /// Has each later read wait for so long at most, and fail then. Says whether it could be set.
    fn limit_reads(&self, limit: Duration) -> bool;
}

impl LimitedStream for TcpStream {
    fn limit_reads(&self, limit: Duration) -> bool {
        self.set_read_timeout(Some(limit)).is_ok()
    }
}
