use crate::Ended;

/// How a connection ended, and how many requests it had.
#[derive(Clone, Copy, Debug, PartialEq, Eq)]
pub struct ConnectionCounts {
    pub ended: Ended,
    /// The requests.
    pub requests: u32,
    /// Those of them whose reply has status 200.
    pub accepted: u32,
}
