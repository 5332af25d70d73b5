use dimensions::{Seq, Text};
use swarm_model::Request;

/// One thing that happens to a batch and its pool, at a moment in seconds. Moments come in any order.
/// A turn that can't happen changes nothing.
#[derive(Drop)]
pub enum BatchTurn {
    /// The line that comes next is sent, marked by its reply, and the progress is saved.
    Send {
        moment: u64,
    },
    /// The line that comes next is sent, and its reply is lost.
    Lost {
        moment: u64,
    },
    /// The batch is read again from the saved progress, or from the one before, where the last save
    /// was lost.
    Stop {
        saved: bool,
    },
    /// A request of another caller comes to the pool.
    Other {
        who: Text,
        request: Request,
        bytes: Seq<u8>,
        moment: u64,
    },
}
