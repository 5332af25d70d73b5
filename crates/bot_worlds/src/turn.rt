use dimensions::{Seq, Text};
use swarm_model::Request;

/// What a runner tells the bot of its run.
#[derive(Drop)]
pub enum ChildTurn {
    Prepared,
    Started,
    /// So many bytes of output were taken.
    Output(Seq<u8>),
    /// The command runs, and there was no output.
    Quiet,
    /// The command has ended with this code, and all its output was taken.
    Ended(i32),
    Signalled,
    Uploaded,
    Cleaned,
    /// What runs commands has failed.
    Failed,
}

/// One thing that happens between a bot and its pool, at a moment in seconds. Moments come in any
/// order. A turn that can't happen changes nothing.
#[derive(Drop)]
pub enum Turn {
    /// The request at this place of those that the bot sent comes to the pool, for the first time or
    /// again.
    Deliver {
        sent: u32,
        moment: u64,
    },
    /// The bot takes the reply at this place of those that the pool gave, where it is one to the
    /// bot's present request.
    Answer {
        got: u32,
        moment: u64,
    },
    /// The bot gets no reply to its present request.
    Lose {
        moment: u64,
    },
    /// A sleep of the bot is over.
    Wake {
        moment: u64,
    },
    Child {
        turn: ChildTurn,
        moment: u64,
    },
    /// A request of another caller comes to the pool: any but a handshake, poll, claim, event or
    /// report of this bot.
    Other {
        who: Text,
        request: Request,
        bytes: Seq<u8>,
        moment: u64,
    },
}
