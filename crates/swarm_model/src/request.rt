use crate::{Chunk, EventKind, Last, TaskState};
use dimensions::{BotDims, Seq, Text};
use task_props::{Digest, SharedTask};

/// A checked request to one pool. A task is named by its number in the pool, and one of its runs
/// by the number of the try; try 0 names the task itself. A bot is named by its name.
#[derive(Drop)]
pub enum Request {
    New(SharedTask),
    /// A task isn't wanted any more; `kill` stops its run, too, where it has one.
    Cancel {
        task: u32,
        try_no: u32,
        kill: bool,
    },
    /// What a task has come to.
    Result {
        task: u32,
        try_no: u32,
    },
    /// The output of a task's run, from a byte on: at most `length` bytes, 1 to 65536.
    Stdout {
        task: u32,
        try_no: u32,
        offset: u32,
        length: u32,
    },
    /// The tasks in a state, or in any, with numbers below `below`, where there is one: at most
    /// `limit`, 1 to 200, the newest first.
    List {
        state: Option<TaskState>,
        limit: u32,
        below: Option<u32>,
    },
    /// How many tasks are in a state, or in any.
    Count {
        state: Option<TaskState>,
    },
    /// A bot comes.
    Handshake {
        bot: Text,
        session: Text,
        dims: BotDims,
        quarantined: Text,
    },
    /// A bot asks what to do.
    Poll {
        bot: Text,
        dims: BotDims,
        quarantined: Text,
    },
    /// A bot asks for a task.
    Claim {
        bot: Text,
        claim: Text,
    },
    /// A bot tells of itself.
    Event {
        bot: Text,
        kind: EventKind,
        message: Text,
    },
    /// A bot reports on its run: more of the output, or the end.
    Update {
        bot: Text,
        task: u32,
        try_no: u32,
        chunk: Option<Chunk>,
        last: Option<Last>,
    },
    /// A bot is to end.
    Terminate {
        bot: Text,
    },
    /// The bots whose names come after `after`, in the order of their bytes: at most `limit`, 1 to
    /// 200. All names come after the empty one.
    Bots {
        limit: u32,
        after: Text,
    },
    /// What is known of a bot.
    Bot {
        bot: Text,
    },
    /// A content is to be held under the digest that it is named by; `actual` is its own.
    PutBlob {
        named: Digest,
        actual: Digest,
        size: u32,
    },
    /// The bytes of a blob.
    GetBlob {
        digest: Digest,
    },
    /// Which of these blobs, by digest and size, are not held.
    FindMissing {
        blobs: Seq<(Digest, u32)>,
    },
}
