use crate::{Chunk, Last, TaskState};
use dimensions::{BotDims, Text};
use task_props::{Digest, SharedTask};

/// What becomes of a task whose slice has run out.
#[derive(Clone, Copy, Debug, PartialEq, Eq)]
pub enum Outcome {
    /// It goes on at the slice of this place.
    Slice(u32),
    /// It ends in this state.
    Ended(TaskState),
}

/// What a bot tells of itself.
#[derive(Clone, Copy, Debug, PartialEq, Eq)]
pub enum EventKind {
    Ping,
    /// The bot takes no work, for the reason of its message.
    Quarantine,
    Unquarantine,
}

/// What happened to a pool. Tasks, bots and blobs are named by their numbers.
#[derive(Drop)]
pub enum EntryKind {
    /// The slice of a task ran out.
    Slice {
        t: u32,
        to: Outcome,
    },
    /// The bot of a running task kept silent for too long.
    Silence {
        t: u32,
    },
    /// A bot was silent for so long that it counts as dead.
    Dead {
        b: u32,
    },
    /// The life of a blob ran out; it is kept where a task needs it still.
    Blob {
        n: u32,
        kept: bool,
    },
    /// A task was accepted, in this state and at this slice, or with the outcome of another task.
    New {
        t: u32,
        who: Text,
        request: SharedTask,
        state: TaskState,
        slice: u32,
        from: Option<u32>,
    },
    /// A pending task was canceled.
    Cancel {
        t: u32,
    },
    /// A running task was asked to stop.
    Kill {
        t: u32,
    },
    /// A bot came, with a new session.
    Handshake {
        b: u32,
        id: Text,
        session: Text,
        dims: BotDims,
        q: Text,
    },
    /// A bot asked what to do; its dimensions and its quarantine, where they changed.
    Poll {
        b: u32,
        dims: Option<BotDims>,
        q: Option<Text>,
        hint: bool,
    },
    /// A bot claimed a task.
    Claim {
        b: u32,
        t: u32,
        claim: Text,
    },
    /// A bot was heard.
    Contact {
        b: u32,
    },
    /// A bot told of itself.
    Event {
        b: u32,
        e: EventKind,
        text: Text,
    },
    /// A bot reported output of a run, or its end.
    Update {
        b: u32,
        t: u32,
        try_no: u32,
        chunk: Option<Chunk>,
        last: Option<Last>,
    },
    /// A bot was told to end.
    Terminate {
        b: u32,
    },
    /// A content was put.
    Put {
        digest: Digest,
        size: u32,
    },
}

/// One event of a pool: its moment in whole seconds, and the number of the pass that added it.
#[derive(Drop)]
pub struct Entry {
    pub moment: u64,
    pub pass: u32,
    pub kind: EntryKind,
}
