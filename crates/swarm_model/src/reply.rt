use crate::{BotView, Rule, TaskState, TaskView};
use dimensions::{Seq, Text};
use task_props::{Digest, Properties};

/// Bytes of a blob: those from one place to another.
#[derive(Clone, Copy, Debug, PartialEq, Eq)]
pub struct Part {
    pub digest: Digest,
    pub from: u32,
    pub to: u32,
}

/// What a request is answered.
#[derive(Drop)]
pub enum Reply {
    /// The number of the new task, and its state.
    New {
        task: u32,
        state: TaskState,
    },
    /// Whether the task or its run comes to an end by this, and whether it was running.
    Canceled {
        canceled: bool,
        was_running: bool,
    },
    Result(TaskView),
    /// The state of the task, and the parts of its output, one after the other.
    Stdout {
        state: TaskState,
        parts: Seq<Part>,
    },
    /// A page of tasks, and where more are left the number of its last one.
    Tasks {
        items: Seq<TaskView>,
        cursor: Option<u32>,
    },
    Count {
        count: u64,
    },
    /// The pool knows the bot.
    Shaken {
        bot: Text,
    },
    /// The bot is to ask again after so many seconds.
    Sleep {
        secs: u64,
    },
    /// The bot is to claim a task.
    ClaimHint,
    /// The bot is to end.
    Terminate,
    /// The bot is to run a slice of a task, and to be heard at least every `tolerance` seconds.
    Run {
        task: u32,
        try_no: u32,
        slice: u32,
        tolerance: u32,
        properties: Properties,
    },
    /// There is no task for the bot.
    Skip,
    Noted,
    /// The report of a run is taken; whether the run is to stop.
    Updated {
        must_stop: bool,
    },
    /// The bot will be told to end.
    Terminating,
    /// A page of bots, and where more are left the name of its last one.
    Bots {
        items: Seq<BotView>,
        cursor: Option<Text>,
    },
    Bot(BotView),
    /// Whether the blob was not held before.
    Put {
        fresh: bool,
    },
    /// A blob, whose bytes stand beside the reply.
    Blob {
        digest: Digest,
        size: u32,
    },
    /// The blobs, by digest and size, that are not held.
    Missing {
        blobs: Seq<(Digest, u32)>,
    },
    No(Rule),
}
