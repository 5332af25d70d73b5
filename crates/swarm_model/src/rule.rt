use crate::{Permission, TaskState};
use dimensions::Text;
use task_props::{Digest, PropRule};

/// Why a bot gets no work.
#[derive(Clone, Copy, Debug, PartialEq, Eq)]
pub enum Unfit {
    /// It was silent for too long.
    Dead,
    /// It said that it takes none.
    Quarantined,
    /// It is to end.
    Terminating,
}

/// Why a request is refused.
#[derive(Drop)]
pub enum Rule {
    /// The bytes are no head of a request.
    BadHead,
    /// The head doesn't tell how long the body is.
    LengthRequired,
    /// The body is longer than so many bytes.
    TooLarge {
        limit: u32,
    },
    /// No route has the target.
    NoRoute,
    /// No route has the target with this method.
    BadMethod,
    /// The body is no JSON in UTF-8 (RFC 8259).
    BadJson,
    /// The first broken rule of the body, with the dotted path of its field.
    BadField {
        field: Text,
        rule: PropRule,
    },
    /// The head names no caller, or not just one.
    NoCaller,
    /// The pool gives the caller no such permission. A task's creator needs none to cancel it or to
    /// see what it has come to.
    Denied {
        permission: Permission,
        pool: Text,
    },
    NoPool,
    /// The pool has no such task, or the task no such run.
    NoTask,
    /// The pool has no bot of that name.
    NoBot,
    /// The caller sent another task under this uuid.
    UuidReused {
        task: u32,
    },
    /// The bot gets no work.
    BotUnfit {
        why: Unfit,
    },
    /// The bot has a run.
    BotBusy {
        task: u32,
        try_no: u32,
    },
    /// The run of this claim has ended.
    ClaimOver {
        task: u32,
        try_no: u32,
        state: TaskState,
    },
    /// The run is that of another bot.
    NotClaimant {
        bot: Text,
    },
    /// The run has ended, in this state of its task.
    AttemptOver {
        state: TaskState,
    },
    /// The output begins past what is kept of the run, which has so many bytes.
    OutputGap {
        length: u32,
    },
    /// The output begins within what is kept of the run, and none that was kept is the same.
    OutputOverlap {
        start: u32,
    },
    /// No blob has the digest, or not with this size.
    BlobMissing {
        digest: Digest,
    },
    /// The bytes have another digest than they were put under.
    DigestDiffers {
        actual: Digest,
    },
    /// The pool holds so many blobs, and has no room for one more of this size.
    StoreFull {
        names: u32,
        size: u32,
    },
    /// The pool has as many tasks as it may have.
    PoolTasksFull {
        limit: u32,
    },
    /// The pool has as many bots as it may have.
    PoolBotsFull {
        limit: u32,
    },
    /// The log has no room for the entry that must be added.
    LogFull,
    /// What keeps the pool's records failed.
    KeeperFault,
    /// The caller has seen a longer log than this one.
    FrontAhead {
        length: u64,
    },
    WantOfMemory,
    /// A blob of the output is not held any more.
    OutputGone {
        digest: Digest,
    },
}
