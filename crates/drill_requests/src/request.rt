//! The requests of a drill.

/// A request of a drill. Bots are told by their numbers, from 1 to 8, and cycles by theirs, from 1:
/// the task of cycle 12 is the pool's task 12.
#[derive(Clone, Copy, Drop)]
pub enum DrillRequest {
    /// A bot comes with its session.
    Handshake {
        bot: u32,
    },
    /// A task with this priority, which any bot may run.
    NewTask {
        cycle: u32,
        priority: u32,
    },
    /// The task is wanted no more, and nor is its run with `kill_running`.
    CancelTask {
        cycle: u32,
        kill_running: bool,
    },
    /// A bot asks for work, with a claim id of the cycle.
    Claim {
        bot: u32,
        cycle: u32,
    },
    /// The end of the task's run, with a piece of output.
    FinalUpdate {
        bot: u32,
        cycle: u32,
        exit_code: u32,
        hard_timeout: bool,
    },
}
