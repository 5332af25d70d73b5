/// What a bot is to do next.
#[derive(Clone, Copy, Debug, PartialEq, Eq)]
pub enum Action {
    /// Send a Handshake. The session is named by the first moment and a number from 1.
    Handshake {
        first: u64,
        session: u64,
    },
    Poll,
    /// Send a Claim. Its id is the session and a number from 1 within it.
    Claim {
        first: u64,
        session: u64,
        claim: u64,
    },
    /// Get the inputs of the task, and make the place where it runs.
    Prepare,
    /// Start the command.
    Start,
    /// Take at most `room` bytes of output, or see that the command has ended.
    Look {
        room: u32,
    },
    Sleep {
        secs: u64,
    },
    Signal {
        signal: Signal,
    },
    /// Send an update of the run, with `size` bytes of output from `start` on where `size` isn't 0.
    Send {
        start: u32,
        size: u32,
        last: Option<End>,
    },
    /// Put the outputs of the task.
    Upload,
    /// Remove the place where the task ran.
    CleanUp,
    /// End. `tasks` runs were cleaned up.
    Stop {
        why: StopWhy,
        tasks: u32,
    },
}

/// A signal to the command.
#[derive(Clone, Copy, Debug, PartialEq, Eq)]
pub enum Signal {
    Term,
    Kill,
}

/// How a run ended, as its last update tells it.
#[derive(Clone, Copy, Debug, PartialEq, Eq)]
pub struct End {
    pub exit_code: i32,
    /// Milliseconds from the start, at most 2^40; 0 where nothing was started.
    pub duration_ms: u64,
    /// It was asked to end since it ran too long.
    pub hard_timeout: bool,
    /// It was asked to end since it wrote nothing for too long.
    pub io_timeout: bool,
    /// Bytes of output that were not sent.
    pub dropped: u64,
}

/// Why a bot stops.
#[derive(Clone, Copy, Debug, PartialEq, Eq)]
pub enum StopWhy {
    /// The server asked for it.
    Terminated,
    /// The limit of tasks is reached.
    Tasks,
    /// A Poll would pass the limit of polls.
    Polls,
    /// An action would pass the limit of steps.
    Steps,
    /// A request was refused for good.
    Refused,
}
