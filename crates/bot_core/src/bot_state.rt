use crate::{BotLimits, Run, Signal, StopWhy};

/// What a bot is at: one action for each phase. A request that is sent again stays at its phase.
#[derive(Clone, Copy)]
pub enum Phase {
    Handshake,
    Poll,
    Claim,
    Prepare,
    Start,
    Look,
    Signal { signal: Signal },
    /// An update while the command runs.
    Send,
    /// The update that ends the run.
    LastSend,
    Upload,
    CleanUp,
    Stop { why: StopWhy },
}

/// What a bot waits for: its begin, what comes of the action of its phase, or the end of a sleep of
/// so many seconds before that action.
#[derive(Clone, Copy)]
pub enum Awaited {
    Begin,
    Answer,
    Slept { secs: u64 },
}

/// All that a bot keeps.
#[derive(Clone, Copy)]
pub struct BotState {
    pub limits: BotLimits,
    /// The first moment, by which sessions are named.
    pub first: u64,
    /// The number of the session, from 1; 0 before the first.
    pub session: u64,
    /// The number of the last claim of the session; 0 before its first.
    pub claim: u64,
    /// How many polls were sent.
    pub polls: u32,
    /// How many runs were cleaned up.
    pub tasks: u32,
    /// How many actions were answered.
    pub steps: u32,
    pub phase: Phase,
    pub awaited: Awaited,
    /// The present run, or the last one.
    pub run: Run,
}
