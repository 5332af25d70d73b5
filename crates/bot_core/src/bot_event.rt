/// What came of an action.
#[derive(Clone, Copy, Debug, PartialEq, Eq)]
pub enum BotEvent {
    /// The bot begins.
    Begin,
    HandshakeOk,
    PollSleep {
        secs: u64,
    },
    PollClaim,
    PollTerminate,
    /// The claim is answered with a run: its limits of time in seconds, 0 for none.
    ClaimRun {
        execution: u32,
        io: u32,
        grace: u32,
        tolerance: u32,
    },
    ClaimSkip,
    SendOk {
        must_stop: bool,
    },
    /// The request was refused, by the number of a `RefusalCode` of `refusal_codes`.
    Refused {
        number: u32,
    },
    /// Nothing is known of the request: the link failed, or what came is no reply.
    Lost,
    Slept,
    Prepared,
    Started,
    /// So many bytes of output were taken, from 1 to the room of the Look.
    Output {
        size: u32,
    },
    /// The command runs, and there was no output.
    Quiet,
    /// The command has ended, and all its output was taken.
    Ended {
        code: i32,
    },
    Signalled,
    Uploaded,
    Cleaned,
    /// What runs commands has failed.
    RunnerFailed,
}
