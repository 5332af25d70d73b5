/// What a bot keeps of a run. Moments and limits are in seconds; a limit of 0 is none.
#[derive(Clone, Copy)]
pub struct Run {
    /// How long the command may run.
    pub execution: u32,
    /// How long it may go without output.
    pub io: u32,
    /// How long it has from Term to Kill.
    pub grace: u32,
    /// How long the server waits for an update. One is sent each quarter of this at the latest.
    pub tolerance: u32,
    pub started: u64,
    pub last_output: u64,
    pub last_send: u64,
    /// Bytes of output that were sent.
    pub sent: u32,
    /// Bytes of output behind those that are still to be sent, at most 16384.
    pub pending: u32,
    /// Bytes of output that will not be sent.
    pub dropped: u64,
    /// All output that still comes is dropped.
    pub dropping: bool,
    /// The command is to end.
    pub stop: bool,
    /// The server doesn't take updates of this run.
    pub abandoned: bool,
    /// The bot stops behind this run.
    pub refused: bool,
    /// When Term was sent.
    pub term: Option<u64>,
    /// Kill was sent.
    pub killed: bool,
    pub hard_timeout: bool,
    pub io_timeout: bool,
    pub exit_code: i32,
    pub duration_ms: u64,
}
