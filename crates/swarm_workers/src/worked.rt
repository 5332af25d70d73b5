/// Why a worker stopped.
#[derive(Clone, Copy, Debug, PartialEq, Eq)]
pub enum WorkStop {
    /// As many connections were served as it may serve.
    Done,
    /// There was no connection more.
    NoMore,
    /// The next connection could not be accepted.
    Failed,
    /// The last session had no memory to begin.
    Memory,
}

/// What a worker did.
#[derive(Clone, Copy, Debug, PartialEq, Eq)]
pub struct Worked {
    /// How many connections were served, the last one among them where it had no memory.
    pub sessions: u32,
    pub stop: WorkStop,
}
