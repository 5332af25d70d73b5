use swarm_model::{BlobRow, BotRow, TaskRow};

/// What the first line of a base tells.
#[derive(Clone, Copy)]
pub struct PoolLine {
    /// The moment of the last entry, in whole seconds.
    pub last: u64,
    /// How many blobs were ever placed.
    pub placed: u32,
}

/// What one line of a base tells.
#[derive(Drop)]
pub enum BaseRow {
    Pool(PoolLine),
    Task(TaskRow),
    Bot(BotRow),
    Blob(BlobRow),
}
