use std::collections::LinkedList;
use swarm_model::{Entry, PoolSettings, PoolState};

/// What never changes of a pool's machine. No value of it is made.
pub struct Lasting {
    pub settings: PoolSettings,
    /// Whether each blob has its bytes.
    pub is_whole: bool,
    /// The rows from which its log begins.
    pub rows: PoolState,
    /// How many entries led to these.
    pub count: u64,
}

/// What a pass knows of its pool. No value of it is made.
pub struct PoolView {
    pub number: u64,
    /// The turns that it and the passes joined into it took.
    pub turns: u64,
    /// Its own number, and those of the passes that were joined into it.
    pub numbers: LinkedList<u64>,
    /// How many passes were made, where the number is 0.
    pub made: u64,
    /// The greatest front that it was told.
    pub told: u64,
    /// The log as far as it has seen it.
    pub seen: LinkedList<Entry>,
}
