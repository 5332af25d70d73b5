use std::collections::LinkedList;
use swarm_model::{Entry, PoolState};

/// What a copy stands for: the state that it began with, the rows without blobs after the entries,
/// and the entries. No value of it is made.
pub struct Kept {
    pub base: PoolState,
    pub now: PoolState,
    pub log: LinkedList<Entry>,
}
