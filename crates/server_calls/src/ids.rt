/// A task that an id names: the place of its pool, and its number there.
#[derive(Clone, Copy)]
pub(crate) struct TaskId {
    pub place: u32,
    pub task: u32,
}

/// A run that an id names: the place of its pool, and the numbers of its task and its try.
#[derive(Clone, Copy)]
pub(crate) struct RunId {
    pub place: u32,
    pub run: (u32, u32),
}
