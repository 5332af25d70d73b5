/// Which calls are served.
#[derive(Clone, Copy, Debug, PartialEq, Eq)]
pub enum ServedCalls {
    All,
    /// CountTasks, ListTasks, GetResult, ListBots and GetBot, which read tasks and bots alone.
    Boards,
}
