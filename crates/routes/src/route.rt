/// A call that is served.
#[derive(Clone, Copy, Debug, PartialEq, Eq)]
pub enum Route {
    NewTask,
    CancelTask,
    GetResult,
    GetStdout,
    ListTasks,
    CountTasks,
    GetBot,
    ListBots,
    TerminateBot,
    Handshake,
    Poll,
    Claim,
    Event,
    TaskUpdate,
    FindMissing,
    PutBlob,
    GetBlob,
}
