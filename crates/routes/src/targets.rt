//! The targets of the calls that have no part to choose, as a request names them.

pub const CLAIM: &str = "/bot/claim";

pub const EVENT: &str = "/bot/event";

pub const HANDSHAKE: &str = "/bot/handshake";

pub const POLL: &str = "/bot/poll";

pub const TASK_UPDATE: &str = "/bot/task_update";

pub const GET_BOT: &str = "/prpc/swarming.v2.Bots/GetBot";

pub const LIST_BOTS: &str = "/prpc/swarming.v2.Bots/ListBots";

pub const TERMINATE_BOT: &str = "/prpc/swarming.v2.Bots/TerminateBot";

pub const CANCEL_TASK: &str = "/prpc/swarming.v2.Tasks/CancelTask";

pub const COUNT_TASKS: &str = "/prpc/swarming.v2.Tasks/CountTasks";

pub const GET_RESULT: &str = "/prpc/swarming.v2.Tasks/GetResult";

pub const GET_STDOUT: &str = "/prpc/swarming.v2.Tasks/GetStdout";

pub const LIST_TASKS: &str = "/prpc/swarming.v2.Tasks/ListTasks";

pub const NEW_TASK: &str = "/prpc/swarming.v2.Tasks/NewTask";
