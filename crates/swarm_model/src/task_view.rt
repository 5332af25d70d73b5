use crate::TaskState;
use dimensions::{Seq, Text};
use task_props::File;

/// What a reader is shown of a task, after `swarming.v2.TaskResultResponse`. Moments are whole
/// seconds. A task is named by its number, a run by the numbers of its task and its try.
#[derive(Drop)]
pub struct TaskView {
    pub bot_id: Option<Text>,
    pub completed_ts: Option<u64>,
    pub created_ts: u64,
    pub current_task_slice: u32,
    pub deduped_from: Option<(u32, u32)>,
    pub dropped: Option<u64>,
    pub duration_ms: Option<u64>,
    pub exit_code: Option<i32>,
    pub files: Seq<File>,
    pub name: Text,
    pub output_length: u32,
    pub priority: u32,
    pub run_id: Option<(u32, u32)>,
    pub started_ts: Option<u64>,
    pub state: TaskState,
    pub task_id: u32,
    pub user: Text,
}
