use crate::Slice;
use dimensions::{Seq, Text};

/// A request for a task, after `swarming.v2.NewTaskRequest`. Lower priority numbers run first.
#[derive(Debug, PartialEq, Drop)]
pub struct NewTask {
    pub name: Text,
    pub priority: u32,
    /// The seconds of silence of its bot that end a run.
    pub bot_ping_tolerance_secs: u32,
    pub request_uuid: Text,
    pub task_slices: Seq<Slice>,
}

impl NewTask {
    ghost use Rattle.std.specs.Prelude.{◌≡◌};
    ghost use Rattle.task_props.specs.Checked.{pool_of_task};

    /// The pool of the first slice, or the empty text where there is none.
    pub fn pool(&self) -> &str
        ensures { result.now ≡ pool_of_task self.now }
    {
        match self.task_slices.as_slice().first() {
            Some(slice) => slice.pool(),
            None => "",
        }
    }
}
