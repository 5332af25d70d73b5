//! How many tasks are in a state.
ghost use Rattle.std.specs.Prelude.{◌≡◌};
ghost use Rattle.std.specs.List.{count_by};
ghost use Rattle.swarm_model.specs.Finding.{has_state};

use swarm_model::{TaskRow, TaskState};

/// How many of the tasks are in the state. It reads all of them.
pub fn count_in_state(tasks: &[TaskRow], state: TaskState) -> u64
    ensures { result ≡ count_by (has_state state) tasks.now }
{
    tasks.iter().filter(|task| task.has_state(state)).count() as u64
}
