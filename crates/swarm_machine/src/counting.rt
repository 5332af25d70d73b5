//! How many tasks are in each state.
ghost use Rattle.std.specs.Prelude.{◌≡◌, ◌+◌, ◌-◌, ◌<◌, ◌^◌, slice_index};
ghost use Rattle.std.specs.List.{All};
ghost use Rattle.std.specs.Option.{option_map, option_and_then};
ghost use Rattle.swarm_model.specs.Finding.{task_of};
ghost use Rattle.swarm_machine.specs.Counting.{is_in, one_if, shifted, AreShifted};
ghost use Rattle.common_rows.specs.Rows.{state_of};

use common_rows::Rows;
use swarm_model::TaskState;

fn is_in(row: Option<TaskState>, state: TaskState) -> bool
    ensures { result ≡ is_in row state }
{
    match row {
        None => false,
        Some(own) => own.place() == state.place(),
    }
}

fn shift(count: u64, left: bool, came: bool) -> u64
    requires { count < 2 ^ 32 }
    ensures { result ≡ count + one_if came - one_if left }
{
    (count + u64::from(came)).saturating_sub(u64::from(left))
}

/// The count at the place of a state.
fn shift_at(
    counts: &[u64; 9],
    place: usize,
    from: Option<TaskState>,
    to: Option<TaskState>,
    state: TaskState,
) -> u64
    requires place { place < 9 }
    requires few { All (λ count. count < 2 ^ 32) counts.now }
    ensures { result ≡ shifted from to state (slice_index counts.now place) }
{
    shift(counts[place], is_in(from, state), is_in(to, state))
}

/// The counts after a row came from one state, or was not there, to another.
pub(crate) fn shift_counts(
    counts: &[u64; 9],
    from: Option<TaskState>,
    to: Option<TaskState>,
) -> [u64; 9]
    requires { All (λ count. count < 2 ^ 32) counts.now }
    ensures { AreShifted from to counts.now result }
{
    [
        shift_at(counts, 0, from, to, TaskState::Pending),
        shift_at(counts, 1, from, to, TaskState::Running),
        shift_at(counts, 2, from, to, TaskState::Expired),
        shift_at(counts, 3, from, to, TaskState::TimedOut),
        shift_at(counts, 4, from, to, TaskState::BotDied),
        shift_at(counts, 5, from, to, TaskState::Canceled),
        shift_at(counts, 6, from, to, TaskState::Completed),
        shift_at(counts, 7, from, to, TaskState::Killed),
        shift_at(counts, 8, from, to, TaskState::NoResource),
    ]
}

/// The state of the task of a number, where there is a number and such a task.
pub(crate) fn state_in(rows: &Rows, number: Option<u32>) -> Option<TaskState>
    ensures { result ≡ option_map (λ task. task.state) (option_and_then (task_of (state_of rows.now)) number) }
{
    match rows.tasks.uncounted_row(number?) {
        None => None,
        Some(task) => Some(task.state),
    }
}
