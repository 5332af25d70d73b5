//! Tasks that took the outcomes of others.
ghost use Rattle.std.specs.Prelude.{◌≡◌, false, MatchBool};
ghost use Rattle.std.specs.List.{AllPass};
ghost use Rattle.std.specs.Option.{option_map_or};
ghost use Rattle.swarm_model.specs.Numbers.{AreNumbered};
ghost use Rattle.swarm_model.specs.Effects.{no_of_task};
ghost use Rattle.swarm_model.specs.Reuse.{ended_well};
ghost use Rattle.base_checks.specs.Agreeing.{numbered_task};
ghost use Rattle.base_checks.specs.Outcomes.{has_outcome_of, has_outcome};

use row_changes::{ended_well, row_of};
use swarm_model::{TaskRow, TaskState};

/// Whether the task of the number is there, and its run reported its end with 0.
fn has_ended_well(tasks: &[TaskRow], number: u32) -> bool
    requires { AreNumbered no_of_task 1 tasks.now }
    ensures { result ≡ option_map_or ended_well (numbered_task tasks.now number) false }
{
    match row_of(tasks, number) {
        None => false,
        Some(task) => ended_well(task),
    }
}

fn has_outcome_of(tasks: &[TaskRow], task: &TaskRow, number: u32) -> bool
    requires { AreNumbered no_of_task 1 tasks.now }
    ensures { result ≡ has_outcome_of tasks.now task.now number }
{
    task.has_state(TaskState::Completed) && task.attempt.is_none() && has_ended_well(tasks, number)
}

fn has_outcome(tasks: &[TaskRow], task: &TaskRow) -> bool
    requires { AreNumbered no_of_task 1 tasks.now }
    ensures { result ≡ has_outcome tasks.now task.now }
{
    match task.source {
        None => true,
        Some(number) => has_outcome_of(tasks, task, number),
    }
}

/// Whether each task that took the outcome of another completed without a run, and the other one ran
/// and reported 0.
pub(crate) fn have_outcomes(tasks: &[TaskRow]) -> bool
    requires { AreNumbered no_of_task 1 tasks.now }
    ensures { MatchBool result (AllPass (has_outcome tasks.now) tasks.now) (AllPass (has_outcome tasks.now) tasks.now → ⊥) }
{
    for task in tasks {
        if !has_outcome(tasks, task) {
            return false;
        }
    }
    true
}
