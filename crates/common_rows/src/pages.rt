//! The task of a number, and the one that a page shows next.
ghost use Rattle.std.specs.Prelude.{◌≡◌, ◌+◌, ◌≤◌, ◌<◌, length, take, reverse, slice_get, get_or, ◌^◌, IsNone};
ghost use Rattle.std.specs.List.{filter, find};
ghost use Rattle.std.specs.Option.{option_copied};
ghost use Rattle.swarm_model.specs.Numbers.{AreNumbered};
ghost use Rattle.swarm_model.specs.Effects.{no_of_task};
ghost use Rattle.swarm_model.specs.Finding.{is_task, is_wanted};
ghost use Rattle.swarm_model.specs.Pages.{is_listed};

use std::sync::ledger::Ledger;
use swarm_model::{ReadRows, Steps, TaskRow, TaskState};
use task_rows::TaskRows;

/// Whether the task is in the state, or none is named.
pub fn is_wanted(wanted: Option<TaskState>, task: &TaskRow) -> bool
    ensures { result ≡ is_wanted wanted task.now }
{
    match wanted {
        None => true,
        Some(state) => task.has_state(state),
    }
}

/// How many of the tasks, the first ones, have numbers below the one that is given, where one is.
fn count_below(tasks: &TaskRows, below: Option<u32>) -> usize
    requires numbered { AreNumbered no_of_task 1 tasks.now.rows }
    ensures within { result ≤ length tasks.now.rows }
    ensures first { (wanted : _) → filter (is_listed wanted below) tasks.now.rows ≡ filter (is_wanted wanted) (take result tasks.now.rows) }
{
    match below {
        None => tasks.count(),
        Some(below) => (below as usize).saturating_sub(1).min(tasks.count()),
    }
}

/// The task at a place of the rows, from 0.
fn task_at<'a, L: Ledger>(tasks: &'a TaskRows, place: usize, steps: &mut Steps<L>) -> &'a TaskRow
    requires numbered { AreNumbered no_of_task 1 tasks.now.rows }
    requires within { place < length tasks.now.rows }
    requires few { length tasks.now.rows < 2 ^ 32 }
    ensures is { result.now ≡ get_or tasks.now.rows place result.now }
    ensures cost { steps.new ≡ steps.old + 1 }
{
    match tasks.row(place as u32 + 1, steps) {
        Some(task) => task,
        None => unreachable!(),
    }
}

/// The task of a number, which is read for one step where there is one.
pub fn task_of<'a, L: Ledger>(
    tasks: &'a TaskRows,
    number: u32,
    steps: &mut Steps<L>,
) -> Option<&'a TaskRow>
    requires numbered { AreNumbered no_of_task 1 tasks.now.rows }
    requires few { length tasks.now.rows < 2 ^ 32 }
    ensures value { option_copied result ≡ find (is_task number) tasks.now.rows }
    ensures cost { steps.new ≤ steps.old + 1 }
    ensures free { IsNone result → steps.new ≡ steps.old }
{
    if number == 0 {
        return None;
    }
    let place = number as usize - 1;
    if place < tasks.count() {
        Some(task_at(tasks, place, steps))
    } else {
        None
    }
}

/// The last of the first tasks that is in the state, or of all where none is named.
#[tactic(auto, using(pool_log::proofs::Finding::find_last))]
fn newest<'a, L: Ledger>(
    tasks: &'a TaskRows,
    count: usize,
    wanted: Option<TaskState>,
    steps: &mut Steps<L>,
) -> Option<&'a TaskRow>
    requires numbered { AreNumbered no_of_task 1 tasks.now.rows }
    requires within { count ≤ length tasks.now.rows }
    requires few { length tasks.now.rows < 2 ^ 32 }
    ensures { option_copied result ≡ find (is_wanted wanted) (reverse (take count tasks.now.rows)) }
{
    for place in (0..count).rev() {
        let task = task_at(tasks, place, steps);
        if is_wanted(wanted, task) {
            return Some(task);
        }
    }
    None
}

/// The newest task in the state, or in any where none is named, below a number, where one is given.
/// It reads the tasks from that number down to the one that it finds.
pub fn newest_below<'a, L: Ledger>(
    tasks: &'a TaskRows,
    wanted: Option<TaskState>,
    below: Option<u32>,
    steps: &mut Steps<L>,
) -> Option<&'a TaskRow>
    requires numbered { AreNumbered no_of_task 1 tasks.now.rows }
    requires few { length tasks.now.rows < 2 ^ 32 }
    ensures { option_copied result ≡ slice_get (reverse (filter (is_listed wanted below) tasks.now.rows)) 0 }
{
    let count = count_below(tasks, below);
    newest(tasks, count, wanted, steps)
}
