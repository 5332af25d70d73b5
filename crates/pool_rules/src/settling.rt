//! What a deadline that has come adds to the log.
ghost use Rattle.std.specs.Prelude.{◌≡◌, ◌≤◌, ◌+◌, IfSome, false, Option, None};
ghost use Rattle.std.specs.Option.{option_copied, option_map_or};
ghost use Rattle.swarm_model.specs.declared.entry.Outcome.TheVariants as outcome;
ghost use Rattle.swarm_model.specs.declared.task_state.TaskState.TheVariants.{NoResource};
ghost use Rattle.swarm_model.specs.Finding.{task_of, blob_numbered};
ghost use Rattle.swarm_model.specs.Soundness.{IsSoundTask};
ghost use Rattle.swarm_model.specs.Deadlines.{if_come, last_state, next_of, settled, entry_of, due_entry};
ghost use Rattle.swarm_model.specs.Uses.{is_used};

use crate::admitting::admit;
use pool_queries::PoolQueries;
use std::sync::ledger::Ledger;
use swarm_model::{Cause, Deadline, Entry, EntryKind, Outcome, Steps, TaskRow, TaskState};

fn if_come(moment: u64, deadline: Deadline) -> Option<Deadline>
    ensures { result ≡ if_come moment deadline }
{
    if deadline.moment <= moment {
        Some(deadline)
    } else {
        None
    }
}

/// How a task ends whose slice ran out, and no later one is open.
fn last_state(task: &TaskRow) -> TaskState
    ensures { result ≡ last_state task.now }
{
    if task.slice as usize + 1 == task.request.task_slices.as_slice().len() {
        TaskState::Expired
    } else {
        TaskState::NoResource
    }
}

/// What becomes of a task whose slice has run out.
fn next_of<P: PoolQueries>(pool: &P, task: &TaskRow) -> Outcome
    requires { IsSoundTask (P.state pool.now) task.now }
    ensures { result ≡ next_of (P.state pool.now) task.now }
{
    let slices = task.request.task_slices.as_slice();
    match admit(pool, slices, task.slice as usize + 1) {
        Some(place) => Outcome::Slice(place as u32),
        None => Outcome::Ended(last_state(task)),
    }
}

/// The task of a number, of which the rules hold that hold of each.
fn sound_task<'a, P: PoolQueries, L: Ledger>(
    pool: &'a P,
    number: u32,
    steps: &mut Steps<L>,
) -> Option<&'a TaskRow>
    ensures found { option_copied result ≡ task_of (P.state pool.now) number }
    ensures sound { IfSome (option_copied result) (IsSoundTask (P.state pool.now)) }
    ensures cost { steps.new ≤ steps.old + 1 }
{
    pool.sound();
    pool.task_of(number, steps)
}

fn outcome_of<P: PoolQueries, L: Ledger>(pool: &P, number: u32, steps: &mut Steps<L>) -> Outcome
    ensures value { result ≡ option_map_or (next_of (P.state pool.now)) (task_of (P.state pool.now) number) (outcome.Ended NoResource) }
    ensures cost { steps.new ≤ steps.old + 1 }
{
    match sound_task(pool, number, steps) {
        Some(task) => next_of(pool, task),
        None => Outcome::Ended(TaskState::NoResource),
    }
}

/// Whether a task that waits or runs needs the blob of a number.
fn is_needed<P: PoolQueries>(pool: &P, number: u32) -> bool
    ensures { result ≡ option_map_or (λ blob. is_used (P.state pool.now) blob.digest) (blob_numbered (P.state pool.now) number) false }
{
    match pool.blob_numbered(number) {
        None => false,
        Some(blob) => pool.is_used(&blob.digest),
    }
}

/// What the log says of a deadline.
fn settled<P: PoolQueries, L: Ledger>(
    pool: &P,
    cause: Cause,
    number: u32,
    steps: &mut Steps<L>,
) -> EntryKind
    ensures value { result ≡ settled (P.state pool.now) cause number }
    ensures cost { steps.new ≤ steps.old + 1 }
{
    match cause {
        Cause::Slice => EntryKind::Slice {
            t: number,
            to: outcome_of(pool, number, steps),
        },
        Cause::Silence => EntryKind::Silence { t: number },
        Cause::Bot => EntryKind::Dead { b: number },
        Cause::Blob => EntryKind::Blob {
            n: number,
            kept: is_needed(pool, number),
        },
    }
}

fn entry_of<P: PoolQueries, L: Ledger>(
    pool: &P,
    pass: u32,
    deadline: Deadline,
    steps: &mut Steps<L>,
) -> Entry
    ensures value { result ≡ entry_of (P.state pool.now) pass deadline }
    ensures cost { steps.new ≤ steps.old + 1 }
{
    Entry {
        moment: deadline.moment,
        pass,
        kind: settled(pool, deadline.cause, deadline.number, steps),
    }
}

/// The entry of the earliest deadline, where it has come by the moment. It costs at most one step.
pub fn due_entry<P: PoolQueries, L: Ledger>(
    pool: &P,
    moment: u64,
    pass: u32,
    steps: &mut Steps<L>,
) -> Option<Entry>
    ensures value { result ≡ due_entry (P.state pool.now) moment pass }
    ensures cost { steps.new ≤ steps.old + 1 }
{
    let deadline = if_come(moment, pool.next_deadline()?)?;
    Some(entry_of(pool, pass, deadline, steps))
}
