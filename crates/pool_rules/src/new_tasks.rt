ghost use Rattle.std.specs.Prelude.{◌≡◌, ◌+◌, ◌<◌, ◌≤◌, ◌^◌, length, nat_le, IfOk};
ghost use Rattle.dimensions.specs.Choosing.{when};
ghost use Rattle.swarm_model.specs.Answers.{new_task, resubmitted, new_task_decision, accepted, reuse_outcome, tasks_full};

use crate::admitting::admit;
use crate::missing::{file_missing, missing_input};
use crate::reusing::reuse;
use dimensions::{Text, TryCopy};
use pool_queries::{PoolQueries, refusal, reply_only, reply_with_entry};
use std::alloc::{AllocError, Global};
use std::sync::ledger::Ledger;
use swarm_model::{Decision, EntryKind, Reply, Reuse, Rule, Steps, TaskRow, TaskState};
use task_props::SharedTask;

/// A task that is sent again is told once more, and another under its uuid is refused.
fn resubmitted(request: &SharedTask, task: &TaskRow) -> Decision
    ensures { result ≡ resubmitted request.now task.now }
{
    if *task.request == **request {
        reply_only(Reply::New {
            task: task.no,
            state: task.state,
        })
    } else {
        refusal(Rule::UuidReused { task: task.no })
    }
}

/// The refusal of a pool that has as many tasks as it may have.
fn full_refusal<P: PoolQueries>(pool: &P) -> Option<Decision>
    ensures { result ≡ when (nat_le (P.state pool.now).settings.most_tasks (length (P.state pool.now).tasks)) (tasks_full (P.state pool.now)) }
{
    let limit = pool.settings().most_tasks;
    if limit as usize <= pool.task_count() {
        Some(refusal(Rule::PoolTasksFull { limit }))
    } else {
        None
    }
}

/// The next task, in this state and at this slice, with the task whose outcome it takes.
fn new_task_decision<P: PoolQueries>(
    alloc: Global,
    pool: &P,
    who: &Text,
    request: &SharedTask,
    state: TaskState,
    slice: u32,
    from: Option<u32>,
) -> Result<Decision, AllocError>
    requires { length (P.state pool.now).tasks < (P.state pool.now).settings.most_tasks }
    ensures { IfOk result (λ decision. decision ≡ new_task_decision (P.state pool.now) who.now request.now state slice from) }
{
    // For the proof: the settings bound the number of a task.
    let _most = pool.settings().most_tasks;
    let task = pool.task_count() as u32 + 1;
    let who = who.try_copy(alloc)?;
    let request = request.try_copy(alloc)?;
    Ok(reply_with_entry(
        Reply::New { task, state },
        EntryKind::New {
            t: task,
            who,
            request,
            state,
            slice,
            from,
        },
    ))
}

fn accepted<P: PoolQueries>(
    alloc: Global,
    pool: &P,
    who: &Text,
    request: &SharedTask,
) -> Result<Decision, AllocError>
    requires room { length (P.state pool.now).tasks < (P.state pool.now).settings.most_tasks }
    requires few { length request.now.task_slices ≤ 8 }
    ensures { IfOk result (λ decision. decision ≡ accepted (P.state pool.now) who.now request.now) }
{
    let slices = request.task_slices.as_slice();
    match admit(pool, slices, 0) {
        Some(place) => {
            let slice = place as u32;
            new_task_decision(alloc, pool, who, request, TaskState::Pending, slice, None)
        }
        None => {
            let last = slices.len().saturating_sub(1) as u32;
            new_task_decision(alloc, pool, who, request, TaskState::NoResource, last, None)
        }
    }
}

/// The task is over at once, with the outcome of an earlier run.
fn reuse_outcome<P: PoolQueries>(
    alloc: Global,
    pool: &P,
    who: &Text,
    request: &SharedTask,
    found: Reuse,
) -> Result<Decision, AllocError>
    requires { length (P.state pool.now).tasks < (P.state pool.now).settings.most_tasks }
    ensures { IfOk result (λ decision. decision ≡ reuse_outcome (P.state pool.now) who.now request.now found) }
{
    let Reuse { slice, source } = found;
    new_task_decision(
        alloc,
        pool,
        who,
        request,
        TaskState::Completed,
        slice,
        Some(source),
    )
}

/// What a caller is told who asks for a new task.
pub(crate) fn new_task<P: PoolQueries, L: Ledger>(
    alloc: Global,
    pool: &P,
    who: &Text,
    moment: u64,
    request: &SharedTask,
    steps: &mut Steps<L>,
) -> Result<Decision, AllocError>
    requires { length request.now.task_slices ≤ 8 }
    ensures { IfOk result (λ decision. decision ≡ new_task (P.state pool.now) who.now moment request.now) }
{
    if let Some(task) = pool.sent(who, &request.request_uuid, steps) {
        return Ok(resubmitted(request, task));
    }
    let slices = request.task_slices.as_slice();
    if let Some(file) = missing_input(pool, slices) {
        return Ok(file_missing(file));
    }
    if let Some(decision) = full_refusal(pool) {
        return Ok(decision);
    }
    if let Some(found) = reuse(alloc, pool, moment, slices, steps)? {
        return reuse_outcome(alloc, pool, who, request, found);
    }
    accepted(alloc, pool, who, request)
}
