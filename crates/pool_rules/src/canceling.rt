ghost use Rattle.std.specs.Prelude.{◌≡◌, IfOk};
ghost use Rattle.swarm_model.specs.declared.rule.Rule.TheVariants as rule;
ghost use Rattle.swarm_model.specs.Answers.{cancels, is_killed, stop, cancel_row, or_refuse, whole_task, cancel};

use dimensions::Text;
use pool_queries::{PoolQueries, ShownTask, denied, may, refusal, whole_task};
use std::alloc::{AllocError, Global};
use std::sync::ledger::Ledger;
use swarm_model::{
    Attempt, Decision, EntryKind, Permission, Reply, Rule, Steps, TaskRow, TaskState,
};

fn cancels(canceled: bool, was_running: bool, entry: Option<EntryKind>) -> Decision
    ensures { result ≡ cancels canceled was_running entry }
{
    Decision {
        reply: Reply::Canceled {
            canceled,
            was_running,
        },
        entry,
    }
}

fn is_killed(attempt: &Option<Attempt>) -> bool
    ensures { result ≡ is_killed attempt.now }
{
    match attempt {
        None => false,
        Some(attempt) => attempt.kill,
    }
}

/// A run goes on, unless it is to stop, too; it is asked to stop once.
fn stop(kill: bool, task: &TaskRow) -> Decision
    ensures { result ≡ stop kill task.now }
{
    if !kill {
        cancels(false, true, None)
    } else if is_killed(&task.attempt) {
        cancels(true, true, None)
    } else {
        cancels(true, true, Some(EntryKind::Kill { t: task.no }))
    }
}

/// A task that waits ends; one that has ended stays as it is.
fn cancel_row(kill: bool, task: &TaskRow) -> Decision
    ensures { result ≡ cancel_row kill task.now }
{
    if task.has_state(TaskState::Pending) {
        cancels(true, false, Some(EntryKind::Cancel { t: task.no }))
    } else if task.has_state(TaskState::Running) {
        stop(kill, task)
    } else {
        cancels(false, false, None)
    }
}

fn cancel_by<P: PoolQueries>(
    alloc: Global,
    pool: &P,
    who: &Text,
    kill: bool,
    task: &TaskRow,
) -> Result<Decision, AllocError>
    ensures { IfOk result (λ decision. decision ≡ cancel (P.state pool.now) who.now kill task.now) }
{
    if !may(pool, who, Permission::CancelTask, &ShownTask::whole(task)) {
        return denied(alloc, pool, Permission::CancelTask);
    }
    Ok(cancel_row(kill, task))
}

/// What a caller is told who wants a task no more, whichever of its tries is named.
pub(crate) fn cancel<P: PoolQueries, L: Ledger>(
    alloc: Global,
    pool: &P,
    who: &Text,
    number: u32,
    try_no: u32,
    kill: bool,
    steps: &mut Steps<L>,
) -> Result<Decision, AllocError>
    ensures { IfOk result (λ decision. decision ≡ or_refuse (whole_task (P.state pool.now) number try_no) rule.NoTask (cancel (P.state pool.now) who.now kill)) }
{
    match whole_task(pool, number, try_no, steps) {
        None => Ok(refusal(Rule::NoTask)),
        Some(task) => cancel_by(alloc, pool, who, kill, task),
    }
}
