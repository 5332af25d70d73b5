ghost use Rattle.std.specs.Prelude.{◌≡◌, IfOk};
ghost use Rattle.std.specs.Option.{option_copied, option_and_then};
ghost use Rattle.swarm_model.specs.declared.rule.Rule.TheVariants as rule;
ghost use Rattle.swarm_model.specs.Finding.{bot_named};
ghost use Rattle.swarm_model.specs.Answers.{if_lost, if_named, named_task, whole_of, whole_task, or_refuse, result_of, count_tasks, show_bot};

use crate::permitting::{denied, may};
use crate::replies::{refusal, reply_only};
use crate::views::{bot_view_of, view_of};
use crate::{ReadQueries, ShownTask};
use dimensions::Text;
use std::alloc::{AllocError, Global};
use std::sync::ledger::Ledger;
use swarm_model::{Decision, Permission, Reply, Rule, Steps, TaskRow, TaskState};

/// The run that was tried again, where it is that try.
fn if_lost(try_no: u32, task: &TaskRow) -> Option<ShownTask<'_>>
    ensures { result ≡ option_and_then (if_lost try_no task.now) task.now.retried }
{
    let lost = task.retried.as_ref()?;
    if lost.attempt.try_no == try_no {
        Some(ShownTask::lost(task, lost))
    } else {
        None
    }
}

/// 0 names the task with its run, and any other number the run of that try.
fn if_named(try_no: u32, task: &TaskRow) -> Option<ShownTask<'_>>
    ensures { result ≡ if_named try_no task.now }
{
    if try_no == 0 || task.has_try(try_no) {
        Some(ShownTask::whole(task))
    } else {
        if_lost(try_no, task)
    }
}

/// The task as the number of a try shows it, where it has that try.
pub fn named_task<'a, P: ReadQueries, L: Ledger>(
    pool: &'a P,
    number: u32,
    try_no: u32,
    steps: &mut Steps<L>,
) -> Option<ShownTask<'a>>
    ensures { result ≡ named_task (P.state pool.now) number try_no }
{
    match pool.task_of(number, steps) {
        None => None,
        Some(task) => if_named(try_no, task),
    }
}

fn whole_of(try_no: u32, task: &TaskRow) -> Option<&TaskRow>
    ensures { option_copied result ≡ whole_of try_no task.now }
{
    match if_named(try_no, task) {
        None => None,
        Some(_) => Some(task),
    }
}

/// The task itself, where it has that try.
pub fn whole_task<'a, P: ReadQueries, L: Ledger>(
    pool: &'a P,
    number: u32,
    try_no: u32,
    steps: &mut Steps<L>,
) -> Option<&'a TaskRow>
    ensures { option_copied result ≡ whole_task (P.state pool.now) number try_no }
{
    match pool.task_of(number, steps) {
        None => None,
        Some(task) => whole_of(try_no, task),
    }
}

fn result_by<'a, P: ReadQueries, L: Ledger>(
    alloc: Global,
    pool: &'a P,
    who: &Text,
    task: &ShownTask<'a>,
    steps: &mut Steps<L>,
) -> Result<Decision, AllocError>
    ensures { IfOk result (λ decision. decision ≡ result_of (P.state pool.now) who.now task.now) }
{
    if !may(pool, who, Permission::ListTasks, task) {
        return denied(alloc, pool, Permission::ListTasks);
    }
    Ok(reply_only(Reply::Result(view_of(alloc, pool, task, steps)?)))
}

/// What a caller is told who asks what a task has come to.
pub fn task_result<P: ReadQueries, L: Ledger>(
    alloc: Global,
    pool: &P,
    who: &Text,
    number: u32,
    try_no: u32,
    steps: &mut Steps<L>,
) -> Result<Decision, AllocError>
    ensures { IfOk result (λ decision. decision ≡ or_refuse (named_task (P.state pool.now) number try_no) rule.NoTask (result_of (P.state pool.now) who.now)) }
{
    match named_task(pool, number, try_no, steps) {
        None => Ok(refusal(Rule::NoTask)),
        Some(task) => result_by(alloc, pool, who, &task, steps),
    }
}

/// What a caller is told who asks how many tasks are in a state.
pub fn task_count<P: ReadQueries>(pool: &P, state: Option<TaskState>) -> Decision
    ensures { result ≡ count_tasks (P.state pool.now) state }
{
    reply_only(Reply::Count {
        count: pool.count(state),
    })
}

/// What a caller is told who asks what is known of a bot.
pub fn show_bot<P: ReadQueries, L: Ledger>(
    alloc: Global,
    pool: &P,
    name: &Text,
    steps: &mut Steps<L>,
) -> Result<Decision, AllocError>
    ensures { IfOk result (λ decision. decision ≡ or_refuse (bot_named (P.state pool.now) name.now) rule.NoBot (show_bot (P.state pool.now))) }
{
    match pool.bot_named(name) {
        None => Ok(refusal(Rule::NoBot)),
        Some(bot) => Ok(reply_only(Reply::Bot(bot_view_of(alloc, pool, bot, steps)?))),
    }
}
