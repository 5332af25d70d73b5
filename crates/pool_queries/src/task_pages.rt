//! Pages of tasks, the newest first.
ghost use Rattle.std.specs.Prelude.{◌≡◌, ◌≤◌, IfOk, slice_get};
ghost use Rattle.std.specs.Option.{option_and_then};
ghost use Rattle.swarm_model.specs.declared.reply.Reply.TheVariants as reply;
ghost use Rattle.swarm_model.specs.Pages.{listed_tasks};
ghost use Rattle.swarm_model.specs.Answers.{reply_only, list_tasks};

use crate::replies::reply_only;
use crate::views::view_of;
use crate::{ReadQueries, ShownTask};
use dimensions::Seq;
use std::alloc::{AllocError, Global};
use std::sync::ledger::Ledger;
use swarm_model::{Decision, Reply, Steps, TaskState, TaskView};

fn page(items: Vec<TaskView>, cursor: Option<u32>) -> Decision
    ensures { result ≡ reply_only (reply.Tasks items.items cursor) }
{
    reply_only(Reply::Tasks {
        items: Seq::from_vec(items),
        cursor,
    })
}

/// The number of the last task of a page, where more are left below it.
fn cursor_at<P: ReadQueries, L: Ledger>(
    pool: &P,
    wanted: Option<TaskState>,
    last: Option<u32>,
    steps: &mut Steps<L>,
) -> Option<u32>
    ensures { result ≡ option_and_then (λ task. last) (slice_get (listed_tasks (P.state pool.now) wanted last) 0) }
{
    match pool.newest_below(wanted, last, steps) {
        None => None,
        Some(_) => last,
    }
}

/// What a caller is told who asks for a page of tasks. The rows are asked once for each task that
/// is shown, from the one before it, and once more.
pub fn list_tasks<P: ReadQueries, L: Ledger>(
    alloc: Global,
    pool: &P,
    wanted: Option<TaskState>,
    limit: u32,
    below: Option<u32>,
    steps: &mut Steps<L>,
) -> Result<Decision, AllocError>
    requires some { 1 ≤ limit }
    ensures { IfOk result (λ decision. decision ≡ list_tasks (P.state pool.now) limit (listed_tasks (P.state pool.now) wanted below)) }
{
    pool.sound();
    let mut items = Vec::with_capacity(alloc, pool.task_count().min(limit as usize))?;
    let mut last = below;
    for _place in 0..limit {
        match pool.newest_below(wanted, last, steps) {
            None => return Ok(page(items, None)),
            Some(task) => {
                items.push(view_of(alloc, pool, &ShownTask::whole(task), steps)?)?;
                last = Some(task.no);
            }
        }
    }
    Ok(page(items, cursor_at(pool, wanted, last, steps)))
}
