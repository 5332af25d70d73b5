//! What a bot runs, and what it is to run.
ghost use Rattle.std.specs.Prelude.{◌≡◌, ◌≤◌, ◌+◌, IfOk, IsNone};
ghost use Rattle.std.specs.Option.{option_copied, option_map};
ghost use Rattle.swarm_model.specs.Answers.{run_on, busy, run_from, run};

use dimensions::TryCopy;
use pool_queries::{PoolQueries, ShownTask, refusal};
use std::alloc::{AllocError, Global};
use std::sync::ledger::Ledger;
use swarm_model::{BotRow, Decision, Reply, Rule, Steps, TaskRow};
use task_props::Slice;

/// The task that the bot runs.
fn run_on<'a, P: PoolQueries, L: Ledger>(
    pool: &'a P,
    bot: &BotRow,
    steps: &mut Steps<L>,
) -> Option<&'a TaskRow>
    ensures value { option_copied result ≡ run_on (P.state pool.now) bot.now }
    ensures cost { steps.new ≤ steps.old + 1 }
    ensures free { IsNone result → steps.new ≡ steps.old }
{
    match bot.task {
        None => None,
        Some(number) => pool.task_of(number, steps),
    }
}

fn busy(task: &TaskRow) -> Decision
    ensures { result ≡ busy task.now }
{
    refusal(Rule::BotBusy {
        task: task.no,
        try_no: task.try_no(),
    })
}

/// The refusal of a bot that has a run.
pub(crate) fn busy_refusal<P: PoolQueries, L: Ledger>(
    pool: &P,
    bot: &BotRow,
    steps: &mut Steps<L>,
) -> Option<Decision>
    ensures value { result ≡ option_map busy (run_on (P.state pool.now) bot.now) }
    ensures cost { steps.new ≤ steps.old + 1 }
    ensures free { IsNone result → steps.new ≡ steps.old }
{
    match run_on(pool, bot, steps) {
        None => None,
        Some(task) => Some(busy(task)),
    }
}

fn run_from(
    alloc: Global,
    try_no: u32,
    task: &ShownTask<'_>,
    slice: &Slice,
) -> Result<Reply, AllocError>
    ensures { IfOk result (λ reply. reply ≡ run_from try_no task.now slice.now) }
{
    let row = task.row();
    Ok(Reply::Run {
        task: row.no,
        try_no,
        slice: task.slice(),
        tolerance: row.request.bot_ping_tolerance_secs,
        properties: slice.properties.try_copy(alloc)?,
    })
}

/// The run of the current slice, with the number of its try.
pub(crate) fn run(alloc: Global, try_no: u32, task: &ShownTask<'_>) -> Result<Reply, AllocError>
    ensures { IfOk result (λ reply. reply ≡ run try_no task.now) }
{
    match task.current_slice() {
        None => Ok(Reply::Skip),
        Some(slice) => run_from(alloc, try_no, task, slice),
    }
}
