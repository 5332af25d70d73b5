//! What a reader is shown of a task or a bot.
ghost use Rattle.std.specs.Prelude.{◌≡◌, IfOk};
ghost use Rattle.std.specs.Option.{option_copied, option_map, option_map_or, option_and_then};
ghost use Rattle.swarm_model.specs.Finding.{task_of};
ghost use Rattle.swarm_model.specs.Views.{last_of, attempt_shown, run_of, exit_code_of, files_of, bot_name_of, view_of, bot_view_of};

use crate::{ReadQueries, ShownTask};
use dimensions::{Seq, Text, TryCopy};
use std::alloc::{AllocError, Global};
use std::sync::ledger::Ledger;
use swarm_model::{Attempt, BotRow, BotView, Steps, TaskView};
use task_props::File;

/// A run is named by its task and its try.
fn run_of(task: &ShownTask<'_>) -> Option<(u32, u32)>
    ensures { result ≡ run_of task.now }
{
    match task.attempt() {
        None => None,
        Some(attempt) => Some((task.row().no, attempt.try_no)),
    }
}

fn begun_of(task: &ShownTask<'_>) -> Option<u64>
    ensures { result ≡ option_map (λ attempt. attempt.begun) task.now.attempt }
{
    match task.attempt() {
        None => None,
        Some(attempt) => Some(attempt.begun),
    }
}

/// A task that took another's outcome ended as that did, with 0.
fn exit_code_of(task: &ShownTask<'_>) -> Option<i32>
    ensures { result ≡ exit_code_of task.now }
{
    match task.row().source {
        Some(_) => Some(0),
        None => match task.last_report() {
            None => None,
            Some(last) => Some(last.exit_code),
        },
    }
}

fn dropped_of(task: &ShownTask<'_>) -> Option<u64>
    ensures { result ≡ option_map (λ last. last.dropped) (last_of task.now) }
{
    match task.last_report() {
        None => None,
        Some(last) => Some(last.dropped),
    }
}

fn duration_of(task: &ShownTask<'_>) -> Option<u64>
    ensures { result ≡ option_map (λ last. last.duration_ms) (last_of task.now) }
{
    match task.last_report() {
        None => None,
        Some(last) => Some(last.duration_ms),
    }
}

fn files_of(alloc: Global, task: &ShownTask<'_>) -> Result<Seq<File>, AllocError>
    ensures { IfOk result (λ files. files ≡ files_of (last_of task.now)) }
{
    match task.last_report() {
        None => Ok(Seq::new(alloc)),
        Some(last) => last.files.try_copy(alloc),
    }
}

fn bot_name_of<P: ReadQueries>(
    alloc: Global,
    pool: &P,
    task: &ShownTask<'_>,
) -> Result<Option<Text>, AllocError>
    ensures { IfOk result (λ name. name ≡ option_and_then (bot_name_of (P.state pool.now)) task.now.attempt) }
{
    match task.attempt() {
        None => Ok(None),
        Some(attempt) => match pool.bot_of(attempt.bot) {
            None => Ok(None),
            Some(bot) => Ok(Some(bot.name.try_copy(alloc)?)),
        },
    }
}

/// The run of the task that has the number, where there is one.
fn run_numbered<P: ReadQueries, L: Ledger>(
    pool: &P,
    number: Option<u32>,
    steps: &mut Steps<L>,
) -> Option<(u32, u32)>
    ensures { result ≡ option_and_then run_of (option_and_then (task_of (P.state pool.now)) number) }
{
    match number {
        None => None,
        Some(number) => match pool.task_of(number, steps) {
            None => None,
            Some(task) => run_of(&ShownTask::whole(task)),
        },
    }
}

/// The run of the task that has the number.
fn attempt_numbered<'a, P: ReadQueries, L: Ledger>(
    pool: &'a P,
    number: u32,
    steps: &mut Steps<L>,
) -> Option<&'a Attempt>
    ensures { option_copied result ≡ option_and_then (λ row. row.attempt) (task_of (P.state pool.now) number) }
{
    match pool.task_of(number, steps) {
        None => None,
        Some(task) => task.attempt.as_ref(),
    }
}

/// The run that made the output that this task shows: its own, or that of its source.
pub(crate) fn attempt_shown<'a, P: ReadQueries, L: Ledger>(
    pool: &'a P,
    task: &ShownTask<'a>,
    steps: &mut Steps<L>,
) -> Option<&'a Attempt>
    ensures { option_copied result ≡ attempt_shown (P.state pool.now) task.now }
{
    match task.row().source {
        None => task.attempt(),
        Some(number) => attempt_numbered(pool, number, steps),
    }
}

fn length_of<'a, P: ReadQueries, L: Ledger>(
    pool: &'a P,
    task: &ShownTask<'a>,
    steps: &mut Steps<L>,
) -> u32
    ensures { result ≡ option_map_or (λ attempt. attempt.length) (attempt_shown (P.state pool.now) task.now) 0 }
{
    match attempt_shown(pool, task, steps) {
        None => 0,
        Some(attempt) => attempt.length,
    }
}

/// What a reader is shown of a task.
pub(crate) fn view_of<'a, P: ReadQueries, L: Ledger>(
    alloc: Global,
    pool: &'a P,
    task: &ShownTask<'a>,
    steps: &mut Steps<L>,
) -> Result<TaskView, AllocError>
    ensures { IfOk result (λ view. view ≡ view_of (P.state pool.now) task.now) }
{
    let row = task.row();
    Ok(TaskView {
        bot_id: bot_name_of(alloc, pool, task)?,
        completed_ts: task.ended(),
        created_ts: row.created,
        current_task_slice: task.slice(),
        deduped_from: run_numbered(pool, row.source, steps),
        dropped: dropped_of(task),
        duration_ms: duration_of(task),
        exit_code: exit_code_of(task),
        files: files_of(alloc, task)?,
        name: row.request.name.try_copy(alloc)?,
        output_length: length_of(pool, task, steps),
        priority: row.request.priority,
        run_id: run_of(task),
        started_ts: begun_of(task),
        state: task.state(),
        task_id: row.no,
        user: row.creator.try_copy(alloc)?,
    })
}

/// What a reader is shown of a bot.
pub(crate) fn bot_view_of<P: ReadQueries, L: Ledger>(
    alloc: Global,
    pool: &P,
    bot: &BotRow,
    steps: &mut Steps<L>,
) -> Result<BotView, AllocError>
    ensures { IfOk result (λ view. view ≡ bot_view_of (P.state pool.now) bot.now) }
{
    Ok(BotView {
        bot_id: bot.name.try_copy(alloc)?,
        dimensions: bot.dims.try_copy(alloc)?,
        is_dead: bot.dead,
        last_seen_ts: bot.contact,
        quarantined: bot.quarantined.try_copy(alloc)?,
        task_id: run_numbered(pool, bot.task, steps),
        terminating: bot.terminating,
    })
}
