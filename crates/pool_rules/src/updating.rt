ghost use Rattle.std.specs.Prelude.{◌≡◌, IfOk};
ghost use Rattle.swarm_model.specs.declared.rule.Rule.TheVariants as rule;
ghost use Rattle.swarm_model.specs.Finding.{bot_named};
ghost use Rattle.swarm_model.specs.Views.{files_of};
ghost use Rattle.swarm_model.specs.Answers.{is_kept, updates, report_again, report_running, report, not_claimant, report_on, update_row, update, or_refuse};

use crate::chunks::{fresh_chunk, output_rule, unplaced_chunk};
use crate::missing::{file_missing, missing_file};
use crate::putting::store_full;
use dimensions::{Text, TryCopy};
use pool_queries::{PoolQueries, ShownTask, named_task, refusal, reply_with_entry};
use std::alloc::{AllocError, Global};
use std::sync::ledger::Ledger;
use swarm_model::{Attempt, BotRow, Chunk, Decision, EntryKind, Last, Reply, Rule, Steps};
use task_props::File;

/// Whether the report is the one that ended the run.
fn is_kept(attempt: &Attempt, chunk: Option<Chunk>, last: &Option<Last>) -> bool
    ensures { result ≡ is_kept attempt.now chunk last.now }
{
    attempt.last.is_some() && attempt.last == *last && attempt.last_chunk == chunk
}

/// The bot's report is taken, and it is told whether its run is to stop.
fn updates(attempt: &Attempt, entry: EntryKind) -> Decision
    ensures { result ≡ updates attempt.now entry }
{
    reply_with_entry(
        Reply::Updated {
            must_stop: attempt.kill,
        },
        entry,
    )
}

/// A run that has ended takes only the report that ended it, once more.
fn report_again(
    bot: &BotRow,
    task: &ShownTask<'_>,
    chunk: Option<Chunk>,
    last: &Option<Last>,
    attempt: &Attempt,
) -> Decision
    ensures { result ≡ report_again bot.now task.now chunk last.now attempt.now }
{
    if is_kept(attempt, chunk, last) {
        updates(attempt, EntryKind::Contact { b: bot.no })
    } else {
        refusal(Rule::AttemptOver {
            state: task.state(),
        })
    }
}

fn files_of(last: &Option<Last>) -> &[File]
    ensures { result.now ≡ files_of last.now }
{
    match last {
        None => &[],
        Some(last) => last.files.as_slice(),
    }
}

/// A report of a run that goes on. What brings nothing new is a sign of life.
fn report_running<P: PoolQueries>(
    alloc: Global,
    pool: &P,
    bot: &BotRow,
    task: &ShownTask<'_>,
    chunk: Option<Chunk>,
    last: &Option<Last>,
    attempt: &Attempt,
) -> Result<Decision, AllocError>
    ensures { IfOk result (λ decision. decision ≡ report_running (P.state pool.now) bot.now task.now chunk last.now attempt.now) }
{
    let fresh = fresh_chunk(attempt, chunk);
    if let Some(why) = output_rule(attempt, chunk) {
        return Ok(refusal(why));
    }
    if let Some(file) = missing_file(pool, files_of(last)) {
        return Ok(file_missing(file));
    }
    if let Some(chunk) = unplaced_chunk(pool, fresh) {
        return Ok(store_full(pool, chunk.size));
    }
    if last.is_none() && fresh.is_none() {
        return Ok(updates(attempt, EntryKind::Contact { b: bot.no }));
    }
    let last = last.try_copy(alloc)?;
    let entry = EntryKind::Update {
        b: bot.no,
        t: task.row().no,
        try_no: attempt.try_no,
        chunk,
        last,
    };
    Ok(updates(attempt, entry))
}

fn report<P: PoolQueries>(
    alloc: Global,
    pool: &P,
    bot: &BotRow,
    task: &ShownTask<'_>,
    chunk: Option<Chunk>,
    last: &Option<Last>,
    attempt: &Attempt,
) -> Result<Decision, AllocError>
    ensures { IfOk result (λ decision. decision ≡ report (P.state pool.now) bot.now task.now chunk last.now attempt.now) }
{
    if task.state().is_final() {
        return Ok(report_again(bot, task, chunk, last, attempt));
    }
    report_running(alloc, pool, bot, task, chunk, last, attempt)
}

/// The run is another bot's.
fn not_claimant<P: PoolQueries>(
    alloc: Global,
    pool: &P,
    attempt: &Attempt,
) -> Result<Decision, AllocError>
    ensures { IfOk result (λ decision. decision ≡ not_claimant (P.state pool.now) attempt.now) }
{
    let bot = match pool.bot_of(attempt.bot) {
        None => Text::new(alloc),
        Some(bot) => bot.name.try_copy(alloc)?,
    };
    Ok(refusal(Rule::NotClaimant { bot }))
}

fn report_on<P: PoolQueries>(
    alloc: Global,
    pool: &P,
    bot: &BotRow,
    task: &ShownTask<'_>,
    chunk: Option<Chunk>,
    last: &Option<Last>,
    attempt: &Attempt,
) -> Result<Decision, AllocError>
    ensures { IfOk result (λ decision. decision ≡ report_on (P.state pool.now) bot.now task.now chunk last.now attempt.now) }
{
    if attempt.bot != bot.no {
        return not_claimant(alloc, pool, attempt);
    }
    report(alloc, pool, bot, task, chunk, last, attempt)
}

fn update_row<P: PoolQueries>(
    alloc: Global,
    pool: &P,
    bot: &BotRow,
    chunk: Option<Chunk>,
    last: &Option<Last>,
    task: &ShownTask<'_>,
) -> Result<Decision, AllocError>
    ensures { IfOk result (λ decision. decision ≡ update_row (P.state pool.now) bot.now chunk last.now task.now) }
{
    match task.attempt() {
        None => Ok(refusal(Rule::NoTask)),
        Some(attempt) => report_on(alloc, pool, bot, task, chunk, last, attempt),
    }
}

fn update_by<P: PoolQueries, L: Ledger>(
    alloc: Global,
    pool: &P,
    number: u32,
    try_no: u32,
    chunk: Option<Chunk>,
    last: &Option<Last>,
    bot: &BotRow,
    steps: &mut Steps<L>,
) -> Result<Decision, AllocError>
    ensures { IfOk result (λ decision. decision ≡ update (P.state pool.now) number try_no chunk last.now bot.now) }
{
    match named_task(pool, number, try_no, steps) {
        None => Ok(refusal(Rule::NoTask)),
        Some(task) => update_row(alloc, pool, bot, chunk, last, &task),
    }
}

/// What a bot is told that reports on a run.
pub(crate) fn update<P: PoolQueries, L: Ledger>(
    alloc: Global,
    pool: &P,
    name: &Text,
    number: u32,
    try_no: u32,
    chunk: Option<Chunk>,
    last: &Option<Last>,
    steps: &mut Steps<L>,
) -> Result<Decision, AllocError>
    ensures { IfOk result (λ decision. decision ≡ or_refuse (bot_named (P.state pool.now) name.now) rule.NoBot (update (P.state pool.now) number try_no chunk last.now)) }
{
    match pool.bot_named(name) {
        None => Ok(refusal(Rule::NoBot)),
        Some(bot) => update_by(alloc, pool, number, try_no, chunk, last, bot, steps),
    }
}
