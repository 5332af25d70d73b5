ghost use Rattle.std.specs.Prelude.{◌≡◌, ◌≤◌, ◌+◌, IfOk};
ghost use Rattle.swarm_model.specs.declared.rule.Rule.TheVariants as rule;
ghost use Rattle.swarm_model.specs.Finding.{bot_named};
ghost use Rattle.swarm_model.specs.Answers.{or_refuse, run_again, claim_again, unfit_of, claims, claim};

use crate::runs::{busy_refusal, run};
use dimensions::{Text, TryCopy};
use pool_queries::{PoolQueries, ShownTask, refusal, reply_with_entry, unfit_refusal};
use std::alloc::{AllocError, Global};
use std::sync::ledger::Ledger;
use swarm_model::{BotRow, Decision, EntryKind, Reply, Rule, Steps, TaskRow, Unfit};

/// The bot goes on with what it claimed, or is told how that ended.
fn run_again(alloc: Global, bot: &BotRow, task: &ShownTask<'_>) -> Result<Decision, AllocError>
    ensures { IfOk result (λ decision. decision ≡ run_again bot.now task.now) }
{
    let try_no = task.try_no();
    let state = task.state();
    if state.is_final() {
        Ok(refusal(Rule::ClaimOver {
            task: task.row().no,
            try_no,
            state,
        }))
    } else {
        let reply = run(alloc, try_no, task)?;
        Ok(reply_with_entry(reply, EntryKind::Contact { b: bot.no }))
    }
}

/// The bot asks once more by the id of a claim that it made.
fn claim_again(
    alloc: Global,
    bot: &BotRow,
    id: &Text,
    task: &TaskRow,
) -> Result<Decision, AllocError>
    ensures { IfOk result (λ decision. decision ≡ claim_again bot.now id.now task.now) }
{
    run_again(alloc, bot, &ShownTask::as_claimed(bot.no, id, task))
}

/// Why the bot gets no work.
fn unfit_of(bot: &BotRow) -> Option<Unfit>
    ensures { result ≡ unfit_of bot.now }
{
    if bot.dead {
        Some(Unfit::Dead)
    } else if !bot.quarantined.as_str().is_empty() {
        Some(Unfit::Quarantined)
    } else if bot.terminating {
        Some(Unfit::Terminating)
    } else {
        None
    }
}

/// The bot gets the task.
fn claims(alloc: Global, bot: &BotRow, id: &Text, task: &TaskRow) -> Result<Decision, AllocError>
    ensures { IfOk result (λ decision. decision ≡ claims bot.now id.now task.now) }
{
    let claim = id.try_copy(alloc)?;
    let reply = run(alloc, task.next_try(), &ShownTask::whole(task))?;
    Ok(reply_with_entry(
        reply,
        EntryKind::Claim {
            b: bot.no,
            t: task.no,
            claim,
        },
    ))
}

fn claim_row<P: PoolQueries, L: Ledger>(
    alloc: Global,
    pool: &P,
    id: &Text,
    bot: &BotRow,
    steps: &mut Steps<L>,
) -> Result<Decision, AllocError>
    ensures value { IfOk result (λ decision. decision ≡ claim (P.state pool.now) id.now bot.now) }
    ensures cost { steps.new ≤ steps.old + 1 }
{
    if let Some(task) = pool.by_claim(bot.no, id, steps) {
        return claim_again(alloc, bot, id, task);
    }
    if let Some(why) = unfit_of(bot) {
        return Ok(unfit_refusal(why));
    }
    if let Some(decision) = busy_refusal(pool, bot, steps) {
        return Ok(decision);
    }
    if let Some(task) = pool.first_for(bot.no, &bot.dims, steps) {
        return claims(alloc, bot, id, task);
    }
    Ok(reply_with_entry(Reply::Skip, EntryKind::Contact { b: bot.no }))
}

/// What a bot is told that asks for a task.
pub(crate) fn claim<P: PoolQueries, L: Ledger>(
    alloc: Global,
    pool: &P,
    name: &Text,
    id: &Text,
    steps: &mut Steps<L>,
) -> Result<Decision, AllocError>
    ensures value { IfOk result (λ decision. decision ≡ or_refuse (bot_named (P.state pool.now) name.now) rule.NoBot (claim (P.state pool.now) id.now)) }
    ensures cost { steps.new ≤ steps.old + 1 }
{
    match pool.bot_named(name) {
        None => Ok(refusal(Rule::NoBot)),
        Some(bot) => claim_row(alloc, pool, id, bot, steps),
    }
}
