ghost use Rattle.std.specs.Prelude.{◌≡◌, ◌≤◌, ◌+◌, IfOk};
ghost use Rattle.swarm_model.specs.declared.rule.Rule.TheVariants as rule;
ghost use Rattle.swarm_model.specs.Finding.{bot_named};
ghost use Rattle.swarm_model.specs.Answers.{or_refuse, sleep_secs, dims_unless, text_unless, polls, poll};

use crate::runs::busy_refusal;
use dimensions::{BotDims, Text, TryCopy};
use pool_queries::{PoolQueries, refusal, reply_with_entry, unfit_refusal};
use std::alloc::{AllocError, Global};
use std::sync::ledger::Ledger;
use swarm_model::{BotRow, Decision, EntryKind, Reply, Rule, Steps, Unfit};

/// The seconds of the bot's next nap: it sleeps longer each time that it finds no work.
fn sleep_secs(bot: &BotRow) -> u64
    ensures { result ≡ sleep_secs bot.now }
{
    2_u64.pow(bot.streak.min(6)).min(60)
}

fn dims_unless(alloc: Global, old: &BotDims, new: &BotDims) -> Result<Option<BotDims>, AllocError>
    ensures { IfOk result (λ dims. dims ≡ dims_unless old.now new.now) }
{
    if *old == *new {
        Ok(None)
    } else {
        Ok(Some(new.try_copy(alloc)?))
    }
}

fn text_unless(alloc: Global, old: &Text, new: &Text) -> Result<Option<Text>, AllocError>
    ensures { IfOk result (λ text. text ≡ text_unless old.now new.now) }
{
    if *old == *new {
        Ok(None)
    } else {
        Ok(Some(new.try_copy(alloc)?))
    }
}

/// The reply to a bot, and the entry of what it says of itself now.
fn polls(
    alloc: Global,
    bot: &BotRow,
    dims: &BotDims,
    quarantined: &Text,
    hint: bool,
    reply: Reply,
) -> Result<Decision, AllocError>
    ensures { IfOk result (λ decision. decision ≡ polls bot.now dims.now quarantined.now hint reply) }
{
    let dims = dims_unless(alloc, &bot.dims, dims)?;
    let q = text_unless(alloc, &bot.quarantined, quarantined)?;
    Ok(reply_with_entry(
        reply,
        EntryKind::Poll {
            b: bot.no,
            dims,
            q,
            hint,
        },
    ))
}

fn poll_row<P: PoolQueries, L: Ledger>(
    alloc: Global,
    pool: &P,
    dims: &BotDims,
    quarantined: &Text,
    bot: &BotRow,
    steps: &mut Steps<L>,
) -> Result<Decision, AllocError>
    ensures value { IfOk result (λ decision. decision ≡ poll (P.state pool.now) dims.now quarantined.now bot.now) }
    ensures cost { steps.new ≤ steps.old + 1 }
{
    if bot.dead {
        return Ok(unfit_refusal(Unfit::Dead));
    }
    if let Some(decision) = busy_refusal(pool, bot, steps) {
        return Ok(decision);
    }
    if bot.terminating {
        return polls(alloc, bot, dims, quarantined, false, Reply::Terminate);
    }
    let sleep = Reply::Sleep {
        secs: sleep_secs(bot),
    };
    if !quarantined.as_str().is_empty() {
        return polls(alloc, bot, dims, quarantined, false, sleep);
    }
    if pool.first_for(bot.no, dims, steps).is_some() {
        return polls(alloc, bot, dims, quarantined, true, Reply::ClaimHint);
    }
    polls(alloc, bot, dims, quarantined, false, sleep)
}

/// What a bot is told that asks what to do.
pub(crate) fn poll<P: PoolQueries, L: Ledger>(
    alloc: Global,
    pool: &P,
    name: &Text,
    dims: &BotDims,
    quarantined: &Text,
    steps: &mut Steps<L>,
) -> Result<Decision, AllocError>
    ensures value { IfOk result (λ decision. decision ≡ or_refuse (bot_named (P.state pool.now) name.now) rule.NoBot (poll (P.state pool.now) dims.now quarantined.now)) }
    ensures cost { steps.new ≤ steps.old + 1 }
{
    match pool.bot_named(name) {
        None => Ok(refusal(Rule::NoBot)),
        Some(bot) => poll_row(alloc, pool, dims, quarantined, bot, steps),
    }
}
