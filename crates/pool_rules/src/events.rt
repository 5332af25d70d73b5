ghost use Rattle.std.specs.Prelude.{◌≡◌, IfOk};
ghost use Rattle.swarm_model.specs.declared.rule.Rule.TheVariants as rule;
ghost use Rattle.swarm_model.specs.Finding.{bot_named};
ghost use Rattle.swarm_model.specs.Answers.{or_refuse, event};

use dimensions::{Text, TryCopy};
use pool_queries::{PoolQueries, refusal, reply_with_entry, unfit_refusal};
use std::alloc::{AllocError, Global};
use swarm_model::{BotRow, Decision, EntryKind, EventKind, Reply, Rule, Unfit};

fn event_row(
    alloc: Global,
    which: EventKind,
    message: &Text,
    bot: &BotRow,
) -> Result<Decision, AllocError>
    ensures { IfOk result (λ decision. decision ≡ event which message.now bot.now) }
{
    if bot.dead && bot.task.is_none() {
        return Ok(unfit_refusal(Unfit::Dead));
    }
    let text = message.try_copy(alloc)?;
    Ok(reply_with_entry(
        Reply::Noted,
        EntryKind::Event {
            b: bot.no,
            e: which,
            text,
        },
    ))
}

/// What a bot is told that tells of itself.
pub(crate) fn event<P: PoolQueries>(
    alloc: Global,
    pool: &P,
    name: &Text,
    which: EventKind,
    message: &Text,
) -> Result<Decision, AllocError>
    ensures { IfOk result (λ decision. decision ≡ or_refuse (bot_named (P.state pool.now) name.now) rule.NoBot (event which message.now)) }
{
    match pool.bot_named(name) {
        None => Ok(refusal(Rule::NoBot)),
        Some(bot) => event_row(alloc, which, message, bot),
    }
}
