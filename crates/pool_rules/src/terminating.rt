ghost use Rattle.std.specs.Prelude.{◌≡◌};
ghost use Rattle.swarm_model.specs.declared.rule.Rule.TheVariants as rule;
ghost use Rattle.swarm_model.specs.Finding.{bot_named};
ghost use Rattle.swarm_model.specs.Answers.{or_refuse, terminate};

use dimensions::Text;
use pool_queries::{PoolQueries, refusal, reply_only, reply_with_entry};
use swarm_model::{BotRow, Decision, EntryKind, Reply, Rule};

fn terminate_row(bot: &BotRow) -> Decision
    ensures { result ≡ terminate bot.now }
{
    if bot.terminating {
        reply_only(Reply::Terminating)
    } else {
        reply_with_entry(Reply::Terminating, EntryKind::Terminate { b: bot.no })
    }
}

/// What a caller is told who ends a bot.
pub(crate) fn terminate<P: PoolQueries>(pool: &P, name: &Text) -> Decision
    ensures { result ≡ or_refuse (bot_named (P.state pool.now) name.now) rule.NoBot terminate }
{
    match pool.bot_named(name) {
        None => refusal(Rule::NoBot),
        Some(bot) => terminate_row(bot),
    }
}
