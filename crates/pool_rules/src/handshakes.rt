ghost use Rattle.std.specs.Prelude.{◌≡◌, ◌+◌, ◌<◌, length, nat_le, IfOk};
ghost use Rattle.dimensions.specs.Choosing.{when};
ghost use Rattle.swarm_model.specs.declared.reply.Reply.TheVariants as reply;
ghost use Rattle.swarm_model.specs.declared.entry.EntryKind.TheVariants as kind;
ghost use Rattle.swarm_model.specs.Answers.{reply_with_entry, known_bot, bots_full, handshake};

use dimensions::{BotDims, Text, TryCopy};
use pool_queries::{PoolQueries, refusal, reply_with_entry};
use std::alloc::{AllocError, Global};
use swarm_model::{BotRow, Decision, EntryKind, Reply, Rule};

/// A session of the bot of this number begins.
fn new_session(
    alloc: Global,
    number: u32,
    name: &Text,
    session: &Text,
    dims: &BotDims,
    quarantined: &Text,
) -> Result<Decision, AllocError>
    ensures { IfOk result (λ decision. decision ≡ reply_with_entry (reply.Shaken name.now) (kind.Handshake number name.now session.now dims.now quarantined.now)) }
{
    let bot = name.try_copy(alloc)?;
    let id = name.try_copy(alloc)?;
    let session = session.try_copy(alloc)?;
    let dims = dims.try_copy(alloc)?;
    let q = quarantined.try_copy(alloc)?;
    Ok(reply_with_entry(
        Reply::Shaken { bot },
        EntryKind::Handshake {
            b: number,
            id,
            session,
            dims,
            q,
        },
    ))
}

/// A bot that is known: a new session begins anew.
fn known_bot(
    alloc: Global,
    name: &Text,
    session: &Text,
    dims: &BotDims,
    quarantined: &Text,
    bot: &BotRow,
) -> Result<Decision, AllocError>
    ensures { IfOk result (λ decision. decision ≡ known_bot name.now session.now dims.now quarantined.now bot.now) }
{
    if bot.session == *session {
        let name = name.try_copy(alloc)?;
        Ok(reply_with_entry(
            Reply::Shaken { bot: name },
            EntryKind::Contact { b: bot.no },
        ))
    } else {
        new_session(alloc, bot.no, name, session, dims, quarantined)
    }
}

/// The refusal of a pool that has as many bots as it may have.
fn full_refusal<P: PoolQueries>(pool: &P) -> Option<Decision>
    ensures { result ≡ when (nat_le (P.state pool.now).settings.most_bots (length (P.state pool.now).bots)) (bots_full (P.state pool.now)) }
{
    let limit = pool.settings().most_bots;
    if limit as usize <= pool.bot_count() {
        Some(refusal(Rule::PoolBotsFull { limit }))
    } else {
        None
    }
}

/// The next bot.
fn new_bot<P: PoolQueries>(
    alloc: Global,
    pool: &P,
    name: &Text,
    session: &Text,
    dims: &BotDims,
    quarantined: &Text,
) -> Result<Decision, AllocError>
    requires { length (P.state pool.now).bots < (P.state pool.now).settings.most_bots }
    ensures { IfOk result (λ decision. decision ≡ reply_with_entry (reply.Shaken name.now) (kind.Handshake (length (P.state pool.now).bots + 1) name.now session.now dims.now quarantined.now)) }
{
    // For the proof: the settings bound the number of a bot.
    let _most = pool.settings().most_bots;
    let number = pool.bot_count() as u32 + 1;
    new_session(alloc, number, name, session, dims, quarantined)
}

/// What a bot is told that comes.
pub(crate) fn handshake<P: PoolQueries>(
    alloc: Global,
    pool: &P,
    name: &Text,
    session: &Text,
    dims: &BotDims,
    quarantined: &Text,
) -> Result<Decision, AllocError>
    ensures { IfOk result (λ decision. decision ≡ handshake (P.state pool.now) name.now session.now dims.now quarantined.now) }
{
    if let Some(bot) = pool.bot_named(name) {
        return known_bot(alloc, name, session, dims, quarantined, bot);
    }
    if let Some(decision) = full_refusal(pool) {
        return Ok(decision);
    }
    new_bot(alloc, pool, name, session, dims, quarantined)
}
