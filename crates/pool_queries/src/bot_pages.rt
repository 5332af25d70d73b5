//! Pages of bots, by their names.
ghost use Rattle.std.specs.Prelude.{◌≡◌, ◌≤◌, IfOk, slice_get};
ghost use Rattle.std.specs.Option.{option_and_then};
ghost use Rattle.swarm_model.specs.declared.reply.Reply.TheVariants as reply;
ghost use Rattle.swarm_model.specs.Pages.{listed_bots};
ghost use Rattle.swarm_model.specs.Answers.{reply_only, list_bots};

use crate::ReadQueries;
use crate::replies::reply_only;
use crate::views::bot_view_of;
use dimensions::{Seq, Text, TryCopy};
use std::alloc::{AllocError, Global};
use std::sync::ledger::Ledger;
use swarm_model::{BotView, Decision, Reply, Steps};

fn page(items: Vec<BotView>, cursor: Option<Text>) -> Decision
    ensures { result ≡ reply_only (reply.Bots items.items cursor) }
{
    reply_only(Reply::Bots {
        items: Seq::from_vec(items),
        cursor,
    })
}

/// The name of the last bot of a page, where more come after it.
fn cursor_at<P: ReadQueries>(
    alloc: Global,
    pool: &P,
    last: &Text,
) -> Result<Option<Text>, AllocError>
    ensures { IfOk result (λ cursor. cursor ≡ option_and_then (λ bot. Some last.now) (slice_get (listed_bots (P.state pool.now) last.now) 0)) }
{
    match pool.next_bot(last) {
        None => Ok(None),
        Some(_) => Ok(Some(last.try_copy(alloc)?)),
    }
}

/// What a caller is told who asks for a page of bots. The rows are asked once for each bot that is
/// shown, from the one before it, and once more.
pub fn list_bots<P: ReadQueries, L: Ledger>(
    alloc: Global,
    pool: &P,
    limit: u32,
    after: &Text,
    steps: &mut Steps<L>,
) -> Result<Decision, AllocError>
    requires some { 1 ≤ limit }
    ensures { IfOk result (λ decision. decision ≡ list_bots (P.state pool.now) limit (listed_bots (P.state pool.now) after.now)) }
{
    pool.sound();
    let mut items = Vec::with_capacity(alloc, pool.bot_count().min(limit as usize))?;
    let mut last = after;
    for _place in 0..limit {
        match pool.next_bot(last) {
            None => return Ok(page(items, None)),
            Some(bot) => {
                items.push(bot_view_of(alloc, pool, bot, steps)?)?;
                last = &bot.name;
            }
        }
    }
    let cursor = cursor_at(alloc, pool, last)?;
    Ok(page(items, cursor))
}
