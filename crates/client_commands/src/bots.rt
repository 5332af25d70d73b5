//! Listing bots.
ghost use Rattle.std.specs.Prelude.{◌≡◌, ◌≤◌, ℕ, IfOk, Option, string_bytes};
ghost use Rattle.serde_json.specs.View.{view};
ghost use Rattle.client_commands.specs.Commands.{ListsBots, bot_line, bot_word as spec_bot_word, run_word as spec_run_word, bot_lines as spec_bot_lines};
ghost use Rattle.client_commands.specs.Requests.{Posts, bots_call, bots_data};
ghost use Rattle.client_commands.specs.Steps.{world, Aside};

use crate::columns::push_left;
use crate::ids::run_id;
use crate::once::{ShowReply, print_answer};
use crate::post::{Post, post_of};
use crate::rows::{ShowRow, row_lines};
use crate::server::Server;
use json_values::{with_text, with_whole};
use routes::{Route, targets};
use serde_json::{Map, Value};
use std::alloc::{AllocError, Global};
use sw_base::{Dialer, Link};
use swarm_model::{BotView, Reply};

struct BotLines;

fn bot_word(bot: &BotView) -> &'static str
    ensures { result.now ≡ spec_bot_word bot.now }
{
    if bot.is_dead {
        "dead"
    } else if !bot.quarantined.as_str().is_empty() {
        "quarantined"
    } else if bot.terminating {
        "terminating"
    } else if bot.task_id.is_some() {
        "busy"
    } else {
        "idle"
    }
}

fn run_word(alloc: Global, place: u32, run: Option<(u32, u32)>) -> Result<String, AllocError>
    ensures { IfOk result (λ word. string_bytes word ≡ spec_run_word place run) }
{
    match run {
        Some(run) => run_id(alloc, place, run),
        None => String::from_str(alloc, "-"),
    }
}

#[tactic(auto, unfolding(crate::specs::Commands::bot_line))]
impl ShowRow for BotView {
    ghost line = { bot_line };

    fn push_line(&self, alloc: Global, text: &mut Vec<u8>, place: u32) -> Result<(), AllocError> {
        push_left(text, self.bot_id.as_str().as_bytes(), 24)?;
        push_left(text, bot_word(self).as_bytes(), 12)?;
        text.extend_from_slice(run_word(alloc, place, self.task_id)?.as_bytes())?;
        text.extend_from_slice(b"\n")
    }
}

impl ShowReply for BotLines {
    ghost text = { λ _. spec_bot_lines };

    fn show(
        &self,
        alloc: Global,
        place: u32,
        reply: &Reply,
    ) -> Result<Option<Vec<u8>>, AllocError> {
        match reply {
            Reply::Bots { items, .. } => Ok(Some(row_lines(alloc, place, items.as_slice())?)),
            _ => Ok(None),
        }
    }
}

#[tactic(auto, unfolding(crate::specs::Requests::bots_data))]
fn bots_value(alloc: Global, pool: &str, limit: u32) -> Result<Value, AllocError>
    ensures { IfOk result (λ value. view value ≡ bots_data pool.now limit) }
{
    let members = with_text(alloc, Map::new(alloc), "pool", pool)?;
    let members = with_whole(alloc, members, "limit", u64::from(limit))?;
    Ok(Value::Object(members))
}

/// The request for the first page of the bots.
#[tactic(auto, using(crate::proofs::Meanings::bots_is_meant), unfolding(crate::specs::Requests::bots_data))]
fn bots_post(alloc: Global, pool: &str, limit: u32) -> Result<Post, AllocError>
    requires some { 1 ≤ limit }
    requires few { limit ≤ 200 }
    ensures { IfOk result (Posts (bots_call pool.now limit)) }
{
    let value = bots_value(alloc, pool, limit)?;
    post_of(alloc, Route::ListBots, targets::LIST_BOTS, &value)
}

/// Lists at most `limit` bots of a pool, by name. It prints a line for each, and answers the status
/// of the command.
pub fn list_bots<W: Dialer, L: Link>(
    alloc: Global,
    dialer: &mut W,
    console: &mut L,
    server: &Server,
    pool: &str,
    limit: u32,
) -> u8
    requires some { 1 ≤ limit }
    requires few { limit ≤ 200 }
    ensures { (aside : Aside) → ListsBots server.now pool.now limit
        (world (W.state dialer.old) (L.state console.old) aside) (world (W.state dialer.new) (L.state console.new) aside) result }
{
    let post = bots_post(alloc, pool, limit);
    print_answer(alloc, dialer, console, server, post, &BotLines)
}
