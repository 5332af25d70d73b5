//! Ending a task.
ghost use Rattle.std.specs.Prelude.{◌≡◌, ℕ, IfOk, Option, string_bytes};
ghost use Rattle.serde_json.specs.View.{view};
ghost use Rattle.client_commands.specs.Commands.{Cancels, cancel_line as spec_cancel_line, canceled_text, flag_word as spec_flag_word};
ghost use Rattle.client_commands.specs.Requests.{Posts, cancel_call, cancel_data};
ghost use Rattle.client_commands.specs.Steps.{world, Aside};

use crate::once::{ShowReply, print_answer};
use crate::post::{Post, post_of};
use crate::server::Server;
use json_values::{with_flag, with_text};
use routes::{Route, targets};
use serde_json::{Map, Value};
use std::alloc::{AllocError, Global};
use sw_base::{Dialer, Link};
use swarm_model::Reply;

struct CancelLine;

fn flag_word(flag: bool) -> &'static str
    ensures { result.now ≡ spec_flag_word flag }
{
    if flag { "true" } else { "false" }
}

fn cancel_line(alloc: Global, canceled: bool, was_running: bool) -> Result<String, AllocError>
    ensures { IfOk result (λ line. string_bytes line ≡ canceled_text canceled was_running) }
{
    let canceled = flag_word(canceled);
    let was_running = flag_word(was_running);
    format!(in alloc; "canceled {canceled} was_running {was_running}\n")
}

impl ShowReply for CancelLine {
    ghost text = { λ _. spec_cancel_line };

    fn show(
        &self,
        alloc: Global,
        place: u32,
        reply: &Reply,
    ) -> Result<Option<Vec<u8>>, AllocError> {
        match reply {
            Reply::Canceled {
                canceled,
                was_running,
            } => Ok(Some(cancel_line(alloc, *canceled, *was_running)?.into_bytes())),
            _ => Ok(None),
        }
    }
}

#[tactic(auto, unfolding(crate::specs::Requests::cancel_data))]
fn cancel_value(alloc: Global, id: &str, kill: bool) -> Result<Value, AllocError>
    ensures { IfOk result (λ value. view value ≡ cancel_data id.now kill) }
{
    let members = with_text(alloc, Map::new(alloc), "task_id", id)?;
    let members = with_flag(alloc, members, "kill_running", kill)?;
    Ok(Value::Object(members))
}

/// The request that cancels a task, and ends its run, too, where `kill` says so.
#[tactic(auto, using(crate::proofs::Meanings::cancel_is_meant), unfolding(crate::specs::Requests::cancel_data))]
fn cancel_post(alloc: Global, id: &str, kill: bool) -> Result<Post, AllocError>
    ensures { IfOk result (Posts (cancel_call id.now kill)) }
{
    let value = cancel_value(alloc, id, kill)?;
    post_of(alloc, Route::CancelTask, targets::CANCEL_TASK, &value)
}

/// Asks that a task come to an end, and its run, too, where `kill` says so. It prints
/// `canceled B was_running B`, and answers the status of the command.
pub fn cancel<W: Dialer, L: Link>(
    alloc: Global,
    dialer: &mut W,
    console: &mut L,
    server: &Server,
    id: &str,
    kill: bool,
) -> u8
    ensures { (aside : Aside) → Cancels server.now id.now kill
        (world (W.state dialer.old) (L.state console.old) aside) (world (W.state dialer.new) (L.state console.new) aside) result }
{
    let post = cancel_post(alloc, id, kill);
    print_answer(alloc, dialer, console, server, post, &CancelLine)
}
