//! Listing tasks.
ghost use Rattle.std.specs.Prelude.{◌≡◌, ◌≤◌, ℕ, IfOk, Option, string_bytes};
ghost use Rattle.serde_json.specs.View.{view};
ghost use Rattle.client_commands.specs.Commands.{ListsTasks, task_line, task_lines as spec_task_lines};
ghost use Rattle.client_commands.specs.Requests.{Posts, state_word as spec_state_word, tasks_call, tasks_data};
ghost use Rattle.client_commands.specs.Steps.{world, Aside};

use crate::columns::{push_left, push_right};
use crate::ids::task_id;
use crate::once::{ShowReply, print_answer};
use crate::post::{Post, post_of};
use crate::rows::{ShowRow, row_lines};
use crate::server::Server;
use itoa::Buffer;
use json_values::{with_text, with_whole};
use routes::{Route, targets};
use serde_json::{Map, Value};
use std::alloc::{AllocError, Global};
use sw_base::{Dialer, Link};
use swarm_model::{Reply, TaskState, TaskView};

struct TaskLines;

#[tactic(auto, unfolding(crate::specs::Commands::task_line))]
impl ShowRow for TaskView {
    ghost line = { task_line };

    fn push_line(&self, alloc: Global, text: &mut Vec<u8>, place: u32) -> Result<(), AllocError> {
        let mut digits = Buffer::new();
        push_left(text, task_id(alloc, place, self.task_id)?.as_bytes(), 8)?;
        push_left(text, self.state.name().as_bytes(), 12)?;
        push_right(text, digits.format(self.priority).as_bytes(), 3)?;
        text.extend_from_slice(b" ")?;
        text.extend_from_slice(self.name.as_str().as_bytes())?;
        text.extend_from_slice(b"\n")
    }
}

impl ShowReply for TaskLines {
    ghost text = { λ _. spec_task_lines };

    fn show(
        &self,
        alloc: Global,
        place: u32,
        reply: &Reply,
    ) -> Result<Option<Vec<u8>>, AllocError> {
        match reply {
            Reply::Tasks { items, .. } => Ok(Some(row_lines(alloc, place, items.as_slice())?)),
            _ => Ok(None),
        }
    }
}

fn state_word(state: Option<TaskState>) -> &'static str
    ensures { result.now ≡ spec_state_word state }
{
    match state {
        None => "ALL",
        Some(state) => state.name(),
    }
}

#[tactic(auto, unfolding(crate::specs::Requests::tasks_data))]
fn tasks_value(
    alloc: Global,
    pool: &str,
    state: Option<TaskState>,
    limit: u32,
) -> Result<Value, AllocError>
    ensures { IfOk result (λ value. view value ≡ tasks_data pool.now state limit) }
{
    let members = with_text(alloc, Map::new(alloc), "state", state_word(state))?;
    let members = with_text(alloc, members, "pool", pool)?;
    let members = with_whole(alloc, members, "limit", u64::from(limit))?;
    Ok(Value::Object(members))
}

/// The request for the first page of the tasks in a state, or in any.
#[tactic(auto, using(crate::proofs::Meanings::tasks_is_meant), unfolding(crate::specs::Requests::tasks_data))]
fn tasks_post(
    alloc: Global,
    pool: &str,
    state: Option<TaskState>,
    limit: u32,
) -> Result<Post, AllocError>
    requires some { 1 ≤ limit }
    requires few { limit ≤ 200 }
    ensures { IfOk result (Posts (tasks_call pool.now state limit)) }
{
    let value = tasks_value(alloc, pool, state, limit)?;
    post_of(alloc, Route::ListTasks, targets::LIST_TASKS, &value)
}

/// Lists at most `limit` tasks of a pool, the newest first: those in a state, or all. It prints a
/// line for each, and answers the status of the command.
pub fn list_tasks<W: Dialer, L: Link>(
    alloc: Global,
    dialer: &mut W,
    console: &mut L,
    server: &Server,
    pool: &str,
    state: Option<TaskState>,
    limit: u32,
) -> u8
    requires some { 1 ≤ limit }
    requires few { limit ≤ 200 }
    ensures { (aside : Aside) → ListsTasks server.now pool.now state limit
        (world (W.state dialer.old) (L.state console.old) aside) (world (W.state dialer.new) (L.state console.new) aside) result }
{
    let post = tasks_post(alloc, pool, state, limit);
    print_answer(alloc, dialer, console, server, post, &TaskLines)
}
