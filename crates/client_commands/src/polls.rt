//! Asking what a task has come to, until its state is final.
ghost use Rattle.std.specs.Prelude.{◌≡◌, ℕ, List, IfOk, Option};
ghost use Rattle.serde_json.specs.View.{view};
ghost use Rattle.sw_base.specs.Link.{LinkState};
ghost use Rattle.sw_base.specs.Dialers.{DialerState};
ghost use Rattle.sw_base.specs.Files.{FilesState};
ghost use Rattle.client_commands.specs.declared.server.Server.{Server as SpecServer};
ghost use Rattle.swarm_model.specs.declared.task_view.TaskView.{TaskView as SpecTaskView};
ghost use Rattle.client_commands.specs.Commands.{polling, awaiting, pause as spec_pause, task_in as spec_task_in};
ghost use Rattle.client_commands.specs.Plans.{Plan};
ghost use Rattle.client_commands.specs.Requests.{Posts, id_data, result_call};
ghost use Rattle.client_commands.specs.Steps.{world, Aside, Carries, Leads, aside_of};

use crate::asking::ask;
use crate::post::{Post, post_of};
use crate::server::Server;
use json_values::with_text;
use routes::{Route, targets};
use serde_json::{Map, Value};
use std::alloc::{AllocError, Global};
use sw_base::{Clock, Dialer, Link};
use swarm_model::{Reply, TaskView};

/// The task that a reply tells.
fn task_in(reply: Reply) -> Option<TaskView>
    ensures { result ≡ spec_task_in reply }
{
    match reply {
        Reply::Result(task) => Some(task),
        _ => None,
    }
}

#[tactic(auto, unfolding(crate::specs::Requests::id_data))]
fn id_value(alloc: Global, id: &str) -> Result<Value, AllocError>
    ensures { IfOk result (λ value. view value ≡ id_data id.now) }
{
    let members = with_text(alloc, Map::new(alloc), "task_id", id)?;
    Ok(Value::Object(members))
}

/// The request that asks what a task has come to.
#[tactic(auto, using(crate::proofs::Meanings::result_is_meant), unfolding(crate::specs::Requests::id_data))]
pub(crate) fn result_post(alloc: Global, id: &str) -> Result<Post, AllocError>
    ensures { IfOk result (Posts (result_call id.now)) }
{
    let value = id_value(alloc, id)?;
    post_of(alloc, Route::GetResult, targets::GET_RESULT, &value)
}

/// Asks what the task of a request has come to.
fn poll<W: Dialer, L: Link>(
    alloc: Global,
    dialer: &mut W,
    console: &mut L,
    server: &Server,
    post: &Post,
) -> Result<TaskView, u8>
    ensures { (id : List ℕ) (aside : Aside) (next : SpecTaskView → Plan) → Posts (result_call id) post.now →
        Carries server.now (polling id next) (world (W.state dialer.old) (L.state console.old) aside) next (world (W.state dialer.new) (L.state console.new) aside) result }
{
    match ask(alloc, dialer, console, server, post) {
        Ok(answer) => match task_in(answer.reply) {
            Some(task) => Ok(task),
            None => Err(9),
        },
        Err(status) => Err(status),
    }
}

/// Waits so many seconds, unless no poll is left.
fn pause<C: Clock>(clock: &mut C, every: u32, left: u32)
    ensures { (server : SpecServer) (next : Plan) (dialer : DialerState) (console : LinkState) (files : FilesState) →
        Leads server (spec_pause every left next) (world dialer console (aside_of (C.waited clock.old) files)) next (world dialer console (aside_of (C.waited clock.new) files)) }
{
    if left > 0 {
        clock.wait(u64::from(every));
    }
}

/// Asks what the task of a request has come to, at most so many times, and waits so many seconds
/// between two of them. Answers the task where its state is final, or the status of the command.
pub(crate) fn await_end<W: Dialer, L: Link, C: Clock>(
    alloc: Global,
    dialer: &mut W,
    console: &mut L,
    clock: &mut C,
    server: &Server,
    post: &Post,
    polls: u32,
    every: u32,
) -> Result<TaskView, u8>
    ensures { (id : List ℕ) (files : FilesState) (next : SpecTaskView → Plan) → Posts (result_call id) post.now →
        Carries server.now (awaiting id every next polls) (world (W.state dialer.old) (L.state console.old) (aside_of (C.waited clock.old) files)) next
        (world (W.state dialer.new) (L.state console.new) (aside_of (C.waited clock.new) files)) result }
{
    let mut left = polls;
    'polls: while left > 0 {
        left -= 1;
        let task = match poll(alloc, dialer, console, server, post) {
            Ok(task) => task,
            Err(status) => return Err(status),
        };
        if task.state.is_final() {
            return Ok(task);
        }
        pause(clock, every, left);
    }
    Err(8)
}
