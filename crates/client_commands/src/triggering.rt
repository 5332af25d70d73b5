//! Asking for a new task.
ghost use Rattle.std.specs.Prelude.{◌≡◌, ℕ, IfOk, Option, string_bytes, vec_items};
ghost use Rattle.client_commands.specs.Commands.{Triggers, new_line as spec_new_line, new_text};
ghost use Rattle.client_commands.specs.Requests.{Posts, new_task_call};
ghost use Rattle.client_commands.specs.Steps.{world, aside_of};

use crate::ids::task_id;
use crate::once::{ShowReply, print_answer};
use crate::post::Post;
use crate::printing::print_refusal;
use crate::server::Server;
use routes::{Route, targets};
use std::alloc::{AllocError, Global};
use sw_base::{Dialer, FileFault, Files, Link};
use swarm_model::{Reply, TaskState};

/// The most bytes of a file that is posted.
const BODY_LIMIT: u64 = 65536;

struct NewLine;

fn new_line(alloc: Global, place: u32, task: u32, state: TaskState) -> Result<String, AllocError>
    ensures { IfOk result (λ line. string_bytes line ≡ new_text place task state) }
{
    let id = task_id(alloc, place, task)?;
    let state = state.name();
    format!(in alloc; "task {id} {state}\n")
}

impl ShowReply for NewLine {
    ghost text = { λ _. spec_new_line };

    fn show(
        &self,
        alloc: Global,
        place: u32,
        reply: &Reply,
    ) -> Result<Option<Vec<u8>>, AllocError> {
        match reply {
            Reply::New { task, state } => {
                Ok(Some(new_line(alloc, place, *task, *state)?.into_bytes()))
            }
            _ => Ok(None),
        }
    }
}

/// The request for a new task, with this body.
pub(crate) fn new_task_post(body: Vec<u8>) -> Post
    ensures { Posts (new_task_call (vec_items body)) result }
{
    Post {
        route: Route::NewTask,
        path: targets::NEW_TASK,
        body,
    }
}

/// Posts the body of a NewTask that a file holds, of at most 65536 bytes, as it is. It prints
/// `task ID STATE`, and answers the status of the command.
pub fn trigger<W: Dialer, L: Link, F: Files>(
    alloc: Global,
    dialer: &mut W,
    console: &mut L,
    files: &mut F,
    server: &Server,
    path: &str,
) -> u8
    ensures { (waited : Option ℕ) → Triggers server.now path.now
        (world (W.state dialer.old) (L.state console.old) (aside_of waited (F.state files.old))) (world (W.state dialer.new) (L.state console.new) (aside_of waited (F.state files.new))) result }
{
    match files.load(alloc, path, BODY_LIMIT) {
        Ok(Some(body)) => {
            let post = Ok(new_task_post(body));
            print_answer(alloc, dialer, console, server, post, &NewLine)
        }
        Ok(None) => print_refusal(alloc, console, path, "absent"),
        Err(FileFault::TooLong) => print_refusal(alloc, console, path, "count"),
        Err(FileFault::Failed) => 4,
        Err(FileFault::Memory) => 5,
    }
}
