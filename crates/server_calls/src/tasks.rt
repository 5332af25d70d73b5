//! What the replies of the calls on tasks tell.
ghost use Rattle.std.specs.Prelude.{◌≡◌, codes};
ghost use Rattle.serde_json.specs.View.{view};
ghost use Rattle.json_fields.specs.Readings.{GivesUnlessMemory, Reads, at};
ghost use Rattle.server_calls.specs.Tasks.{new_in, checked_cancel, cancel_flags_in, canceled_in, result_in, bytes_of, stdout_in, count_in};

use crate::Told;
use crate::members::{check_keys, read_flag, read_number, read_state};
use crate::places::{read_place, read_task_id};
use crate::task_views::{read_task_place, read_task_view};
use base64::DecodeAllocError;
use base64::engine::general_purpose::STANDARD;
use dimensions::Seq;
use json_fields::{broken, read_required_text};
use serde_json::Value;
use std::alloc::Global;
use swarm_model::Reply;
use task_props::{PropFault, PropRule};

/// The task that was made.
#[tactic(auto, unfolding(crate::specs::Tasks::new_in))]
pub(crate) fn read_new(alloc: Global, body: &Value) -> Result<Told, PropFault>
    ensures { Reads result (new_in (view body.now)) }
{
    check_keys(alloc, body, &["state", "task_id"])?;
    let state = read_state(alloc, body)?;
    let id = read_task_id(alloc, body)?;
    let place = read_place(alloc, &[Some(id.place)])?;
    Ok(Told::Good {
        place,
        reply: Reply::New {
            task: id.task,
            state,
        },
        bytes: Seq::new(alloc),
    })
}

#[tactic(auto, unfolding(crate::specs::Tasks::checked_cancel))]
fn check_cancel_keys(alloc: Global, body: &Value) -> Result<&Value, PropFault>
    ensures { GivesUnlessMemory (λ v. view v.now) result (checked_cancel (view body.now)) }
{
    check_keys(alloc, body, &["canceled", "was_running"])
}

#[tactic(auto, unfolding(crate::specs::Tasks::cancel_flags_in))]
fn read_cancel_flags(alloc: Global, body: &Value) -> Result<(bool, bool), PropFault>
    ensures { Reads result (cancel_flags_in (view body.now)) }
{
    let ends = read_flag(alloc, body, "canceled")?;
    let ran = read_flag(alloc, body, "was_running")?;
    Ok((ends, ran))
}

/// Whether a task ends by this.
#[tactic(auto, unfolding(crate::specs::Tasks::canceled_in))]
pub(crate) fn read_canceled(alloc: Global, body: &Value) -> Result<Told, PropFault>
    ensures { Reads result (canceled_in (view body.now)) }
{
    check_cancel_keys(alloc, body)?;
    let (canceled, was_running) = read_cancel_flags(alloc, body)?;
    Ok(Told::Good {
        place: 0,
        reply: Reply::Canceled {
            canceled,
            was_running,
        },
        bytes: Seq::new(alloc),
    })
}

/// What a task has come to.
#[tactic(auto, unfolding(crate::specs::Tasks::result_in))]
pub(crate) fn read_result(alloc: Global, body: &Value) -> Result<Told, PropFault>
    ensures { Reads result (result_in (view body.now)) }
{
    let place = read_task_place(alloc, body)?;
    let task = read_task_view(alloc, body)?;
    Ok(Told::Good {
        place,
        reply: Reply::Result(task),
        bytes: Seq::new(alloc),
    })
}

fn read_bytes(alloc: Global, text: &str) -> Result<Vec<u8>, PropFault>
    ensures { GivesUnlessMemory (λ bytes. bytes.items) result (at (codes "output") (bytes_of text.now)) }
{
    match STANDARD.decode(alloc, text.as_bytes()) {
        Ok(bytes) => Ok(bytes),
        Err(DecodeAllocError::OutOfMemory) => Err(PropFault::Memory),
        Err(DecodeAllocError::DecodeError(_)) => Err(broken(alloc, "output", PropRule::Grammar)),
    }
}

/// A piece of the output of a run.
#[tactic(auto, unfolding(crate::specs::Tasks::stdout_in))]
pub(crate) fn read_stdout(alloc: Global, body: &Value) -> Result<Told, PropFault>
    ensures { Reads result (stdout_in (view body.now)) }
{
    check_keys(alloc, body, &["output", "state"])?;
    let state = read_state(alloc, body)?;
    let text = read_required_text(alloc, body, "output")?;
    let bytes = read_bytes(alloc, text)?;
    Ok(Told::Good {
        place: 0,
        reply: Reply::Stdout {
            state,
            parts: Seq::new(alloc),
        },
        bytes: Seq::from_vec(bytes),
    })
}

/// How many tasks there are.
#[tactic(auto, unfolding(crate::specs::Tasks::count_in))]
pub(crate) fn read_count(alloc: Global, body: &Value) -> Result<Told, PropFault>
    ensures { Reads result (count_in (view body.now)) }
{
    check_keys(alloc, body, &["count"])?;
    let count = read_number(alloc, body, "count", 18_446_744_073_709_551_615)?;
    Ok(Told::Good {
        place: 0,
        reply: Reply::Count { count },
        bytes: Seq::new(alloc),
    })
}
