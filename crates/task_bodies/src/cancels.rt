//! Asking that a task come to an end.
ghost use Rattle.std.specs.Prelude.{◌≡◌, ◌≤◌, ◌%◌, IfOk};
ghost use Rattle.serde_json.specs.View.{view};
ghost use Rattle.json_fields.specs.Readings.{Reads};
ghost use Rattle.task_bodies.specs.Cancels.{cancel_in};

use json_fields::{read_flag, read_id, read_required_text};
use serde_json::Value;
use std::alloc::Global;
use task_props::PropFault;

/// The id of the task or of one of its runs, and whether a run is to stop, too.
#[tactic(auto, unfolding(crate::specs::Cancels::cancel_in))]
pub fn read_cancel(alloc: Global, body: &Value) -> Result<(u32, bool), PropFault>
    ensures exact { Reads result (cancel_in (view body.now)) }
    ensures try_no { IfOk result (λ fields. fields.0 % 16 ≤ 2) }
{
    let text = read_required_text(alloc, body, "task_id")?;
    let kill = read_flag(alloc, body, "kill_running")?;
    let id = read_id(alloc, text)?;
    Ok((id, kill))
}
