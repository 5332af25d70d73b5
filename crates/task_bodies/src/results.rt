//! Asking what a task has come to.
ghost use Rattle.std.specs.Prelude.{◌≡◌, ◌≤◌, ◌%◌, IfOk};
ghost use Rattle.serde_json.specs.View.{view};
ghost use Rattle.json_fields.specs.Readings.{Reads};
ghost use Rattle.task_bodies.specs.Results.{id_in};

use json_fields::{read_id, read_required_text};
use serde_json::Value;
use std::alloc::Global;
use task_props::PropFault;

/// The id of the task or of one of its runs.
#[tactic(auto, unfolding(crate::specs::Results::id_in))]
pub fn read_task_id(alloc: Global, body: &Value) -> Result<u32, PropFault>
    ensures exact { Reads result (id_in (view body.now)) }
    ensures try_no { IfOk result (λ id. id % 16 ≤ 2) }
{
    let text = read_required_text(alloc, body, "task_id")?;
    read_id(alloc, text)
}
