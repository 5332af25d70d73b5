//! Asking how many tasks are in a state.
ghost use Rattle.serde_json.specs.View.{view};
ghost use Rattle.json_fields.specs.Readings.{GivesUnlessMemory};
ghost use Rattle.task_bodies.specs.Counts.{count_in};

use crate::states::{read_state, read_state_text};
use json_fields::read_required_text;
use serde_json::Value;
use std::alloc::Global;
use swarm_model::TaskState;
use task_props::PropFault;

/// The name of the pool, and the state, or none for any.
#[tactic(auto, unfolding(crate::specs::Counts::count_in))]
pub fn read_count(alloc: Global, body: &Value) -> Result<(&str, Option<TaskState>), PropFault>
    ensures { GivesUnlessMemory (λ fields. (fields.0.now, fields.1)) result (count_in (view body.now)) }
{
    let pool = read_required_text(alloc, body, "pool")?;
    let name = read_state_text(alloc, body)?;
    let state = read_state(alloc, name)?;
    Ok((pool, state))
}
