//! The state that a body asks for.
ghost use Rattle.std.specs.Prelude.{◌≡◌};
ghost use Rattle.serde_json.specs.View.{view};
ghost use Rattle.json_fields.specs.Readings.{Gives, GivesUnlessMemory, Reads};
ghost use Rattle.task_bodies.specs.States.{state_text_in as spec_state_text_in, state_text_at, state_of as spec_state_of, state_at};

use json_fields::{broken, present};
use serde_json::Value;
use std::alloc::Global;
use swarm_model::TaskState;
use task_props::{PropFault, PropRule};

#[tactic(auto, unfolding(crate::specs::States::state_text_in))]
fn state_text_in(body: &Value) -> Result<&str, PropRule>
    ensures { Gives (λ s. s.now) result (spec_state_text_in (view body.now)) }
{
    match present(body, "state") {
        None => Ok("ALL"),
        Some(value) => value.as_str().ok_or(PropRule::WrongType),
    }
}

/// The name of a state, or of any.
pub(crate) fn read_state_text(alloc: Global, body: &Value) -> Result<&str, PropFault>
    ensures { GivesUnlessMemory (λ s. s.now) result (state_text_at (view body.now)) }
{
    match state_text_in(body) {
        Ok(name) => Ok(name),
        Err(rule) => Err(broken(alloc, "state", rule)),
    }
}

#[tactic(auto, unfolding(crate::specs::States::state_of))]
fn state_of(name: &str) -> Result<Option<TaskState>, PropRule>
    ensures { Gives (λ o. o) result (spec_state_of name.now) }
{
    if name == "ALL" {
        return Ok(None);
    }
    match TaskState::from_name(name) {
        Some(state) => Ok(Some(state)),
        None => Err(PropRule::Grammar),
    }
}

/// The state of a name, or none for any.
pub(crate) fn read_state(alloc: Global, name: &str) -> Result<Option<TaskState>, PropFault>
    ensures { Reads result (state_at name.now) }
{
    match state_of(name) {
        Ok(state) => Ok(state),
        Err(rule) => Err(broken(alloc, "state", rule)),
    }
}
