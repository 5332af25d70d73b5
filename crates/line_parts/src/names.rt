//! States and events by their names.
ghost use Rattle.std.specs.Prelude.{◌≡◌, ⊤, refl};
ghost use Rattle.line_parts.specs.Names.{event_name as spec_event_name, event_named as spec_event_named, state_reads_back, event_reads_back};
ghost use Rattle.line_parts.specs.Numbers.{zero_le};
ghost use Rattle.line_parts.specs.Parts.{state_data, state_in, event_data, event_in};

use crate::LineFault;
use crate::line_field::LineField;
use serde_json::Value;
use std::alloc::{AllocError, Global};
use swarm_model::{EventKind, TaskState};

fn event_name(event: EventKind) -> &'static str
    ensures { result.now ≡ spec_event_name event }
{
    match event {
        EventKind::Ping => "ping",
        EventKind::Quarantine => "quarantine",
        EventKind::Unquarantine => "unquarantine",
    }
}

/// The event of a name.
#[tactic(auto, unfolding(crate::specs::Names::event_named))]
fn event_named(name: &str) -> Option<EventKind>
    ensures { result ≡ spec_event_named name.now }
{
    match name {
        "ping" => Some(EventKind::Ping),
        "quarantine" => Some(EventKind::Quarantine),
        "unquarantine" => Some(EventKind::Unquarantine),
        _ => None,
    }
}

impl LineField for TaskState {
    ghost data_of = { state_data };

    ghost value_in = { state_in };

    ghost Holds = { λ state. ⊤ };

    ghost levels = { 0 };

    fn to_value(&self, alloc: Global) -> Result<Value, AllocError> {
        Value::try_from_str(alloc, self.name())
    }

    fn from_value(_alloc: Global, value: &Value) -> Result<TaskState, LineFault> {
        match value.as_str() {
            Some(name) => TaskState::from_name(name).ok_or(LineFault::NotALine),
            None => Err(LineFault::NotALine),
        }
    }

    ghost reads_back = { λ state h. state_reads_back state };

    ghost has_no_float = { λ state. refl };

    ghost within_levels = { λ state. zero_le 0 };
}

impl LineField for EventKind {
    ghost data_of = { event_data };

    ghost value_in = { event_in };

    ghost Holds = { λ event. ⊤ };

    ghost levels = { 0 };

    fn to_value(&self, alloc: Global) -> Result<Value, AllocError> {
        Value::try_from_str(alloc, event_name(*self))
    }

    fn from_value(_alloc: Global, value: &Value) -> Result<EventKind, LineFault> {
        match value.as_str() {
            Some(name) => event_named(name).ok_or(LineFault::NotALine),
            None => Err(LineFault::NotALine),
        }
    }

    ghost reads_back = { λ event h. event_reads_back event };

    ghost has_no_float = { λ event. refl };

    ghost within_levels = { λ event. zero_le 0 };
}
