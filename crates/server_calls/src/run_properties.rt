//! The properties of a run that a bot is to begin.
ghost use Rattle.std.specs.Prelude.{◌≡◌, IfOk};
ghost use Rattle.serde_json.specs.View.{view};
ghost use Rattle.json_fields.specs.Readings.{Reads};
ghost use Rattle.server_calls.specs.Commands.{task_with as spec_task_with, checked_properties, properties_in};

use dimensions::{Seq, Text};
use serde_json::Value;
use std::alloc::{AllocError, Global};
use task_bodies::take_properties_at;
use task_checks::{RawProperties, RawSlice, RawTask, check_task};
use task_props::{PropFault, Properties};

fn task_with(alloc: Global, properties: RawProperties) -> Result<RawTask, AllocError>
    ensures { IfOk result (λ task. task ≡ spec_task_with properties) }
{
    let mut slices = Vec::new(alloc);
    slices.push(RawSlice {
        expiration_secs: 1,
        wait_for_capacity: true,
        properties,
    })?;
    Ok(RawTask {
        name: Text::new(alloc),
        priority: 0,
        bot_ping_tolerance_secs: 0,
        request_uuid: Text::new(alloc),
        task_slices: Seq::from_vec(slices),
    })
}

/// The properties, where a task of them breaks no rule.
#[tactic(auto, unfolding(crate::specs::Commands::checked_properties))]
fn check_properties(alloc: Global, raw: RawProperties) -> Result<Properties, PropFault>
    ensures { Reads result (checked_properties raw) }
{
    let task = check_task(alloc, task_with(alloc, raw)?)?;
    let mut slices = task.task_slices.into_vec();
    match slices.pop() {
        Some(slice) => Ok(slice.properties),
        // The task has one slice.
        None => Err(PropFault::Memory),
    }
}

/// The properties in a body, taken out of it.
#[tactic(auto, unfolding(crate::specs::Commands::properties_in))]
pub(crate) fn take_properties(alloc: Global, body: Value) -> Result<Properties, PropFault>
    ensures { Reads result (properties_in (view body)) }
{
    let raw = take_properties_at(alloc, body, "properties")?;
    check_properties(alloc, raw)
}
