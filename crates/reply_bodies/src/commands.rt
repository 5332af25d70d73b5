//! What a bot is told to do.
ghost use Rattle.std.specs.Prelude.{◌≡◌, ◌<◌, IfOk};
ghost use Rattle.serde_json.specs.View.{view, members_view};
ghost use Rattle.reply_bodies.specs.Commands.{run_properties as spec_run_properties, run_members as spec_run_members};

use crate::items::{Caches, Files, Pairs};
use crate::views::with_run_id;
use json_values::{list_value, with, with_text, with_whole};
use serde_json::{Map, Value};
use std::alloc::{AllocError, Global};
use task_props::{ListValues, Properties, properties_value};

/// The object whose lists hold objects.
fn run_properties(alloc: Global, properties: &Properties) -> Result<Value, AllocError>
    ensures { IfOk result (λ value. view value ≡ spec_run_properties properties.now) }
{
    let lists = ListValues {
        caches: list_value(alloc, &Caches, properties.caches.as_slice())?,
        dimensions: list_value(alloc, &Pairs, properties.dimensions.pairs())?,
        env: list_value(alloc, &Pairs, properties.env.as_slice())?,
        inputs: list_value(alloc, &Files, properties.inputs.as_slice())?,
    };
    properties_value(alloc, properties, lists)
}

/// A run of a task of the pool at a place. The keys are put in falling order, each before all
/// others.
#[tactic(auto, unfolding(crate::specs::Commands::run_members))]
pub(crate) fn run_members(
    alloc: Global,
    place: u32,
    run: (u32, u32),
    slice: u32,
    tolerance: u32,
    properties: &Properties,
) -> Result<Map<String, Value>, AllocError>
    requires { place < 4 }
    ensures { IfOk result (λ members. members_view members.entries ≡ spec_run_members place run slice tolerance properties.now) }
{
    let members = with_whole(alloc, Map::new(alloc), "slice", u64::from(slice))?;
    let members = with_run_id(alloc, members, "run_id", place, run)?;
    let properties = run_properties(alloc, properties)?;
    let members = with(alloc, members, "properties", properties)?;
    let members = with_text(alloc, members, "cmd", "run")?;
    let tolerance = u64::from(tolerance);
    with_whole(alloc, members, "bot_ping_tolerance_secs", tolerance)
}
