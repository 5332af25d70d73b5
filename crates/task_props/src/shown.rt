//! The JSON value of properties.
ghost use Rattle.std.specs.Prelude.{◌≡◌, ◌<◌, ◌^◌, IfOk, OnOk};
ghost use Rattle.serde_json.specs.Data.{string, put};
ghost use Rattle.serde_json.specs.View.{view, members_view};
ghost use Rattle.json_values.specs.Values.{whole};
ghost use Rattle.task_props.specs.Shown.{later_members as spec_later_members, properties_with, HasWordTimes};

use crate::Properties;
use dimensions::Text;
use json_values::{ShowItem, with, with_flag, with_list, with_whole};
use serde_json::{Map, Value};
use std::alloc::{AllocError, Global};

/// The lists of properties whose items a format writes in its own way, as it writes them.
#[derive(Drop)]
pub struct ListValues {
    pub caches: Value,
    pub dimensions: Value,
    pub env: Value,
    pub inputs: Value,
}

/// Texts.
struct Texts;

impl ShowItem for Texts {
    type Item = Text;

    ghost value_of = { λ _. string };

    fn show(&self, alloc: Global, text: &Text) -> Result<Value, AllocError> {
        Value::try_from_str(alloc, text.as_str())
    }
}

/// One more member, a number of seconds.
fn with_secs(
    alloc: Global,
    members: Map<String, Value>,
    key: &str,
    secs: u32,
) -> Result<Map<String, Value>, AllocError>
    ensures value { IfOk result (λ more. members_view more.entries ≡ put key.now (whole secs) (members_view members.entries)) }
    ensures word { OnOk result (secs < 2 ^ 32) }
{
    with_whole(alloc, members, key, u64::from(secs))
}

// The keys are put in falling order, each before all others.

#[tactic(auto, unfolding(crate::specs::Shown::later_members))]
fn later_members(
    alloc: Global,
    properties: &Properties,
    inputs: Value,
) -> Result<Map<String, Value>, AllocError>
    ensures value { IfOk result (λ members. members_view members.entries ≡ spec_later_members (view inputs) properties.now) }
    ensures io { OnOk result (properties.now.io_timeout_secs < 2 ^ 32) }
    ensures grace { OnOk result (properties.now.grace_period_secs < 2 ^ 32) }
{
    let items = properties.outputs.as_slice();
    let members = with_list(alloc, Map::new(alloc), "outputs", &Texts, items)?;
    let members = with_secs(
        alloc,
        members,
        "io_timeout_secs",
        properties.io_timeout_secs,
    )?;
    let members = with(alloc, members, "inputs", inputs)?;
    let members = with_flag(alloc, members, "idempotent", properties.idempotent)?;
    with_secs(
        alloc,
        members,
        "grace_period_secs",
        properties.grace_period_secs,
    )
}

/// The object of all fields, which every format of properties writes.
#[tactic(auto, unfolding(crate::specs::Shown::properties_with, crate::specs::Shown::later_members))]
pub fn properties_value(
    alloc: Global,
    properties: &Properties,
    lists: ListValues,
) -> Result<Value, AllocError>
    ensures value { IfOk result (λ value. view value ≡ properties_with (view lists.caches) (view lists.dimensions) (view lists.env) (view lists.inputs) properties.now) }
    ensures times { OnOk result (HasWordTimes properties.now) }
{
    let ListValues {
        caches,
        dimensions,
        env,
        inputs,
    } = lists;
    let members = later_members(alloc, properties, inputs)?;
    let secs = properties.execution_timeout_secs;
    let members = with_secs(alloc, members, "execution_timeout_secs", secs)?;
    let members = with(alloc, members, "env", env)?;
    let members = with(alloc, members, "dimensions", dimensions)?;
    let items = properties.command.as_slice();
    let members = with_list(alloc, members, "command", &Texts, items)?;
    Ok(Value::Object(with(alloc, members, "caches", caches)?))
}
