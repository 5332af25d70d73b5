//! The request for a task in a line.
ghost use Rattle.std.specs.Prelude.{◌≡◌, ⊤, [], IfOk, OnOk, codes, refl, unwrap_or};
ghost use Rattle.serde_json.specs.View.{view};
ghost use Rattle.line_parts.specs.Finding.{Finds};
ghost use Rattle.line_parts.specs.Parts.{cache_data, cache_in};
ghost use Rattle.line_parts.specs.PartLaws.{cache_is_shallow};
ghost use Rattle.line_parts.specs.Tasks.{properties_data, properties_in, HoldsProperties, slice_data, slice_in, HoldsSlice, request_data, request_in, HoldsRequest, uuid_of};
ghost use Rattle.line_parts.specs.Tasks.{properties_reads_back, properties_has_no_float, properties_is_shallow, slice_reads_back, slice_has_no_float, slice_is_shallow};

use crate::LineFault;
use crate::line_field::LineField;
use crate::members::{read_field, with_field};
use dimensions::{DimSet, Seq, Text, TryCopy};
use serde_json::{Map, Value};
use std::alloc::{AllocError, Global};
use task_props::{Cache, File, ListValues, NewTask, Properties, Slice, properties_value};

/// A cache, as `{"name": NAME, "path": PATH}`.
impl LineField for Cache {
    ghost data_of = { cache_data };

    ghost value_in = { cache_in };

    ghost Holds = { λ cache. ⊤ };

    ghost levels = { 1 };

    fn to_value(&self, alloc: Global) -> Result<Value, AllocError> {
        let members = with_field(alloc, Map::new(alloc), "path", &self.path)?;
        let members = with_field(alloc, members, "name", &self.name)?;
        Ok(Value::Object(members))
    }

    fn from_value(alloc: Global, value: &Value) -> Result<Cache, LineFault> {
        let name = read_field::<Text>(alloc, value, "name")?;
        let path = read_field::<Text>(alloc, value, "path")?;
        Ok(Cache { name, path })
    }

    ghost reads_back = { λ cache h. refl };

    ghost has_no_float = { λ cache. refl };

    ghost within_levels = { cache_is_shallow };
}

/// An object of the fields by their names.
impl LineField for Properties {
    ghost data_of = { properties_data };

    ghost value_in = { properties_in };

    ghost Holds = { HoldsProperties };

    ghost levels = { 3 };

    fn to_value(&self, alloc: Global) -> Result<Value, AllocError> {
        let lists = ListValues {
            caches: self.caches.to_value(alloc)?,
            dimensions: self.dimensions.to_value(alloc)?,
            env: self.env.to_value(alloc)?,
            inputs: self.inputs.to_value(alloc)?,
        };
        properties_value(alloc, self, lists)
    }

    #[tactic(auto, unfolding(crate::specs::Tasks::properties_in))]
    fn from_value(alloc: Global, value: &Value) -> Result<Properties, LineFault> {
        let caches = read_field::<Seq<Cache>>(alloc, value, "caches")?;
        let command = read_field::<Seq<Text>>(alloc, value, "command")?;
        let dimensions = read_field::<DimSet>(alloc, value, "dimensions")?;
        let env = read_field::<Seq<(Text, Text)>>(alloc, value, "env")?;
        let execution_timeout_secs = read_field::<u32>(alloc, value, "execution_timeout_secs")?;
        let grace_period_secs = read_field::<u32>(alloc, value, "grace_period_secs")?;
        let idempotent = read_field::<bool>(alloc, value, "idempotent")?;
        let inputs = read_field::<Seq<File>>(alloc, value, "inputs")?;
        let io_timeout_secs = read_field::<u32>(alloc, value, "io_timeout_secs")?;
        let outputs = read_field::<Seq<Text>>(alloc, value, "outputs")?;
        Ok(Properties {
            command,
            env,
            dimensions,
            caches,
            inputs,
            outputs,
            execution_timeout_secs,
            io_timeout_secs,
            grace_period_secs,
            idempotent,
        })
    }

    ghost reads_back = { properties_reads_back };

    ghost has_no_float = { properties_has_no_float };

    ghost within_levels = { properties_is_shallow };
}

/// An object of the fields by their names.
impl LineField for Slice {
    ghost data_of = { slice_data };

    ghost value_in = { slice_in };

    ghost Holds = { HoldsSlice };

    ghost levels = { 4 };

    fn to_value(&self, alloc: Global) -> Result<Value, AllocError> {
        let members = with_field(
            alloc,
            Map::new(alloc),
            "wait_for_capacity",
            &self.wait_for_capacity,
        )?;
        let members = with_field(alloc, members, "properties", &self.properties)?;
        let members = with_field(alloc, members, "expiration_secs", &self.expiration_secs)?;
        Ok(Value::Object(members))
    }

    fn from_value(alloc: Global, value: &Value) -> Result<Slice, LineFault> {
        let expiration_secs = read_field::<u32>(alloc, value, "expiration_secs")?;
        let properties = read_field::<Properties>(alloc, value, "properties")?;
        let wait_for_capacity = read_field::<bool>(alloc, value, "wait_for_capacity")?;
        Ok(Slice {
            expiration_secs,
            wait_for_capacity,
            properties,
        })
    }

    ghost reads_back = { slice_reads_back };

    ghost has_no_float = { slice_has_no_float };

    ghost within_levels = { slice_is_shallow };
}

/// A uuid, where there is one: the empty text stands for none.
pub fn uuid_of(alloc: Global, uuid: &Text) -> Result<Option<Text>, AllocError>
    ensures { IfOk result (λ o. o ≡ uuid_of uuid.now) }
{
    if uuid.as_str().is_empty() {
        Ok(None)
    } else {
        Ok(Some(uuid.try_copy(alloc)?))
    }
}

/// The text, or the empty text where there is none.
pub fn text_or_empty(alloc: Global, text: Option<Text>) -> Text
    ensures { result ≡ unwrap_or text [] }
{
    match text {
        Some(text) => text,
        None => Text::new(alloc),
    }
}

/// The request without its uuid, which stands beside it in a line.
#[tactic(auto, unfolding(crate::specs::Tasks::request_data))]
pub fn request_value(alloc: Global, task: &NewTask) -> Result<Value, AllocError>
    ensures value { IfOk result (λ value. view value ≡ request_data task.now) }
    ensures holds { OnOk result (HoldsRequest task.now) }
{
    let members = with_field(alloc, Map::new(alloc), "task_slices", &task.task_slices)?;
    let members = with_field(alloc, members, "priority", &task.priority)?;
    let members = with_field(alloc, members, "name", &task.name)?;
    let members = with_field(
        alloc,
        members,
        "bot_ping_tolerance_secs",
        &task.bot_ping_tolerance_secs,
    )?;
    Ok(Value::Object(members))
}

/// The request of a uuid.
#[tactic(auto, unfolding(crate::specs::Tasks::request_in))]
pub fn read_request(alloc: Global, value: &Value, uuid: Text) -> Result<NewTask, LineFault>
    ensures { Finds result (request_in uuid (view value.now)) }
{
    let bot_ping_tolerance_secs = read_field::<u32>(alloc, value, "bot_ping_tolerance_secs")?;
    let name = read_field::<Text>(alloc, value, "name")?;
    let priority = read_field::<u32>(alloc, value, "priority")?;
    let task_slices = read_field::<Seq<Slice>>(alloc, value, "task_slices")?;
    Ok(NewTask {
        name,
        priority,
        bot_ping_tolerance_secs,
        request_uuid: uuid,
        task_slices,
    })
}
