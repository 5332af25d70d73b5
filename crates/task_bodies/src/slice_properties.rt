//! The properties of a slice in a body.
ghost use Rattle.std.specs.Prelude.{◌≡◌, IfOk, option_map};
ghost use Rattle.serde_json.specs.View.{view};
ghost use Rattle.json_fields.specs.Readings.{Reads, inside};
ghost use Rattle.json_fields.specs.Fields.{unknown_key as spec_unknown_key};
ghost use Rattle.json_fields.specs.Taken.{without_all};
ghost use Rattle.task_bodies.specs.SliceProperties.{pair_in, cache_in, input_in, lists_in, grace_at, times_in, list_keys, property_keys, properties_in, properties_at};

use dimensions::{Seq, Text};
use json_fields::{
    TakeFields, below, broken, read_flag, read_number, read_optional_number, take_object,
    take_objects, take_optional_objects, take_optional_texts, take_required_text, take_text,
    take_texts, unknown_key,
};
use serde_json::Value;
use std::alloc::Global;
use task_checks::{RawFile, RawProperties};
use task_props::{Cache, PropFault, PropRule};

/// The keys of properties.
const PROPERTY_KEYS: [&str; 10] = [
    "command",
    "env",
    "dimensions",
    "caches",
    "inputs",
    "outputs",
    "execution_timeout_secs",
    "io_timeout_secs",
    "grace_period_secs",
    "idempotent",
];

/// The lists of properties, as they were read.
#[derive(Drop)]
pub(crate) struct RawLists {
    pub command: Seq<Text>,
    pub env: Seq<(Text, Text)>,
    pub dimensions: Seq<(Text, Text)>,
    pub caches: Seq<Cache>,
    pub inputs: Seq<RawFile>,
    pub outputs: Seq<Text>,
}

/// The times of properties in seconds, as they were read.
#[derive(Clone, Copy)]
pub(crate) struct RawTimes {
    pub execution_timeout_secs: i128,
    pub io_timeout_secs: i128,
    pub grace_period_secs: i128,
}

/// A key with its value.
struct PairFields;

impl TakeFields for PairFields {
    type Value = (Text, Text);

    ghost fields = { pair_in };

    #[tactic(auto, using(crate::proofs::Keys::pair_stays), unfolding(crate::specs::SliceProperties::pair_in))]
    fn take_fields(alloc: Global, mut pair: Value) -> Result<(Text, Text), PropFault> {
        let key = take_text(alloc, &mut pair, "key")?;
        let value = take_text(alloc, &mut pair, "value")?;
        match unknown_key(&pair, &["key", "value"]) {
            Some(name) => Err(broken(alloc, name, PropRule::Unknown)),
            None => Ok((key, value)),
        }
    }
}

/// A cache by its name, with its path.
struct CacheFields;

impl TakeFields for CacheFields {
    type Value = Cache;

    ghost fields = { cache_in };

    #[tactic(auto, using(crate::proofs::Keys::cache_stays), unfolding(crate::specs::SliceProperties::cache_in))]
    fn take_fields(alloc: Global, mut cache: Value) -> Result<Cache, PropFault> {
        let name = take_text(alloc, &mut cache, "name")?;
        let path = take_text(alloc, &mut cache, "path")?;
        match unknown_key(&cache, &["name", "path"]) {
            Some(key) => Err(broken(alloc, key, PropRule::Unknown)),
            None => Ok(Cache { name, path }),
        }
    }
}

/// A file by its path, with the digest and the size of its content.
struct InputFields;

impl TakeFields for InputFields {
    type Value = RawFile;

    ghost fields = { input_in };

    #[tactic(auto, using(crate::proofs::Keys::input_stays), unfolding(crate::specs::SliceProperties::input_in))]
    fn take_fields(alloc: Global, mut input: Value) -> Result<RawFile, PropFault> {
        let path = take_text(alloc, &mut input, "path")?;
        let digest = take_required_text(alloc, &mut input, "digest")?;
        let size = read_number(alloc, &input, "size")?;
        match unknown_key(&input, &["path", "digest", "size"]) {
            Some(key) => Err(broken(alloc, key, PropRule::Unknown)),
            None => Ok(RawFile { path, digest, size }),
        }
    }
}

#[tactic(auto, using(crate::proofs::Keys::lists_stay), unfolding(crate::specs::SliceProperties::lists_in))]
fn take_lists(alloc: Global, properties: &mut Value) -> Result<RawLists, PropFault>
    ensures read { Reads result (lists_in (view properties.old)) }
    ensures left { IfOk result (λ _. view properties.new ≡ without_all list_keys (view properties.old)) }
{
    let command = take_texts(alloc, properties, "command")?;
    let env = take_optional_objects::<PairFields>(alloc, properties, "env")?;
    let dimensions = take_objects::<PairFields>(alloc, properties, "dimensions")?;
    let caches = take_optional_objects::<CacheFields>(alloc, properties, "caches")?;
    let inputs = take_optional_objects::<InputFields>(alloc, properties, "inputs")?;
    let outputs = take_optional_texts(alloc, properties, "outputs")?;
    Ok(RawLists {
        command,
        env,
        dimensions,
        caches,
        inputs,
        outputs,
    })
}

#[tactic(auto, unfolding(crate::specs::SliceProperties::grace_at))]
fn read_grace(alloc: Global, properties: &Value, key: &str) -> Result<i128, PropFault>
    ensures { Reads result (grace_at key.now (view properties.now)) }
{
    let secs = read_optional_number(alloc, properties, key)?;
    Ok(secs.unwrap_or(30))
}

#[tactic(auto, unfolding(crate::specs::SliceProperties::times_in))]
fn read_times(alloc: Global, properties: &Value) -> Result<RawTimes, PropFault>
    ensures { Reads result (times_in (view properties.now)) }
{
    let execution_timeout_secs = read_number(alloc, properties, "execution_timeout_secs")?;
    let io_timeout_secs = read_number(alloc, properties, "io_timeout_secs")?;
    let grace_period_secs = read_grace(alloc, properties, "grace_period_secs")?;
    Ok(RawTimes {
        execution_timeout_secs,
        io_timeout_secs,
        grace_period_secs,
    })
}

fn unknown_property(properties: &Value) -> Option<&str>
    ensures { option_map (λ s. s.now) result ≡ spec_unknown_key property_keys (view properties.now) }
{
    unknown_key(properties, &PROPERTY_KEYS)
}

#[tactic(auto, using(crate::proofs::Keys::properties_stay), unfolding(crate::specs::SliceProperties::properties_in))]
fn take_properties(alloc: Global, properties: &mut Value) -> Result<RawProperties, PropFault>
    ensures { Reads result (properties_in (view properties.old)) }
{
    let lists = take_lists(alloc, properties)?;
    let times = read_times(alloc, properties)?;
    let idempotent = read_flag(alloc, properties, "idempotent")?;
    match unknown_property(properties) {
        Some(name) => Err(broken(alloc, name, PropRule::Unknown)),
        None => Ok(RawProperties {
            command: lists.command,
            env: lists.env,
            dimensions: lists.dimensions,
            caches: lists.caches,
            inputs: lists.inputs,
            outputs: lists.outputs,
            execution_timeout_secs: times.execution_timeout_secs,
            io_timeout_secs: times.io_timeout_secs,
            grace_period_secs: times.grace_period_secs,
            idempotent,
        }),
    }
}

fn take_properties_below(
    alloc: Global,
    mut properties: Value,
    key: &str,
) -> Result<RawProperties, PropFault>
    ensures { Reads result (inside key.now (properties_in (view properties))) }
{
    match take_properties(alloc, &mut properties) {
        Ok(properties) => Ok(properties),
        Err(fault) => Err(below(alloc, key, fault)),
    }
}

/// The properties at a key, where they must be, not checked yet: they are taken out of the object.
#[tactic(auto, unfolding(crate::specs::SliceProperties::properties_at))]
pub fn take_properties_at(
    alloc: Global,
    mut object: Value,
    key: &str,
) -> Result<RawProperties, PropFault>
    ensures { Reads result (properties_at key.now (view object)) }
{
    let properties = take_object(alloc, &mut object, key)?;
    take_properties_below(alloc, properties, key)
}
