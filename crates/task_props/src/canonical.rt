//! The values of the canonical text.
ghost use Rattle.std.specs.Prelude.{◌≡◌, IfOk};
ghost use Rattle.serde_json.specs.Data.{string};
ghost use Rattle.serde_json.specs.View.{view};
ghost use Rattle.task_props.specs.Canonical.{pair_data, cache_data, input_data, canonical_data};

use crate::{Cache, File, ListValues, Properties, properties_value};
use dimensions::Text;
use json_values::{ShowItem, list_value};
use serde_json::Value;
use std::alloc::{AllocError, Global};

/// Keys with their values, each as `[key, value]`.
struct Pairs;

/// Caches, each as `[name, path]`.
struct Caches;

/// Files, each as `[path, digest, size]`, the digest in hexadecimal.
struct Files;

fn text_value(alloc: Global, text: &Text) -> Result<Value, AllocError>
    ensures { IfOk result (λ value. view value ≡ string text.now) }
{
    Value::try_from_str(alloc, text.as_str())
}

/// `[first, second]`.
fn two_texts(alloc: Global, first: &Text, second: &Text) -> Result<Value, AllocError>
    ensures { IfOk result (λ value. view value ≡ pair_data (first.now, second.now)) }
{
    let first = text_value(alloc, first)?;
    let second = text_value(alloc, second)?;
    Ok(Value::Array(vec![in alloc; first, second]?))
}

impl ShowItem for Pairs {
    type Item = (Text, Text);

    ghost value_of = { λ _. pair_data };

    fn show(&self, alloc: Global, pair: &(Text, Text)) -> Result<Value, AllocError> {
        two_texts(alloc, &pair.0, &pair.1)
    }
}

impl ShowItem for Caches {
    type Item = Cache;

    ghost value_of = { λ _. cache_data };

    fn show(&self, alloc: Global, cache: &Cache) -> Result<Value, AllocError> {
        two_texts(alloc, &cache.name, &cache.path)
    }
}

impl ShowItem for Files {
    type Item = File;

    ghost value_of = { λ _. input_data };

    fn show(&self, alloc: Global, file: &File) -> Result<Value, AllocError> {
        let path = text_value(alloc, &file.path)?;
        let digest = Value::String(hex::encode(alloc, file.digest.as_slice())?);
        let size = Value::from(file.size);
        Ok(Value::Array(vec![in alloc; path, digest, size]?))
    }
}

/// The object whose lists hold arrays.
pub(crate) fn canonical_value(alloc: Global, properties: &Properties) -> Result<Value, AllocError>
    ensures { IfOk result (λ value. view value ≡ canonical_data properties.now) }
{
    let lists = ListValues {
        caches: list_value(alloc, &Caches, properties.caches.as_slice())?,
        dimensions: list_value(alloc, &Pairs, properties.dimensions.pairs())?,
        env: list_value(alloc, &Pairs, properties.env.as_slice())?,
        inputs: list_value(alloc, &Files, properties.inputs.as_slice())?,
    };
    properties_value(alloc, properties, lists)
}
