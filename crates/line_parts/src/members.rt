//! Members of JSON objects that are written, and fields of those that are read.
ghost use Rattle.std.specs.Prelude.{◌≡◌, IfOk, OnOk, option_map, codes};
ghost use Rattle.std.specs.Option.{option_and_then};
ghost use Rattle.serde_json.specs.Data.{put};
ghost use Rattle.serde_json.specs.Find.{get, as_str};
ghost use Rattle.serde_json.specs.Read.{read};
ghost use Rattle.serde_json.specs.View.{view, members_view};
ghost use Rattle.line_parts.specs.Finding.{Finds, FindsValue, field};

use crate::LineFault;
use crate::line_field::LineField;
use json_values::with;
use serde_json::{Map, Value};
use std::alloc::{AllocError, Global};

/// The members and one for this field, in the order of the keys.
pub fn with_field<T: LineField>(
    alloc: Global,
    members: Map<String, Value>,
    key: &str,
    field: &T,
) -> Result<Map<String, Value>, AllocError>
    ensures value { IfOk result (λ more. members_view more.entries ≡ put key.now (T.data_of field.now) (members_view members.entries)) }
    ensures holds { OnOk result (T.Holds field.now) }
{
    let value = field.to_value(alloc)?;
    with(alloc, members, key, value)
}

/// The value of the member at a key.
pub fn value_at<'v>(value: &'v Value, key: &str) -> Result<&'v Value, LineFault>
    ensures { FindsValue (λ v. view v.now) result (get key.now (view value.now)) }
{
    value.get(key).ok_or(LineFault::NotALine)
}

/// The field at a key.
pub fn read_field<T: LineField>(alloc: Global, value: &Value, key: &str) -> Result<T, LineFault>
    ensures { Finds result (field T.value_in key.now (view value.now)) }
{
    let value = value_at(value, key)?;
    T::from_value(alloc, value)
}

/// The JSON value of a text.
pub fn value_of(alloc: Global, text: &str) -> Result<Value, LineFault>
    ensures { FindsValue view result (read text.now) }
{
    match Value::from_str(alloc, text) {
        Ok(value) => Ok(value),
        Err(error) => {
            if error.is_memory() {
                Err(LineFault::Memory)
            } else {
                Err(LineFault::NotALine)
            }
        }
    }
}

/// The name of the kind, which stands under the key `k`.
pub fn name_of(value: &Value) -> Result<&str, LineFault>
    ensures { FindsValue (λ s. s.now) result (field as_str (codes "k") (view value.now)) }
{
    let name = value_at(value, "k")?;
    name.as_str().ok_or(LineFault::NotALine)
}
