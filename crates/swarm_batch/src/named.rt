//! The body of a line, with the uuid of its line in place.
ghost use Rattle.std.specs.Prelude.{◌≡◌, ◌≤◌, IfOk, Some, None, option_map, option_and_then, string_bytes, codes};
ghost use Rattle.serde_json.specs.Data.{depth};
ghost use Rattle.serde_json.specs.Read.{max_depth};
ghost use Rattle.serde_json.specs.View.{view};
ghost use Rattle.json_fields.specs.Readings.{reading};
ghost use Rattle.swarm_batch.specs.Named.{named, named_in};

use json_fields::read_body;
use json_values::with_text;
use serde_json::Value;
use std::alloc::{AllocError, Global};

fn named_value(alloc: Global, value: Value, uuid: &str) -> Result<Option<Value>, AllocError>
    ensures { IfOk result (λ o. option_map view o ≡ named uuid.now (view value)) }
{
    match value {
        Value::Object(members) => Ok(Some(Value::Object(with_text(
            alloc,
            members,
            "request_uuid",
            uuid,
        )?))),
        _ => Ok(None),
    }
}

fn text_of(alloc: Global, value: &Value) -> Result<String, AllocError>
    requires { depth (view value.now) ≤ max_depth }
    ensures { IfOk result (λ text. reading (string_bytes text) ≡ Some (view value.now)) }
{
    value.to_string(alloc)
}

/// The line with this uuid in place, where the line is an object in JSON. It is read as the line is,
/// but for its uuid.
pub(crate) fn name_task(
    alloc: Global,
    line: &[u8],
    uuid: &str,
) -> Result<Option<String>, AllocError>
    ensures { IfOk result (λ made. option_and_then (λ text. reading (string_bytes text)) made ≡ named_in uuid.now line.now) }
{
    let Some(value) = read_body(alloc, line)? else {
        return Ok(None);
    };
    let Some(value) = named_value(alloc, value, uuid)? else {
        return Ok(None);
    };
    Ok(Some(text_of(alloc, &value)?))
}
