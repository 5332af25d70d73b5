//! One more member of an object. A key that is there already gets the new value.
ghost use Rattle.std.specs.Prelude.{◌≡◌, IfOk};
ghost use Rattle.std.specs.Option.{option_map};
ghost use Rattle.serde_json.specs.Data.{boolean, string, put};
ghost use Rattle.serde_json.specs.View.{view, members_view};
ghost use Rattle.json_values.specs.Values.{whole, signed, or_null};

use serde_json::{Map, Value};
use std::alloc::{AllocError, Global};

pub fn with(
    alloc: Global,
    members: Map<String, Value>,
    key: &str,
    value: Value,
) -> Result<Map<String, Value>, AllocError>
    ensures { IfOk result (λ more. members_view more.entries ≡ put key.now (view value) (members_view members.entries)) }
{
    let mut members = members;
    serde_json::put(&mut members, alloc, key, value)?;
    Ok(members)
}

pub fn with_text(
    alloc: Global,
    members: Map<String, Value>,
    key: &str,
    text: &str,
) -> Result<Map<String, Value>, AllocError>
    ensures { IfOk result (λ more. members_view more.entries ≡ put key.now (string text.now) (members_view members.entries)) }
{
    with(alloc, members, key, Value::try_from_str(alloc, text)?)
}

pub fn with_whole(
    alloc: Global,
    members: Map<String, Value>,
    key: &str,
    number: u64,
) -> Result<Map<String, Value>, AllocError>
    ensures { IfOk result (λ more. members_view more.entries ≡ put key.now (whole number) (members_view members.entries)) }
{
    with(alloc, members, key, Value::from(number))
}

pub fn with_flag(
    alloc: Global,
    members: Map<String, Value>,
    key: &str,
    flag: bool,
) -> Result<Map<String, Value>, AllocError>
    ensures { IfOk result (λ more. members_view more.entries ≡ put key.now (boolean flag) (members_view members.entries)) }
{
    with(alloc, members, key, Value::Bool(flag))
}

fn whole_or_null(number: Option<u64>) -> Value
    ensures { view result ≡ or_null whole number }
{
    match number {
        Some(n) => Value::from(n),
        None => Value::Null,
    }
}

pub fn with_whole_or_null(
    alloc: Global,
    members: Map<String, Value>,
    key: &str,
    number: Option<u64>,
) -> Result<Map<String, Value>, AllocError>
    ensures { IfOk result (λ more. members_view more.entries ≡ put key.now (or_null whole number) (members_view members.entries)) }
{
    with(alloc, members, key, whole_or_null(number))
}

fn signed_or_null(number: Option<i32>) -> Value
    ensures { view result ≡ or_null signed number }
{
    match number {
        Some(n) => Value::from(n),
        None => Value::Null,
    }
}

pub fn with_signed_or_null(
    alloc: Global,
    members: Map<String, Value>,
    key: &str,
    number: Option<i32>,
) -> Result<Map<String, Value>, AllocError>
    ensures { IfOk result (λ more. members_view more.entries ≡ put key.now (or_null signed number) (members_view members.entries)) }
{
    with(alloc, members, key, signed_or_null(number))
}

fn text_or_null(alloc: Global, text: Option<&str>) -> Result<Value, AllocError>
    ensures { IfOk result (λ value. view value ≡ or_null string (option_map (λ t. t.now) text.entry)) }
{
    match text {
        Some(text) => Value::try_from_str(alloc, text),
        None => Ok(Value::Null),
    }
}

pub fn with_text_or_null(
    alloc: Global,
    members: Map<String, Value>,
    key: &str,
    text: Option<&str>,
) -> Result<Map<String, Value>, AllocError>
    ensures { IfOk result (λ more. members_view more.entries ≡ put key.now (or_null string (option_map (λ t. t.now) text.entry)) (members_view members.entries)) }
{
    with(alloc, members, key, text_or_null(alloc, text)?)
}
