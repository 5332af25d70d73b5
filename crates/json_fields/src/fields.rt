//! The fields of a JSON object, by their keys.
ghost use Rattle.std.specs.Prelude.{◌≡◌, map, option_map};
ghost use Rattle.serde_json.specs.View.{view};
ghost use Rattle.json_fields.specs.Readings.{Gives, Reads, GivesUnlessMemory, at};
ghost use Rattle.json_fields.specs.Fields.{present as spec_present, number_of as spec_number_of, values_of as spec_values_of, object_of as spec_object_of, text_in as spec_text_in, required_text_in as spec_required_text_in, number_in as spec_number_in, optional_number_in as spec_optional_number_in, flag_in as spec_flag_in, list_in as spec_list_in, items_in as spec_items_in, text_at, required_text_at, number_at, optional_number_at, flag_at, list_at};

use crate::faults::broken;
use crate::numbers::text_number;
use dimensions::Text;
use serde_json::Value;
use std::alloc::Global;
use task_props::{PropFault, PropRule};

/// The value of a key, where null is as absent.
#[tactic(auto, unfolding(crate::specs::Fields::present))]
pub fn present<'v>(body: &'v Value, key: &str) -> Option<&'v Value>
    ensures { option_map (λ v. view v.now) result ≡ spec_present key.now (view body.now) }
{
    let value = body.get(key)?;
    if value.is_null() { None } else { Some(value) }
}

fn number_of(value: &Value) -> Result<i128, PropRule>
    ensures { Gives (λ z. z) result (spec_number_of (view value.now)) }
{
    match value {
        Value::Number(number) => number.as_i128().ok_or(PropRule::WrongType),
        Value::String(text) => text_number(text.as_str()),
        _ => Err(PropRule::WrongType),
    }
}

/// The items of a value that must be a list.
#[tactic(auto, using(crate::proofs::Arrays::list_of_items))]
pub fn values_of(value: &Value) -> Result<&[Value], PropRule>
    ensures { Gives (λ vs. map view vs.now) result (spec_values_of (view value.now)) }
{
    match value.as_array() {
        Some(values) => Ok(values.as_slice()),
        None => Err(PropRule::WrongType),
    }
}

/// A value that must be an object.
pub(crate) fn object_of(value: &Value) -> Result<&Value, PropRule>
    ensures { Gives (λ v. view v.now) result (spec_object_of (view value.now)) }
{
    if value.is_object() {
        Ok(value)
    } else {
        Err(PropRule::WrongType)
    }
}

#[tactic(auto, unfolding(crate::specs::Fields::text_in))]
fn text_in<'v>(body: &'v Value, key: &str) -> Result<&'v str, PropRule>
    ensures { Gives (λ s. s.now) result (spec_text_in key.now (view body.now)) }
{
    match present(body, key) {
        None => Ok(""),
        Some(value) => value.as_str().ok_or(PropRule::WrongType),
    }
}

#[tactic(auto, unfolding(crate::specs::Fields::required_text_in))]
fn required_text_in<'v>(body: &'v Value, key: &str) -> Result<&'v str, PropRule>
    ensures { Gives (λ s. s.now) result (spec_required_text_in key.now (view body.now)) }
{
    match present(body, key) {
        None => Err(PropRule::Missing),
        Some(value) => value.as_str().ok_or(PropRule::WrongType),
    }
}

#[tactic(auto, unfolding(crate::specs::Fields::number_in))]
fn number_in(body: &Value, key: &str) -> Result<i128, PropRule>
    ensures { Gives (λ z. z) result (spec_number_in key.now (view body.now)) }
{
    match present(body, key) {
        None => Ok(0),
        Some(value) => number_of(value),
    }
}

#[tactic(auto, unfolding(crate::specs::Fields::optional_number_in))]
fn optional_number_in(body: &Value, key: &str) -> Result<Option<i128>, PropRule>
    ensures { Gives (λ o. o) result (spec_optional_number_in key.now (view body.now)) }
{
    match present(body, key) {
        None => Ok(None),
        Some(value) => match number_of(value) {
            Ok(number) => Ok(Some(number)),
            Err(rule) => Err(rule),
        },
    }
}

#[tactic(auto, unfolding(crate::specs::Fields::flag_in))]
fn flag_in(body: &Value, key: &str) -> Result<bool, PropRule>
    ensures { Gives (λ b. b) result (spec_flag_in key.now (view body.now)) }
{
    match present(body, key) {
        None => Ok(false),
        Some(value) => value.as_bool().ok_or(PropRule::WrongType),
    }
}

/// A list that must be there.
#[tactic(auto, unfolding(crate::specs::Fields::list_in))]
pub fn list_in<'v>(body: &'v Value, key: &str) -> Result<&'v [Value], PropRule>
    ensures { Gives (λ vs. map view vs.now) result (spec_list_in key.now (view body.now)) }
{
    match present(body, key) {
        None => Err(PropRule::Missing),
        Some(value) => values_of(value),
    }
}

/// The items of a list; an absent one is empty.
#[tactic(auto, unfolding(crate::specs::Fields::items_in))]
fn items_in<'v>(body: &'v Value, key: &str) -> Result<&'v [Value], PropRule>
    ensures { Gives (λ vs. map view vs.now) result (spec_items_in key.now (view body.now)) }
{
    match present(body, key) {
        None => Ok(&[]),
        Some(value) => values_of(value),
    }
}

/// A text; an absent one is empty.
pub fn read_text(alloc: Global, body: &Value, key: &str) -> Result<Text, PropFault>
    ensures { Reads result (text_at key.now (view body.now)) }
{
    match text_in(body, key) {
        Ok(text) => Ok(Text::from_str(alloc, text)?),
        Err(rule) => Err(broken(alloc, key, rule)),
    }
}

/// A text that must be there.
pub fn read_required_text<'v>(
    alloc: Global,
    body: &'v Value,
    key: &str,
) -> Result<&'v str, PropFault>
    ensures { GivesUnlessMemory (λ s. s.now) result (required_text_at key.now (view body.now)) }
{
    match required_text_in(body, key) {
        Ok(text) => Ok(text),
        Err(rule) => Err(broken(alloc, key, rule)),
    }
}

/// A whole number; an absent one is 0.
pub fn read_number(alloc: Global, body: &Value, key: &str) -> Result<i128, PropFault>
    ensures { Reads result (number_at key.now (view body.now)) }
{
    match number_in(body, key) {
        Ok(number) => Ok(number),
        Err(rule) => Err(broken(alloc, key, rule)),
    }
}

/// A whole number, where there is one.
pub fn read_optional_number(
    alloc: Global,
    body: &Value,
    key: &str,
) -> Result<Option<i128>, PropFault>
    ensures { Reads result (optional_number_at key.now (view body.now)) }
{
    match optional_number_in(body, key) {
        Ok(number) => Ok(number),
        Err(rule) => Err(broken(alloc, key, rule)),
    }
}

/// A truth value; an absent one is false.
pub fn read_flag(alloc: Global, body: &Value, key: &str) -> Result<bool, PropFault>
    ensures { Reads result (flag_at key.now (view body.now)) }
{
    match flag_in(body, key) {
        Ok(flag) => Ok(flag),
        Err(rule) => Err(broken(alloc, key, rule)),
    }
}

/// The items of a list that must be there.
pub(crate) fn read_list<'v>(
    alloc: Global,
    body: &'v Value,
    key: &str,
) -> Result<&'v [Value], PropFault>
    ensures { GivesUnlessMemory (λ vs. map view vs.now) result (list_at key.now (view body.now)) }
{
    match list_in(body, key) {
        Ok(values) => Ok(values),
        Err(rule) => Err(broken(alloc, key, rule)),
    }
}

/// The items of a list; an absent one is empty.
pub(crate) fn read_items<'v>(
    alloc: Global,
    body: &'v Value,
    key: &str,
) -> Result<&'v [Value], PropFault>
    ensures { GivesUnlessMemory (λ vs. map view vs.now) result (at key.now (spec_items_in key.now (view body.now))) }
{
    match items_in(body, key) {
        Ok(values) => Ok(values),
        Err(rule) => Err(broken(alloc, key, rule)),
    }
}
