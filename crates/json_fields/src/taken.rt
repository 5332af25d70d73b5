//! The fields of an object, taken out of it by their keys: no text is copied.
ghost use Rattle.std.specs.Prelude.{◌≡◌, map, option_map, option_and_then};
ghost use Rattle.serde_json.specs.Find.{get_member};
ghost use Rattle.serde_json.specs.View.{view, members_view};
ghost use Rattle.json_fields.specs.Readings.{Gives, GivesUnlessMemory, Reads, at};
ghost use Rattle.json_fields.specs.Fields.{present, unless_null as spec_unless_null, text_of as spec_text_of, values_of as spec_values_of, object_of as spec_object_of, text_in as spec_text_in, required_text_in as spec_required_text_in, list_in as spec_list_in, items_in as spec_items_in, object_in as spec_object_in, text_at, required_text_at, list_at, object_at};
ghost use Rattle.json_fields.specs.Taken.{without, without_member};

use crate::faults::broken;
use dimensions::Text;
use serde_json::{Map, Value};
use std::alloc::Global;
use task_props::{PropFault, PropRule};

/// The member of a key, whatever its value.
fn remove(members: &mut Map<String, Value>, key: &str) -> Option<Value>
    ensures value { option_map view result ≡ get_member key.now (members_view members.old.entries) }
    ensures left { members_view members.new.entries ≡ without_member key.now (members_view members.old.entries) }
{
    members.remove(key)
}

fn unless_null(value: Option<Value>) -> Option<Value>
    ensures { option_map view result ≡ option_and_then spec_unless_null (option_map view value) }
{
    let value = value?;
    if value.is_null() { None } else { Some(value) }
}

/// The value of a key, where null is as absent.
#[tactic(auto, unfolding(crate::specs::Fields::present, crate::specs::Taken::without))]
fn take(body: &mut Value, key: &str) -> Option<Value>
    ensures value { option_map view result ≡ present key.now (view body.old) }
    ensures left { view body.new ≡ without key.now (view body.old) }
{
    match body.take() {
        Value::Object(mut members) => {
            let value = remove(&mut members, key);
            *body = Value::Object(members);
            unless_null(value)
        }
        other => {
            *body = other;
            None
        }
    }
}

fn text_of(value: Value) -> Result<Text, PropRule>
    ensures { Gives (λ t. t) result (spec_text_of (view value)) }
{
    match value {
        Value::String(text) => Ok(Text::from_string(text)),
        _ => Err(PropRule::WrongType),
    }
}

fn values_of(value: Value) -> Result<Vec<Value>, PropRule>
    ensures { Gives (λ vs. map view vs.items) result (spec_values_of (view value)) }
{
    match value {
        Value::Array(values) => Ok(values),
        _ => Err(PropRule::WrongType),
    }
}

/// A value that must be an object.
pub(crate) fn into_object(value: Value) -> Result<Value, PropRule>
    ensures { Gives view result (spec_object_of (view value)) }
{
    if value.is_object() {
        Ok(value)
    } else {
        Err(PropRule::WrongType)
    }
}

#[tactic(auto, unfolding(crate::specs::Fields::text_in))]
fn text_in(alloc: Global, body: &mut Value, key: &str) -> Result<Text, PropRule>
    ensures read { Gives (λ t. t) result (spec_text_in key.now (view body.old)) }
    ensures left { view body.new ≡ without key.now (view body.old) }
{
    match take(body, key) {
        None => Ok(Text::new(alloc)),
        Some(value) => text_of(value),
    }
}

#[tactic(auto, unfolding(crate::specs::Fields::required_text_in))]
fn required_text_in(body: &mut Value, key: &str) -> Result<Text, PropRule>
    ensures read { Gives (λ t. t) result (spec_required_text_in key.now (view body.old)) }
    ensures left { view body.new ≡ without key.now (view body.old) }
{
    match take(body, key) {
        None => Err(PropRule::Missing),
        Some(value) => text_of(value),
    }
}

#[tactic(auto, unfolding(crate::specs::Fields::list_in))]
fn list_in(body: &mut Value, key: &str) -> Result<Vec<Value>, PropRule>
    ensures read { Gives (λ vs. map view vs.items) result (spec_list_in key.now (view body.old)) }
    ensures left { view body.new ≡ without key.now (view body.old) }
{
    match take(body, key) {
        None => Err(PropRule::Missing),
        Some(value) => values_of(value),
    }
}

#[tactic(auto, unfolding(crate::specs::Fields::items_in))]
fn items_in(alloc: Global, body: &mut Value, key: &str) -> Result<Vec<Value>, PropRule>
    ensures read { Gives (λ vs. map view vs.items) result (spec_items_in key.now (view body.old)) }
    ensures left { view body.new ≡ without key.now (view body.old) }
{
    match take(body, key) {
        None => Ok(Vec::new(alloc)),
        Some(value) => values_of(value),
    }
}

#[tactic(auto, unfolding(crate::specs::Fields::object_in))]
fn object_in(body: &mut Value, key: &str) -> Result<Value, PropRule>
    ensures read { Gives view result (spec_object_in key.now (view body.old)) }
    ensures left { view body.new ≡ without key.now (view body.old) }
{
    match take(body, key) {
        None => Err(PropRule::Missing),
        Some(value) => into_object(value),
    }
}

/// A text; an absent one is empty.
pub fn take_text(alloc: Global, body: &mut Value, key: &str) -> Result<Text, PropFault>
    ensures read { Reads result (text_at key.now (view body.old)) }
    ensures left { view body.new ≡ without key.now (view body.old) }
{
    match text_in(alloc, body, key) {
        Ok(text) => Ok(text),
        Err(rule) => Err(broken(alloc, key, rule)),
    }
}

/// A text that must be there.
pub fn take_required_text(alloc: Global, body: &mut Value, key: &str) -> Result<Text, PropFault>
    ensures read { Reads result (required_text_at key.now (view body.old)) }
    ensures left { view body.new ≡ without key.now (view body.old) }
{
    match required_text_in(body, key) {
        Ok(text) => Ok(text),
        Err(rule) => Err(broken(alloc, key, rule)),
    }
}

/// The items of a list that must be there.
pub(crate) fn take_list(alloc: Global, body: &mut Value, key: &str) -> Result<Vec<Value>, PropFault>
    ensures read { GivesUnlessMemory (λ vs. map view vs.items) result (list_at key.now (view body.old)) }
    ensures left { view body.new ≡ without key.now (view body.old) }
{
    match list_in(body, key) {
        Ok(values) => Ok(values),
        Err(rule) => Err(broken(alloc, key, rule)),
    }
}

/// The items of a list; an absent one is empty.
pub(crate) fn take_items(
    alloc: Global,
    body: &mut Value,
    key: &str,
) -> Result<Vec<Value>, PropFault>
    ensures read { GivesUnlessMemory (λ vs. map view vs.items) result (at key.now (spec_items_in key.now (view body.old))) }
    ensures left { view body.new ≡ without key.now (view body.old) }
{
    match items_in(alloc, body, key) {
        Ok(values) => Ok(values),
        Err(rule) => Err(broken(alloc, key, rule)),
    }
}

/// An object that must be there.
pub fn take_object(alloc: Global, body: &mut Value, key: &str) -> Result<Value, PropFault>
    ensures read { GivesUnlessMemory view result (object_at key.now (view body.old)) }
    ensures left { view body.new ≡ without key.now (view body.old) }
{
    match object_in(body, key) {
        Ok(value) => Ok(value),
        Err(rule) => Err(broken(alloc, key, rule)),
    }
}
