//! Lists of objects and of texts, taken out of an object item by item: no text is copied.
ghost use Rattle.std.specs.Prelude.{◌≡◌, map};
ghost use Rattle.serde_json.specs.View.{view};
ghost use Rattle.json_fields.specs.Readings.{Reads, each_from};
ghost use Rattle.json_fields.specs.Fields.{object_item, text_item, each_at, items_at};
ghost use Rattle.json_fields.specs.Taken.{without};

use crate::faults::{below, below_place, broken_at};
use crate::taken::{into_object, take_items, take_list};
use dimensions::{Seq, Text};
use serde_json::Value;
use std::alloc::Global;
use std::marker::PhantomData;
use task_props::{PropFault, PropRule};

/// How the fields of an object are taken out of it.
pub trait TakeFields {
    ghost use Rattle.std.specs.Prelude.{Result};
    ghost use Rattle.serde_json.specs.Data.{Data};
    ghost use Rattle.task_props.specs.declared.prop_fault.PropFault.{PropFault};

    /// What an object is read as.
    type Value: Drop;

    ghost fields: { Data → Result Self.Value PropFault };

    fn take_fields(alloc: Global, object: Value) -> Result<Self::Value, PropFault>
        ensures { Reads result (fields (view object)) };
}

/// How an item of a list becomes a value, at its place.
trait TakeItem {
    ghost use Rattle.std.specs.Prelude.{ℕ, Result};
    ghost use Rattle.serde_json.specs.Data.{Data};
    ghost use Rattle.task_props.specs.declared.prop_fault.PropFault.{PropFault};

    type Value: Drop;

    ghost item: { ℕ → Data → Result Self.Value PropFault };

    fn take_item(alloc: Global, place: usize, value: Value) -> Result<Self::Value, PropFault>
        ensures { Reads result (item place (view value)) };
}

/// Items that must be texts.
struct TextItems;

impl TakeItem for TextItems {
    type Value = Text;

    ghost item = { text_item };

    fn take_item(alloc: Global, place: usize, value: Value) -> Result<Text, PropFault> {
        match value {
            Value::String(text) => Ok(Text::from_string(text)),
            _ => Err(broken_at(alloc, place, PropRule::WrongType)),
        }
    }
}

/// Items that must be objects, of which the fields are taken.
struct ObjectItems<F> {
    fields: PhantomData<F>,
}

impl<F: TakeFields> TakeItem for ObjectItems<F> {
    type Value = F::Value;

    ghost item = { object_item F.fields };

    #[tactic(auto, unfolding(crate::specs::Fields::object_item))]
    fn take_item(alloc: Global, place: usize, value: Value) -> Result<F::Value, PropFault> {
        match into_object(value) {
            Ok(object) => match F::take_fields(alloc, object) {
                Ok(value) => Ok(value),
                Err(fault) => Err(below_place(alloc, place, fault)),
            },
            Err(rule) => Err(broken_at(alloc, place, rule)),
        }
    }
}

fn take_each<I: TakeItem>(alloc: Global, values: Vec<Value>) -> Result<Seq<I::Value>, PropFault>
    ensures { Reads result (each_from I.item 0 (map view values.items)) }
{
    let mut items = Vec::with_capacity(alloc, values.len())?;
    for value in values {
        let item = I::take_item(alloc, items.len(), value)?;
        items.push(item)?;
    }
    Ok(Seq::from_vec(items))
}

/// The items of a list that must be there.
fn take_required<I: TakeItem>(
    alloc: Global,
    body: &mut Value,
    key: &str,
) -> Result<Seq<I::Value>, PropFault>
    ensures read { Reads result (each_at I.item key.now (view body.old)) }
    ensures left { view body.new ≡ without key.now (view body.old) }
{
    let values = take_list(alloc, body, key)?;
    match take_each::<I>(alloc, values) {
        Ok(items) => Ok(items),
        Err(fault) => Err(below(alloc, key, fault)),
    }
}

/// The items of a list; an absent one is empty.
fn take_optional<I: TakeItem>(
    alloc: Global,
    body: &mut Value,
    key: &str,
) -> Result<Seq<I::Value>, PropFault>
    ensures read { Reads result (items_at I.item key.now (view body.old)) }
    ensures left { view body.new ≡ without key.now (view body.old) }
{
    let values = take_items(alloc, body, key)?;
    match take_each::<I>(alloc, values) {
        Ok(items) => Ok(items),
        Err(fault) => Err(below(alloc, key, fault)),
    }
}

/// The objects of a list that must be there.
pub fn take_objects<F: TakeFields>(
    alloc: Global,
    body: &mut Value,
    key: &str,
) -> Result<Seq<F::Value>, PropFault>
    ensures read { Reads result (each_at (object_item F.fields) key.now (view body.old)) }
    ensures left { view body.new ≡ without key.now (view body.old) }
{
    take_required::<ObjectItems<F>>(alloc, body, key)
}

/// The objects of a list; an absent one is empty.
pub fn take_optional_objects<F: TakeFields>(
    alloc: Global,
    body: &mut Value,
    key: &str,
) -> Result<Seq<F::Value>, PropFault>
    ensures read { Reads result (items_at (object_item F.fields) key.now (view body.old)) }
    ensures left { view body.new ≡ without key.now (view body.old) }
{
    take_optional::<ObjectItems<F>>(alloc, body, key)
}

/// The texts of a list that must be there.
pub fn take_texts(alloc: Global, body: &mut Value, key: &str) -> Result<Seq<Text>, PropFault>
    ensures read { Reads result (each_at text_item key.now (view body.old)) }
    ensures left { view body.new ≡ without key.now (view body.old) }
{
    take_required::<TextItems>(alloc, body, key)
}

/// The texts of a list; an absent one is empty.
pub fn take_optional_texts(
    alloc: Global,
    body: &mut Value,
    key: &str,
) -> Result<Seq<Text>, PropFault>
    ensures read { Reads result (items_at text_item key.now (view body.old)) }
    ensures left { view body.new ≡ without key.now (view body.old) }
{
    take_optional::<TextItems>(alloc, body, key)
}
