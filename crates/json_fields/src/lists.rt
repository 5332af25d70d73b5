//! Lists of objects and of texts, read item by item.
ghost use Rattle.std.specs.Prelude.{◌≡◌, map};
ghost use Rattle.serde_json.specs.View.{view};
ghost use Rattle.json_fields.specs.Readings.{Reads, each_from};
ghost use Rattle.json_fields.specs.Fields.{object_item, text_item, each_at, items_at};

use crate::faults::{below, below_place, broken_at};
use crate::fields::{object_of, read_items, read_list};
use dimensions::{Seq, Text};
use serde_json::Value;
use std::alloc::Global;
use std::marker::PhantomData;
use task_props::{PropFault, PropRule};

/// How the fields of an object are read.
pub trait ReadFields {
    ghost use Rattle.std.specs.Prelude.{Result};
    ghost use Rattle.serde_json.specs.Data.{Data};
    ghost use Rattle.task_props.specs.declared.prop_fault.PropFault.{PropFault};

    /// What an object is read as.
    type Value: Drop;

    ghost fields: { Data → Result Self.Value PropFault };

    fn read_fields(alloc: Global, object: &Value) -> Result<Self::Value, PropFault>
        ensures { Reads result (fields (view object.now)) };
}

/// How an item of a list is read at its place.
trait ReadItem {
    ghost use Rattle.std.specs.Prelude.{ℕ, Result};
    ghost use Rattle.serde_json.specs.Data.{Data};
    ghost use Rattle.task_props.specs.declared.prop_fault.PropFault.{PropFault};

    type Value: Drop;

    ghost item: { ℕ → Data → Result Self.Value PropFault };

    fn read_item(alloc: Global, place: usize, value: &Value) -> Result<Self::Value, PropFault>
        ensures { Reads result (item place (view value.now)) };
}

/// Items that must be texts.
struct TextItems;

impl ReadItem for TextItems {
    type Value = Text;

    ghost item = { text_item };

    fn read_item(alloc: Global, place: usize, value: &Value) -> Result<Text, PropFault> {
        match value.as_str() {
            Some(text) => Ok(Text::from_str(alloc, text)?),
            None => Err(broken_at(alloc, place, PropRule::WrongType)),
        }
    }
}

/// Items that must be objects, of which the fields are read.
struct ObjectItems<F> {
    fields: PhantomData<F>,
}

impl<F: ReadFields> ReadItem for ObjectItems<F> {
    type Value = F::Value;

    ghost item = { object_item F.fields };

    #[tactic(auto, unfolding(crate::specs::Fields::object_item))]
    fn read_item(alloc: Global, place: usize, value: &Value) -> Result<F::Value, PropFault> {
        match object_of(value) {
            Ok(object) => match F::read_fields(alloc, object) {
                Ok(value) => Ok(value),
                Err(fault) => Err(below_place(alloc, place, fault)),
            },
            Err(rule) => Err(broken_at(alloc, place, rule)),
        }
    }
}

fn read_each<I: ReadItem>(alloc: Global, values: &[Value]) -> Result<Seq<I::Value>, PropFault>
    ensures { Reads result (each_from I.item 0 (map view values.now)) }
{
    let mut items = Vec::new(alloc);
    for (place, value) in values.iter().enumerate() {
        items.push(I::read_item(alloc, place, value)?)?;
    }
    Ok(Seq::from_vec(items))
}

/// The items of a list that must be there.
fn read_required<I: ReadItem>(
    alloc: Global,
    body: &Value,
    key: &str,
) -> Result<Seq<I::Value>, PropFault>
    ensures { Reads result (each_at I.item key.now (view body.now)) }
{
    let values = read_list(alloc, body, key)?;
    match read_each::<I>(alloc, values) {
        Ok(items) => Ok(items),
        Err(fault) => Err(below(alloc, key, fault)),
    }
}

/// The items of a list; an absent one is empty.
fn read_optional<I: ReadItem>(
    alloc: Global,
    body: &Value,
    key: &str,
) -> Result<Seq<I::Value>, PropFault>
    ensures { Reads result (items_at I.item key.now (view body.now)) }
{
    let values = read_items(alloc, body, key)?;
    match read_each::<I>(alloc, values) {
        Ok(items) => Ok(items),
        Err(fault) => Err(below(alloc, key, fault)),
    }
}

/// The objects of a list that must be there.
pub fn read_objects<F: ReadFields>(
    alloc: Global,
    body: &Value,
    key: &str,
) -> Result<Seq<F::Value>, PropFault>
    ensures { Reads result (each_at (object_item F.fields) key.now (view body.now)) }
{
    read_required::<ObjectItems<F>>(alloc, body, key)
}

/// The objects of a list; an absent one is empty.
pub fn read_optional_objects<F: ReadFields>(
    alloc: Global,
    body: &Value,
    key: &str,
) -> Result<Seq<F::Value>, PropFault>
    ensures { Reads result (items_at (object_item F.fields) key.now (view body.now)) }
{
    read_optional::<ObjectItems<F>>(alloc, body, key)
}

/// The texts of a list that must be there.
pub fn read_texts(alloc: Global, body: &Value, key: &str) -> Result<Seq<Text>, PropFault>
    ensures { Reads result (each_at text_item key.now (view body.now)) }
{
    read_required::<TextItems>(alloc, body, key)
}

/// The texts of a list; an absent one is empty.
pub fn read_optional_texts(alloc: Global, body: &Value, key: &str) -> Result<Seq<Text>, PropFault>
    ensures { Reads result (items_at text_item key.now (view body.now)) }
{
    read_optional::<TextItems>(alloc, body, key)
}
