//! Lists of items.
ghost use Rattle.std.specs.Prelude.{◌≡◌, IfOk, map};
ghost use Rattle.serde_json.specs.Data.{put};
ghost use Rattle.serde_json.specs.View.{view, members_view};
ghost use Rattle.json_values.specs.Values.{list_data};

use crate::with;
use serde_json::{Map, Value};
use std::alloc::{AllocError, Global};

/// How an item of a list is shown.
pub trait ShowItem {
    ghost use Rattle.std.specs.Prelude.{◌≡◌, IfOk};
    ghost use Rattle.serde_json.specs.Data.{Data};
    ghost use Rattle.serde_json.specs.View.{view};

    type Item;

    // The value of an item.
    ghost value_of: { Self → Self.Item → Data };

    fn show(&self, alloc: Global, item: &Self::Item) -> Result<Value, AllocError>
        ensures { IfOk result (λ value. view value ≡ value_of self.now item.now) };
}

fn list_values<S: ShowItem>(
    alloc: Global,
    shown: &S,
    items: &[S::Item],
) -> Result<Vec<Value>, AllocError>
    ensures { IfOk result (λ values. map view values.items ≡ map (S.value_of shown.now) items.now) }
{
    let mut values = Vec::new(alloc);
    for item in items {
        values.push(shown.show(alloc, item)?)?;
    }
    Ok(values)
}

/// The list of the items, in their order.
pub fn list_value<S: ShowItem>(
    alloc: Global,
    shown: &S,
    items: &[S::Item],
) -> Result<Value, AllocError>
    ensures { IfOk result (λ value. view value ≡ list_data (S.value_of shown.now) items.now) }
{
    Ok(Value::Array(list_values(alloc, shown, items)?))
}

/// One more member of an object, the list of the items.
pub fn with_list<S: ShowItem>(
    alloc: Global,
    members: Map<String, Value>,
    key: &str,
    shown: &S,
    items: &[S::Item],
) -> Result<Map<String, Value>, AllocError>
    ensures { IfOk result (λ more. members_view more.entries ≡ put key.now (list_data (S.value_of shown.now) items.now) (members_view members.entries)) }
{
    with(alloc, members, key, list_value(alloc, shown, items)?)
}
