//! Lists, and values that may be missing.
ghost use Rattle.std.specs.Prelude.{◌≡◌, ◌+◌, map, length, None, IfOk, OnOk, refl};
ghost use Rattle.std.specs.List.{All};
ghost use Rattle.serde_json.specs.Find.{as_null};
ghost use Rattle.serde_json.specs.View.{view};
ghost use Rattle.line_parts.specs.Finding.{FindsValue, Finds};
ghost use Rattle.line_parts.specs.Lists.{each, items_in, or_null, null_or, list_data, list_in, HoldsOption, list_reads_back, list_has_no_float, list_is_shallow, option_reads_back, option_has_no_float, option_is_shallow};

use crate::LineFault;
use crate::line_field::{LineField, NotNull};
use dimensions::Seq;
use serde_json::Value;
use std::alloc::{AllocError, Global};

impl<T: NotNull> LineField for Option<T> {
    ghost data_of = { or_null T.data_of };

    ghost value_in = { null_or T.value_in };

    ghost Holds = { HoldsOption T.Holds };

    ghost levels = { T.levels };

    fn to_value(&self, alloc: Global) -> Result<Value, AllocError> {
        match self {
            Some(value) => value.to_value(alloc),
            None => Ok(Value::Null),
        }
    }

    fn from_value(alloc: Global, value: &Value) -> Result<Option<T>, LineFault> {
        if value.is_null() {
            return Ok(None);
        }
        match T::from_value(alloc, value) {
            Ok(value) => Ok(Some(value)),
            Err(fault) => Err(fault),
        }
    }

    ghost reads_back = { option_reads_back T.data_of T.value_in T.Holds T.never_null T.reads_back };

    ghost has_no_float = { option_has_no_float T.data_of T.has_no_float };

    ghost within_levels = { option_is_shallow T.data_of T.levels T.within_levels };
}

pub fn list_values<T: LineField>(alloc: Global, items: &[T]) -> Result<Vec<Value>, AllocError>
    ensures values { IfOk result (λ values. map view values.items ≡ map T.data_of items.now) }
    ensures holds { OnOk result (All T.Holds items.now) }
{
    let mut values = Vec::new(alloc);
    for item in items {
        values.push(item.to_value(alloc)?)?;
    }
    Ok(values)
}

fn read_items<T: LineField + Drop>(alloc: Global, items: &[Value]) -> Result<Vec<T>, LineFault>
    ensures { FindsValue (λ v. v.items) result (each T.value_in (map view items.now)) }
{
    let mut values = Vec::with_capacity(alloc, items.len())?;
    for item in items {
        values.push(T::from_value(alloc, item)?)?;
    }
    Ok(values)
}

#[tactic(auto, using(crate::specs::Lists::list_of_items))]
pub(crate) fn items_of(value: &Value) -> Result<&[Value], LineFault>
    ensures { FindsValue (λ vs. map view vs.now) result (items_in (view value.now)) }
{
    match value.as_array() {
        Some(values) => Ok(values.as_slice()),
        None => Err(LineFault::NotALine),
    }
}

impl<T: LineField + Drop> LineField for Seq<T> {
    ghost data_of = { list_data T.data_of };

    ghost value_in = { list_in T.value_in };

    ghost Holds = { All T.Holds };

    ghost levels = { T.levels + 1 };

    fn to_value(&self, alloc: Global) -> Result<Value, AllocError> {
        Ok(Value::Array(list_values(alloc, self.as_slice())?))
    }

    fn from_value(alloc: Global, value: &Value) -> Result<Seq<T>, LineFault> {
        let items = items_of(value)?;
        Ok(Seq::from_vec(read_items(alloc, items)?))
    }

    ghost reads_back = { list_reads_back T.data_of T.value_in T.Holds T.reads_back };

    ghost has_no_float = { list_has_no_float T.data_of T.has_no_float };

    ghost within_levels = { list_is_shallow T.data_of T.levels T.within_levels };
}

impl<T: LineField + Drop> NotNull for Seq<T> {
    ghost never_null = { λ xs. refl };
}
