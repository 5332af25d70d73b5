//! Dimensions in a line: those that a task asks for, and those that a bot has.
ghost use Rattle.std.specs.Prelude.{◌≡◌, ⊤, map, refl, IfOk, OnOk, codes};
ghost use Rattle.serde_json.specs.View.{view};
ghost use Rattle.line_parts.specs.Finding.{Finds};
ghost use Rattle.line_parts.specs.Lists.{list_data};
ghost use Rattle.line_parts.specs.Parts.{pair_data, pair_in, values_data, values_of, values_in, set_in, dims_in};
ghost use Rattle.line_parts.specs.PartLaws.{pair_is_shallow, values_reads_back, values_has_no_float, values_is_shallow, set_reads_back, set_has_no_float, set_is_shallow, dims_reads_back, dims_has_no_float, dims_is_shallow};

use crate::LineFault;
use crate::line_field::{LineField, NotNull};
use crate::lists::{items_of, list_values};
use crate::members::{read_field, with_field};
use dimensions::{BotDims, DimSet, Seq, Text};
use serde_json::{Map, Value};
use std::alloc::{AllocError, Global};

/// A pair of a task, as `{"key": KEY, "value": VALUE}`.
impl LineField for (Text, Text) {
    ghost data_of = { pair_data };

    ghost value_in = { pair_in };

    ghost Holds = { λ pair. ⊤ };

    ghost levels = { 1 };

    fn to_value(&self, alloc: Global) -> Result<Value, AllocError> {
        let members = with_field(alloc, Map::new(alloc), "value", &self.1)?;
        let members = with_field(alloc, members, "key", &self.0)?;
        Ok(Value::Object(members))
    }

    fn from_value(alloc: Global, value: &Value) -> Result<(Text, Text), LineFault> {
        let first = read_field::<Text>(alloc, value, "key")?;
        let second = read_field::<Text>(alloc, value, "value")?;
        Ok((first, second))
    }

    ghost reads_back = { λ pair h. refl };

    ghost has_no_float = { λ pair. refl };

    ghost within_levels = { pair_is_shallow };
}

fn read_values(alloc: Global, items: &[Value]) -> Result<(Text, Seq<Text>), LineFault>
    ensures { Finds result (values_of (map view items.now)) }
{
    match items {
        [key, values] => {
            let key = Text::from_value(alloc, key)?;
            let values = Seq::<Text>::from_value(alloc, values)?;
            Ok((key, values))
        }
        _ => Err(LineFault::NotALine),
    }
}

/// A key of a bot with its values, as `[KEY, [VALUE, ..]]`.
impl LineField for (Text, Seq<Text>) {
    ghost data_of = { values_data };

    ghost value_in = { values_in };

    ghost Holds = { λ pair. ⊤ };

    ghost levels = { 2 };

    fn to_value(&self, alloc: Global) -> Result<Value, AllocError> {
        let key = self.0.to_value(alloc)?;
        let values = self.1.to_value(alloc)?;
        Ok(Value::Array(vec![in alloc; key, values]?))
    }

    fn from_value(alloc: Global, value: &Value) -> Result<(Text, Seq<Text>), LineFault> {
        let items = items_of(value)?;
        read_values(alloc, items)
    }

    ghost reads_back = { values_reads_back };

    ghost has_no_float = { values_has_no_float };

    ghost within_levels = { values_is_shallow };
}

/// The pairs in their order.
impl LineField for DimSet {
    ghost data_of = { list_data pair_data };

    ghost value_in = { set_in };

    ghost Holds = { λ set. ⊤ };

    ghost levels = { 2 };

    fn to_value(&self, alloc: Global) -> Result<Value, AllocError> {
        Ok(Value::Array(list_values::<(Text, Text)>(alloc, self.pairs())?))
    }

    fn from_value(alloc: Global, value: &Value) -> Result<DimSet, LineFault> {
        let pairs = Seq::<(Text, Text)>::from_value(alloc, value)?;
        Ok(DimSet::from_pairs(pairs))
    }

    ghost reads_back = { set_reads_back };

    ghost has_no_float = { set_has_no_float };

    ghost within_levels = { set_is_shallow };
}

/// The keys in their order.
impl LineField for BotDims {
    ghost data_of = { list_data values_data };

    ghost value_in = { dims_in };

    ghost Holds = { λ dims. ⊤ };

    ghost levels = { 3 };

    fn to_value(&self, alloc: Global) -> Result<Value, AllocError> {
        Ok(Value::Array(list_values::<(Text, Seq<Text>)>(alloc, self.pairs())?))
    }

    fn from_value(alloc: Global, value: &Value) -> Result<BotDims, LineFault> {
        let pairs = Seq::<(Text, Seq<Text>)>::from_value(alloc, value)?;
        Ok(BotDims::from_pairs(pairs))
    }

    ghost reads_back = { dims_reads_back };

    ghost has_no_float = { dims_has_no_float };

    ghost within_levels = { dims_is_shallow };
}

impl NotNull for BotDims {
    ghost never_null = { λ dims. refl };
}
