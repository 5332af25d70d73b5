//! The keys of a table, and what their values must be.
ghost use Rattle.std.specs.Prelude.{◌≡◌, map, option_map};
ghost use Rattle.std.specs.List.{list_any};
ghost use Rattle.toml.specs.Data.{get_member};
ghost use Rattle.toml.specs.View.{view, table_view, members_view};
ghost use Rattle.dimensions.specs.Alike.{same};
ghost use Rattle.dimensions.specs.Rules.{has_length_to as spec_has_length_to};
ghost use Rattle.json_fields.specs.Readings.{Gives};
ghost use Rattle.swarm_policy.specs.Fields.{text_of as spec_text_of, values_of as spec_values_of, is_unknown as spec_is_unknown, first_unknown as spec_first_unknown, unknown_key as spec_unknown_key};

use crate::SettingsRule;
use toml::{Table, Value};

/// The value of a key of the document's table.
pub(crate) fn value_at<'t>(table: &'t Table, key: &str) -> Option<&'t Value>
    ensures { option_map (λ v. view v.now) result ≡ get_member key.now (table_view table.now) }
{
    table.get(key)
}

pub(crate) fn text_of(value: &Value) -> Result<&str, SettingsRule>
    ensures { Gives (λ s. s.now) result (spec_text_of (view value.now)) }
{
    value.as_str().ok_or(SettingsRule::WrongType)
}

/// The items of a value that must be a list.
#[tactic(auto, using(crate::proofs::Lists::list_of_items))]
pub(crate) fn values_of(value: &Value) -> Result<&[Value], SettingsRule>
    ensures { Gives (λ vs. map view vs.now) result (spec_values_of (view value.now)) }
{
    match value.as_array() {
        Some(values) => Ok(values.as_slice()),
        None => Err(SettingsRule::WrongType),
    }
}

pub(crate) fn has_length_to(most: usize, text: &str) -> bool
    ensures { result ≡ spec_has_length_to most text.now }
{
    1 <= text.len() && text.len() <= most
}

fn is_known(known: &[&str], key: &str) -> bool
    ensures { result ≡ list_any (λ name. same name key.now) (map (λ s. s.now) known.now) }
{
    for name in known {
        if *name == key {
            return true;
        }
    }
    false
}

fn is_unknown(known: &[&str], key: &str) -> bool
    ensures { result ≡ spec_is_unknown (map (λ s. s.now) known.now) key.now }
{
    !is_known(known, key)
}

/// The first key of a table, in order of bytes, that isn't known.
pub(crate) fn first_unknown<'t>(table: &'t Table, known: &[&str]) -> Option<&'t str>
    ensures { option_map (λ s. s.now) result ≡ spec_first_unknown (map (λ s. s.now) known.now) (members_view table.now.entries) }
{
    for (key, _) in table {
        if is_unknown(known, key.as_str()) {
            return Some(key.as_str());
        }
    }
    None
}

/// The same of a value that is a table.
#[tactic(auto, unfolding(crate::specs::Fields::unknown_key))]
pub(crate) fn unknown_key<'v>(value: &'v Value, known: &[&str]) -> Option<&'v str>
    ensures { option_map (λ s. s.now) result ≡ spec_unknown_key (map (λ s. s.now) known.now) (view value.now) }
{
    match value.as_table() {
        Some(table) => first_unknown(table, known),
        None => None,
    }
}
