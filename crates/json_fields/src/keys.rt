//! The keys of an object that aren't known.
ghost use Rattle.std.specs.Prelude.{◌≡◌, map, option_map};
ghost use Rattle.std.specs.List.{list_any};
ghost use Rattle.serde_json.specs.View.{view, members_view};
ghost use Rattle.dimensions.specs.Alike.{same};
ghost use Rattle.json_fields.specs.Fields.{is_unknown as spec_is_unknown, first_unknown as spec_first_unknown, unknown_key as spec_unknown_key};

use serde_json::{Map, Value};

fn is_known(known: &[&str], key: &str) -> bool
    ensures { result ≡ list_any (λ name. same name key.now) (map (λ s. s.now) known.now) }
{
    for name in known {
        if *name == key {
            return true;
        }
    }
    false
}

fn is_unknown(known: &[&str], key: &str, value: &Value) -> bool
    ensures { result ≡ spec_is_unknown (map (λ s. s.now) known.now) key.now (view value.now) }
{
    !is_known(known, key) && !value.is_null()
}

fn first_unknown<'m>(members: &'m Map<String, Value>, known: &[&str]) -> Option<&'m str>
    ensures { option_map (λ s. s.now) result ≡ spec_first_unknown (map (λ s. s.now) known.now) (members_view members.now.entries) }
{
    for (key, value) in members {
        if is_unknown(known, key.as_str(), value) {
            return Some(key.as_str());
        }
    }
    None
}

/// The first key of an object, in order of bytes, that isn't known and isn't null.
#[tactic(auto, unfolding(crate::specs::Fields::unknown_key))]
pub fn unknown_key<'v>(body: &'v Value, known: &[&str]) -> Option<&'v str>
    ensures { option_map (λ s. s.now) result ≡ spec_unknown_key (map (λ s. s.now) known.now) (view body.now) }
{
    match body.as_object() {
        Some(members) => first_unknown(members, known),
        None => None,
    }
}
