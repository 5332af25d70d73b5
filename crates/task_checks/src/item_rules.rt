//! The rules on the items of a slice's lists, one function each.
ghost use Rattle.std.specs.Prelude.{◌≡◌, ◌≤◌, length};
ghost use Rattle.std.specs.List.{list_any, list_all};
ghost use Rattle.dimensions.specs.Rules.{begins_with_digit as spec_begins_with_digit};
ghost use Rattle.task_props.specs.ItemRules.{most_rule as spec_most_rule, is_env_byte as spec_is_env_byte, is_cache_byte as spec_is_cache_byte, env_key_rule as spec_env_key_rule, env_value_rule as spec_env_value_rule, cache_name_rule as spec_cache_name_rule, has_key, has_name, has_path};

use crate::field_rules::has_nul;
use dimensions::Text;
use task_props::{Cache, PropRule};

pub(crate) fn most_rule(most: usize, count: usize) -> Option<PropRule>
    ensures { result ≡ spec_most_rule most count }
{
    if count > most {
        Some(PropRule::Count)
    } else {
        None
    }
}

fn is_env_byte(byte: u8) -> bool
    ensures { result ≡ spec_is_env_byte byte }
{
    byte.is_ascii_alphanumeric() || byte == b'_'
}

fn are_env_bytes(key: &[u8]) -> bool
    ensures { result ≡ list_all spec_is_env_byte key.now }
{
    key.iter().all(|byte| is_env_byte(*byte))
}

fn begins_with_digit(text: &[u8]) -> bool
    ensures { result ≡ spec_begins_with_digit text.now }
{
    match text.first() {
        Some(byte) => byte.is_ascii_digit(),
        None => false,
    }
}

/// The rule that a key of the environment breaks by itself.
pub fn env_key_rule(key: &str) -> Option<PropRule>
    ensures { result ≡ spec_env_key_rule key.now }
{
    if key.is_empty() {
        return Some(PropRule::Count);
    }
    if key.len() > 64 {
        return Some(PropRule::Count);
    }
    if !are_env_bytes(key.as_bytes()) || begins_with_digit(key.as_bytes()) {
        return Some(PropRule::Grammar);
    }
    None
}

pub fn env_value_rule(value: &str) -> Option<PropRule>
    ensures { result ≡ spec_env_value_rule value.now }
{
    if value.len() > 4096 {
        return Some(PropRule::Count);
    }
    if has_nul(value) {
        return Some(PropRule::Grammar);
    }
    None
}

fn is_cache_byte(byte: u8) -> bool
    ensures { result ≡ spec_is_cache_byte byte }
{
    byte.is_ascii_lowercase() || byte.is_ascii_digit() || byte == b'_'
}

fn are_cache_bytes(name: &[u8]) -> bool
    ensures { result ≡ list_all spec_is_cache_byte name.now }
{
    name.iter().all(|byte| is_cache_byte(*byte))
}

/// The rule that the name of a cache breaks by itself.
pub fn cache_name_rule(name: &str) -> Option<PropRule>
    ensures { result ≡ spec_cache_name_rule name.now }
{
    if name.is_empty() {
        return Some(PropRule::Count);
    }
    if name.len() > 64 {
        return Some(PropRule::Count);
    }
    if !are_cache_bytes(name.as_bytes()) {
        return Some(PropRule::Grammar);
    }
    None
}
