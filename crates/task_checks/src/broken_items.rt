//! The first broken rule of a slice's environment, caches and outputs.
ghost use Rattle.std.specs.Prelude.{◌≡◌};
ghost use Rattle.std.specs.List.{list_any};
ghost use Rattle.dimensions.specs.Alike.{same};
ghost use Rattle.dimensions.specs.Choosing.{when, ◌or_else◌};
ghost use Rattle.task_props.specs.ItemRules.{env_key_rule as spec_env_key_rule, cache_name_rule as spec_cache_name_rule, has_key as spec_has_key, has_name as spec_has_name, has_path as spec_has_path, broken_pair, broken_cache, broken_output, broken_env as spec_broken_env, broken_caches as spec_broken_caches, broken_outputs as spec_broken_outputs};
ghost use Rattle.task_props.specs.Paths.{path_rule as spec_path_rule};
ghost use Rattle.task_props.specs.declared.prop_rule.PropRule.TheVariants.{Repeated};

use crate::item_rule::{ItemRule, first_broken_item};
use crate::item_rules::{cache_name_rule, env_key_rule, env_value_rule, most_rule};
use crate::paths::path_rule;
use dimensions::Text;
use task_props::{Cache, PropRule, SliceField};

fn has_key(pairs: &[(Text, Text)], key: &Text) -> bool
    ensures { result ≡ list_any (spec_has_key key.now) pairs.now }
{
    pairs.iter().any(|pair| pair.0 == *key)
}

fn has_name(caches: &[Cache], name: &Text) -> bool
    ensures { result ≡ list_any (spec_has_name name.now) caches.now }
{
    caches.iter().any(|cache| cache.name == *name)
}

/// Whether a cache stands at the path.
pub fn has_path(caches: &[Cache], path: &Text) -> bool
    ensures { result ≡ list_any (spec_has_path path.now) caches.now }
{
    caches.iter().any(|cache| cache.path == *path)
}

fn is_among(path: &Text, paths: &[Text]) -> bool
    ensures { result ≡ list_any (same path.now) paths.now }
{
    paths.iter().any(|other| *path == *other)
}

/// The rule that a key breaks by itself, or by standing in an earlier pair already.
fn new_key_rule(earlier: &[(Text, Text)], key: &Text) -> Option<PropRule>
    ensures { result ≡ (spec_env_key_rule key.now or_else when (list_any (spec_has_key key.now) earlier.now) Repeated) }
{
    if let Some(rule) = env_key_rule(key.as_str()) {
        return Some(rule);
    }
    if has_key(earlier, key) {
        return Some(PropRule::Repeated);
    }
    None
}

fn new_name_rule(earlier: &[Cache], name: &Text) -> Option<PropRule>
    ensures { result ≡ (spec_cache_name_rule name.now or_else when (list_any (spec_has_name name.now) earlier.now) Repeated) }
{
    if let Some(rule) = cache_name_rule(name.as_str()) {
        return Some(rule);
    }
    if has_name(earlier, name) {
        return Some(PropRule::Repeated);
    }
    None
}

fn new_path_rule(earlier: &[Cache], path: &Text) -> Option<PropRule>
    ensures { result ≡ (spec_path_rule path.now or_else when (list_any (spec_has_path path.now) earlier.now) Repeated) }
{
    if let Some(rule) = path_rule(path.as_str()) {
        return Some(rule);
    }
    if has_path(earlier, path) {
        return Some(PropRule::Repeated);
    }
    None
}

fn new_output_rule(earlier: &[Text], path: &Text) -> Option<PropRule>
    ensures { result ≡ (spec_path_rule path.now or_else when (list_any (same path.now) earlier.now) Repeated) }
{
    if let Some(rule) = path_rule(path.as_str()) {
        return Some(rule);
    }
    if is_among(path, earlier) {
        return Some(PropRule::Repeated);
    }
    None
}

struct EachPair;

struct EachCache;

struct EachOutput;

impl ItemRule for EachPair {
    type Item = (Text, Text);

    ghost rule_of = { λ _. broken_pair };

    fn broken(
        &self,
        earlier: &[(Text, Text)],
        pair: &(Text, Text),
    ) -> Option<(SliceField, PropRule)> {
        let place = earlier.len() as u32;
        if let Some(rule) = new_key_rule(earlier, &pair.0) {
            return Some((SliceField::EnvKey { place }, rule));
        }
        let rule = env_value_rule(pair.1.as_str())?;
        Some((SliceField::EnvValue { place }, rule))
    }
}

impl ItemRule for EachCache {
    type Item = Cache;

    ghost rule_of = { λ _. broken_cache };

    fn broken(&self, earlier: &[Cache], cache: &Cache) -> Option<(SliceField, PropRule)> {
        let place = earlier.len() as u32;
        if let Some(rule) = new_name_rule(earlier, &cache.name) {
            return Some((SliceField::CacheName { place }, rule));
        }
        let rule = new_path_rule(earlier, &cache.path)?;
        Some((SliceField::CachePath { place }, rule))
    }
}

impl ItemRule for EachOutput {
    type Item = Text;

    ghost rule_of = { λ _. broken_output };

    fn broken(&self, earlier: &[Text], path: &Text) -> Option<(SliceField, PropRule)> {
        let place = earlier.len() as u32;
        let rule = new_output_rule(earlier, path)?;
        Some((SliceField::Output { place }, rule))
    }
}

pub(crate) fn broken_env(pairs: &[(Text, Text)]) -> Option<(SliceField, PropRule)>
    ensures { result ≡ spec_broken_env pairs.now }
{
    if let Some(rule) = most_rule(64, pairs.len()) {
        return Some((SliceField::Env, rule));
    }
    first_broken_item(&EachPair, pairs)
}

pub(crate) fn broken_caches(caches: &[Cache]) -> Option<(SliceField, PropRule)>
    ensures { result ≡ spec_broken_caches caches.now }
{
    if let Some(rule) = most_rule(8, caches.len()) {
        return Some((SliceField::Caches, rule));
    }
    first_broken_item(&EachCache, caches)
}

pub(crate) fn broken_outputs(paths: &[Text]) -> Option<(SliceField, PropRule)>
    ensures { result ≡ spec_broken_outputs paths.now }
{
    if let Some(rule) = most_rule(64, paths.len()) {
        return Some((SliceField::Outputs, rule));
    }
    first_broken_item(&EachOutput, paths)
}
