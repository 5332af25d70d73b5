//! Which lists of a slice have been checked.
ghost use Rattle.std.specs.Prelude.{◌≡◌};
ghost use Rattle.std.specs.List.{list_all, list_any};
ghost use Rattle.dimensions.specs.Order.{is_rising_by};
ghost use Rattle.task_props.specs.ItemRules.{has_path as spec_has_path};
ghost use Rattle.task_props.specs.Digests.{is_digest as spec_is_digest};
ghost use Rattle.task_props.specs.Checked.{is_env as spec_is_env, are_caches as spec_are_caches, are_inputs as spec_are_inputs, are_outputs as spec_are_outputs, has_lists as spec_has_lists, has_times as spec_has_times, are_sound as spec_are_sound};
ghost use Rattle.task_props.specs.Sorted.{is_pair as spec_is_pair, is_cache as spec_is_cache, is_file as spec_is_file, is_path as spec_is_path, is_key_below, is_name_below, is_path_below, has_path_twice};

use dimensions::{Text, is_rising};
use task_checks::{
    LARGEST_CONTENT, broken_command, cache_name_rule, env_key_rule, env_value_rule, grace_rule,
    has_path, path_rule, timeout_rule,
};
use task_props::{Cache, File, Properties};

fn is_pair(pair: &(Text, Text)) -> bool
    ensures { result ≡ spec_is_pair pair.now }
{
    env_key_rule(pair.0.as_str()).is_none() && env_value_rule(pair.1.as_str()).is_none()
}

fn are_pairs(env: &[(Text, Text)]) -> bool
    ensures { result ≡ list_all spec_is_pair env.now }
{
    env.iter().all(|pair| is_pair(pair))
}

/// Whether each key is below the next.
#[tactic(auto, using(crate::proofs::Rising::is_rising_short))]
fn has_rising_keys(env: &[(Text, Text)]) -> bool
    ensures { result ≡ is_rising_by is_key_below env.now }
{
    let mut left = env;
    while left.len() >= 2 {
        if !left[0].0.cmp(&left[1].0).is_lt() {
            return false;
        }
        left = &left[1..];
    }
    true
}

fn is_env(env: &[(Text, Text)]) -> bool
    ensures { result ≡ spec_is_env env.now }
{
    env.len() <= 64 && are_pairs(env) && has_rising_keys(env)
}

fn is_path(path: &Text) -> bool
    ensures { result ≡ spec_is_path path.now }
{
    path_rule(path.as_str()).is_none()
}

fn is_cache(cache: &Cache) -> bool
    ensures { result ≡ spec_is_cache cache.now }
{
    cache_name_rule(cache.name.as_str()).is_none() && is_path(&cache.path)
}

fn are_each_caches(caches: &[Cache]) -> bool
    ensures { result ≡ list_all spec_is_cache caches.now }
{
    caches.iter().all(|cache| is_cache(cache))
}

/// Whether each name is below the next.
#[tactic(auto, using(crate::proofs::Rising::is_rising_short))]
fn has_rising_names(caches: &[Cache]) -> bool
    ensures { result ≡ is_rising_by is_name_below caches.now }
{
    let mut left = caches;
    while left.len() >= 2 {
        if !left[0].name.cmp(&left[1].name).is_lt() {
            return false;
        }
        left = &left[1..];
    }
    true
}

fn has_path_again(caches: &[Cache]) -> bool
    ensures { result ≡ has_path_twice caches.now }
{
    for place in 0..caches.len() {
        if has_path(&caches[place + 1..], &caches[place].path) {
            return true;
        }
    }
    false
}

fn are_caches(caches: &[Cache]) -> bool
    ensures { result ≡ spec_are_caches caches.now }
{
    caches.len() <= 8
        && are_each_caches(caches)
        && has_rising_names(caches)
        && !has_path_again(caches)
}

fn is_digest(bytes: &[u8]) -> bool
    ensures { result ≡ spec_is_digest bytes.now }
{
    bytes.len() == 32
}

fn is_file(file: &File) -> bool
    ensures { result ≡ spec_is_file file.now }
{
    is_path(&file.path) && is_digest(file.digest.as_slice()) && file.size <= LARGEST_CONTENT
}

pub(crate) fn are_files(files: &[File]) -> bool
    ensures { result ≡ list_all spec_is_file files.now }
{
    files.iter().all(|file| is_file(file))
}

/// Whether each path is below the next.
#[tactic(auto, using(crate::proofs::Rising::is_rising_short))]
fn has_rising_paths(files: &[File]) -> bool
    ensures { result ≡ is_rising_by is_path_below files.now }
{
    let mut left = files;
    while left.len() >= 2 {
        if !left[0].path.cmp(&left[1].path).is_lt() {
            return false;
        }
        left = &left[1..];
    }
    true
}

fn are_inputs(files: &[File]) -> bool
    ensures { result ≡ spec_are_inputs files.now }
{
    files.len() <= 64 && are_files(files) && has_rising_paths(files)
}

fn are_paths(paths: &[Text]) -> bool
    ensures { result ≡ list_all spec_is_path paths.now }
{
    paths.iter().all(|path| is_path(path))
}

fn are_outputs(paths: &[Text]) -> bool
    ensures { result ≡ spec_are_outputs paths.now }
{
    paths.len() <= 64 && are_paths(paths) && is_rising(paths)
}

fn has_lists(properties: &Properties) -> bool
    ensures { result ≡ spec_has_lists properties.now }
{
    is_env(properties.env.as_slice())
        && are_caches(properties.caches.as_slice())
        && are_inputs(properties.inputs.as_slice())
        && are_outputs(properties.outputs.as_slice())
}

fn has_times(properties: &Properties) -> bool
    ensures { result ≡ spec_has_times properties.now }
{
    timeout_rule(properties.execution_timeout_secs as i128).is_none()
        && timeout_rule(properties.io_timeout_secs as i128).is_none()
        && grace_rule(properties.grace_period_secs as i128).is_none()
}

/// Whether no rule on a field is broken.
pub(crate) fn are_sound(properties: &Properties) -> bool
    ensures { result ≡ spec_are_sound properties.now }
{
    broken_command(properties.command.as_slice()).is_none()
        && properties.dimensions.is_checked()
        && has_lists(properties)
        && has_times(properties)
}
