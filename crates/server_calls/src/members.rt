//! The members that the replies share.
ghost use Rattle.std.specs.Prelude.{◌≡◌, ◌≤◌, map, IfOk, IfSome, Err};
ghost use Rattle.serde_json.specs.View.{view};
ghost use Rattle.json_fields.specs.Readings.{Gives, GivesUnlessMemory, Reads};
ghost use Rattle.json_fields.specs.Fields.{present as spec_present, or_absent, flag_of, required_text_at};
ghost use Rattle.task_props.specs.declared.prop_rule.PropRule.TheVariants.{Missing};
ghost use Rattle.server_calls.specs.Members.{with_keys, flag_in, whole_in, state_in, digest_in, some_whole, whole_or_none, text_or_none, file_in};

use dimensions::Text;
use json_fields::{
    ReadFields, broken, present, read_digest_at, read_optional_number, read_required_text,
    read_whole, unknown_key,
};
use serde_json::Value;
use std::alloc::Global;
use swarm_model::TaskState;
use task_props::{Digest, File, PropFault, PropRule};

/// An object that has no members but those of these keys.
#[tactic(auto, unfolding(crate::specs::Members::with_keys))]
pub(crate) fn check_keys<'v>(
    alloc: Global,
    body: &'v Value,
    keys: &[&str],
) -> Result<&'v Value, PropFault>
    ensures { GivesUnlessMemory (λ v. view v.now) result (with_keys (map (λ s. s.now) keys.now) (view body.now)) }
{
    if !body.is_object() {
        return Err(broken(alloc, "", PropRule::WrongType));
    }
    match unknown_key(body, keys) {
        Some(key) => Err(broken(alloc, key, PropRule::Unknown)),
        None => Ok(body),
    }
}

fn flag_of_key(body: &Value, key: &str) -> Result<bool, PropRule>
    ensures { Gives (λ b. b) result (or_absent flag_of (Err Missing) (spec_present key.now (view body.now))) }
{
    match present(body, key) {
        None => Err(PropRule::Missing),
        Some(value) => value.as_bool().ok_or(PropRule::WrongType),
    }
}

/// A truth value that must be there.
#[tactic(auto, unfolding(crate::specs::Members::flag_in))]
pub(crate) fn read_flag(alloc: Global, body: &Value, key: &str) -> Result<bool, PropFault>
    ensures { Reads result (flag_in key.now (view body.now)) }
{
    match flag_of_key(body, key) {
        Ok(flag) => Ok(flag),
        Err(rule) => Err(broken(alloc, key, rule)),
    }
}

/// A whole number up to the highest that must be there.
#[tactic(auto, unfolding(crate::specs::Members::whole_in))]
pub(crate) fn read_number(
    alloc: Global,
    body: &Value,
    key: &str,
    highest: u64,
) -> Result<u64, PropFault>
    ensures exact { Reads result (whole_in key.now highest (view body.now)) }
    ensures at_most { IfOk result (λ n. n ≤ highest) }
{
    match read_optional_number(alloc, body, key)? {
        Some(number) => read_whole(alloc, key, 0, highest, number),
        None => Err(broken(alloc, key, PropRule::Missing)),
    }
}

/// The same of 32 bits.
pub(crate) fn read_short_number(alloc: Global, body: &Value, key: &str) -> Result<u32, PropFault>
    ensures { Reads result (whole_in key.now 4294967295 (view body.now)) }
{
    let number = read_number(alloc, body, key, 4_294_967_295)?;
    Ok(number as u32)
}

/// The size of a content.
pub(crate) fn read_size(alloc: Global, body: &Value, key: &str) -> Result<u32, PropFault>
    ensures { Reads result (whole_in key.now 16777216 (view body.now)) }
{
    let size = read_number(alloc, body, key, 16_777_216)?;
    Ok(size as u32)
}

/// A text that must be there, to be kept.
pub(crate) fn read_kept_text(alloc: Global, body: &Value, key: &str) -> Result<Text, PropFault>
    ensures { Reads result (required_text_at key.now (view body.now)) }
{
    match read_required_text(alloc, body, key) {
        Ok(text) => Ok(Text::from_str(alloc, text)?),
        Err(fault) => Err(fault),
    }
}

/// The state of a task.
#[tactic(auto, unfolding(crate::specs::Members::state_in))]
pub(crate) fn read_state(alloc: Global, body: &Value) -> Result<TaskState, PropFault>
    ensures { Reads result (state_in (view body.now)) }
{
    let name = read_required_text(alloc, body, "state")?;
    match TaskState::from_name(name) {
        Some(state) => Ok(state),
        None => Err(broken(alloc, "state", PropRule::Grammar)),
    }
}

/// The digest of a content.
#[tactic(auto, unfolding(crate::specs::Members::digest_in))]
pub(crate) fn read_digest(alloc: Global, body: &Value, key: &str) -> Result<Digest, PropFault>
    ensures { Reads result (digest_in key.now (view body.now)) }
{
    let text = read_required_text(alloc, body, key)?;
    read_digest_at(alloc, key, text)
}

fn some_whole_of(
    alloc: Global,
    key: &str,
    lowest: u64,
    highest: u64,
    number: Option<i128>,
) -> Result<Option<u64>, PropFault>
    ensures exact { Reads result (some_whole key.now lowest highest number) }
    ensures at_most { IfOk result (λ o. IfSome o (λ n. n ≤ highest)) }
{
    match number {
        None => Ok(None),
        Some(number) => match read_whole(alloc, key, lowest, highest, number) {
            Ok(number) => Ok(Some(number)),
            Err(fault) => Err(fault),
        },
    }
}

/// A whole number from the lowest to the highest, where there is one.
#[tactic(auto, unfolding(crate::specs::Members::whole_or_none))]
pub(crate) fn read_number_or_none(
    alloc: Global,
    body: &Value,
    key: &str,
    lowest: u64,
    highest: u64,
) -> Result<Option<u64>, PropFault>
    ensures exact { Reads result (whole_or_none key.now lowest highest (view body.now)) }
    ensures at_most { IfOk result (λ o. IfSome o (λ n. n ≤ highest)) }
{
    let number = read_optional_number(alloc, body, key)?;
    some_whole_of(alloc, key, lowest, highest, number)
}

/// A text, where there is one.
#[tactic(auto, unfolding(crate::specs::Members::text_or_none))]
pub(crate) fn read_text_or_none(
    alloc: Global,
    body: &Value,
    key: &str,
) -> Result<Option<Text>, PropFault>
    ensures { Reads result (text_or_none key.now (view body.now)) }
{
    match present(body, key) {
        None => Ok(None),
        Some(value) => match value.as_str() {
            Some(text) => Ok(Some(Text::from_str(alloc, text)?)),
            None => Err(broken(alloc, key, PropRule::WrongType)),
        },
    }
}

/// A file.
pub(crate) struct Files;

impl ReadFields for Files {
    type Value = File;

    ghost fields = { file_in };

    #[tactic(auto, unfolding(crate::specs::Members::file_in))]
    fn read_fields(alloc: Global, file: &Value) -> Result<File, PropFault> {
        let path = read_kept_text(alloc, file, "path")?;
        let digest = read_digest(alloc, file, "digest")?;
        let size = read_size(alloc, file, "size")?;
        Ok(File { path, digest, size })
    }
}
