//! Grants. All of a list are at one place, so of the rules that they break the first is told.
ghost use Rattle.std.specs.Prelude.{◌≡◌, IfOk, IsTrue, map, option_map, Ok};
ghost use Rattle.std.specs.List.{list_all};
ghost use Rattle.toml.specs.Data.{get};
ghost use Rattle.toml.specs.View.{view};
ghost use Rattle.swarm_model.specs.Settings.{is_grant};
ghost use Rattle.swarm_model.specs.Words.{is_between};
ghost use Rattle.json_fields.specs.Readings.{Gives};
ghost use Rattle.swarm_policy.specs.Readings.{Reads, ReadsValue};
ghost use Rattle.swarm_policy.specs.Fields.{required as spec_required, is_table as spec_is_table, is_text as spec_is_text, unknown_key as spec_unknown_key};
ghost use Rattle.swarm_policy.specs.Grants.{permission_of as spec_permission_of, permissions_of, grant_keys, grant_of, and_grant as spec_and_grant, none_yet as spec_none_yet, grants_of, grants_in, grants_at, are_grants};

use crate::fields::{has_length_to, text_of, unknown_key, values_of};
use crate::places::broken;
use crate::value_fault::ValueFault;
use crate::{SettingsFault, SettingsRule};
use dimensions::{Seq, Text};
use std::alloc::{AllocError, AllocFailed, Global};
use swarm_model::{Grant, Permission};
use toml::Value;

fn permission_of(value: &Value) -> Result<Permission, SettingsRule>
    ensures { Gives (λ p. p) result (spec_permission_of (view value.now)) }
{
    let name = text_of(value)?;
    Permission::from_name(name).ok_or(SettingsRule::Grammar)
}

fn read_permissions(alloc: Global, values: &[Value]) -> Result<Seq<Permission>, ValueFault>
    ensures { ReadsValue result (permissions_of (map view values.now)) }
{
    let mut permissions = Vec::new(alloc);
    for value in values {
        permissions.push(permission_of(value)?)?;
    }
    Ok(Seq::from_vec(permissions))
}

fn required<'v>(grant: &'v Value, key: &str) -> Result<&'v Value, SettingsRule>
    ensures { Gives (λ v. view v.now) result (spec_required Ok (get key.now (view grant.now))) }
{
    grant.get(key).ok_or(SettingsRule::Missing)
}

fn is_table(value: &Value) -> bool
    ensures { result ≡ spec_is_table (view value.now) }
{
    value.is_table()
}

fn unknown_in(grant: &Value) -> Option<&str>
    ensures { option_map (λ s. s.now) result ≡ spec_unknown_key grant_keys (view grant.now) }
{
    unknown_key(grant, &["caller", "permissions"])
}

fn is_text(value: &Value) -> bool
    ensures { result ≡ spec_is_text (view value.now) }
{
    value.is_str()
}

fn are_texts(values: &[Value]) -> bool
    ensures { result ≡ list_all spec_is_text (map view values.now) }
{
    for value in values {
        if !is_text(value) {
            return false;
        }
    }
    true
}

fn is_visible(text: &str) -> bool
    ensures { result ≡ list_all (is_between 33 126) text.now }
{
    text.as_bytes()
        .iter()
        .all(|byte| 33 <= *byte && *byte <= 126)
}

/// One grant, or the first rule that it breaks.
#[tactic(auto, unfolding(crate::specs::Grants::grant_of))]
fn read_grant(alloc: Global, grant: &Value) -> Result<Grant, ValueFault>
    ensures reads { ReadsValue result (grant_of (view grant.now)) }
    ensures keeps_rules { IfOk result (λ grant. IsTrue (is_grant grant)) }
{
    if !is_table(grant) {
        return Err(ValueFault::Broken(SettingsRule::WrongType));
    }
    if unknown_in(grant).is_some() {
        return Err(ValueFault::Broken(SettingsRule::Unknown));
    }
    let caller = required(grant, "caller")?;
    let permissions = required(grant, "permissions")?;
    let caller = text_of(caller)?;
    let permissions = values_of(permissions)?;
    if !are_texts(permissions) {
        return Err(ValueFault::Broken(SettingsRule::WrongType));
    }
    if !has_length_to(128, caller) {
        return Err(ValueFault::Broken(SettingsRule::Count));
    }
    if !is_visible(caller) {
        return Err(ValueFault::Broken(SettingsRule::Grammar));
    }
    let permissions = read_permissions(alloc, permissions)?;
    Ok(Grant {
        caller: Text::from_str(alloc, caller)?,
        permissions,
    })
}

/// The grants so far and one more, or the first of the rules that they break.
fn and_grant(
    so_far: Result<Seq<Grant>, SettingsRule>,
    grant: Result<Grant, SettingsRule>,
) -> Result<Result<Seq<Grant>, SettingsRule>, AllocFailed<Grant>>
    ensures { IfOk result (λ both. both ≡ spec_and_grant so_far grant) }
{
    match so_far {
        Ok(mut grants) => match grant {
            Ok(grant) => {
                grants.try_push(grant)?;
                Ok(Ok(grants))
            }
            Err(rule) => Ok(Err(rule)),
        },
        Err(earlier) => match grant {
            Ok(_) => Ok(Err(earlier)),
            Err(rule) => Ok(Err(earlier.min(rule))),
        },
    }
}

fn none_yet(alloc: Global, values: &[Value]) -> Result<Seq<Grant>, SettingsRule>
    ensures { result ≡ spec_none_yet (map view values.now) }
{
    if values.len() <= 256 {
        Ok(Seq::new(alloc))
    } else {
        Err(SettingsRule::Count)
    }
}

fn read_rule(alloc: Global, value: &Value) -> Result<Result<Grant, SettingsRule>, AllocError>
    ensures reads { IfOk result (λ read. read ≡ grant_of (view value.now)) }
    ensures keeps_rules { IfOk result (λ read. IfOk read (λ grant. IsTrue (is_grant grant))) }
{
    match read_grant(alloc, value) {
        Ok(grant) => Ok(Ok(grant)),
        Err(ValueFault::Memory) => Err(AllocError),
        Err(ValueFault::Broken(rule)) => Ok(Err(rule)),
    }
}

/// The grants of a list, or the first of the rules that they break.
#[tactic(auto, unfolding(crate::specs::Grants::grants_of))]
fn read_list(alloc: Global, values: &[Value]) -> Result<Seq<Grant>, ValueFault>
    ensures reads { ReadsValue result (grants_of (map view values.now)) }
    ensures keeps_rules { IfOk result (λ grants. IsTrue (are_grants grants)) }
{
    let mut so_far = none_yet(alloc, values);
    for value in values {
        so_far = and_grant(so_far, read_rule(alloc, value)?)?;
    }
    match so_far {
        Ok(grants) => Ok(grants),
        Err(rule) => Err(ValueFault::Broken(rule)),
    }
}

fn grants_in(alloc: Global, found: Option<&Value>) -> Result<Seq<Grant>, ValueFault>
    ensures reads { ReadsValue result (grants_in (option_map (λ v. view v.now) found.entry)) }
    ensures keeps_rules { IfOk result (λ grants. IsTrue (are_grants grants)) }
{
    match found {
        None => Ok(Seq::new(alloc)),
        Some(value) => {
            let values = values_of(value)?;
            read_list(alloc, values)
        }
    }
}

/// The grants of a pool; where there are none, none.
#[tactic(auto, unfolding(crate::specs::Grants::grants_at))]
pub(crate) fn read_grants(alloc: Global, pool: &Value) -> Result<Seq<Grant>, SettingsFault>
    ensures reads { Reads result (grants_at (view pool.now)) }
    ensures keeps_rules { IfOk result (λ grants. IsTrue (are_grants grants)) }
{
    match grants_in(alloc, pool.get("grants")) {
        Ok(grants) => Ok(grants),
        Err(ValueFault::Memory) => Err(SettingsFault::Memory),
        Err(ValueFault::Broken(rule)) => Err(broken(alloc, "grants", rule)),
    }
}
