//! The pools that a document says.
ghost use Rattle.std.specs.Prelude.{◌≡◌, ◌<◌, ◌≤◌, [], IfOk, IsTrue, length, map, option_map, decimal};
ghost use Rattle.std.specs.List.{list_all, list_any};
ghost use Rattle.toml.specs.View.{view};
ghost use Rattle.dimensions.specs.Rules.{is_key_byte as spec_is_key_byte};
ghost use Rattle.swarm_model.specs.Settings.{is_pool_name};
ghost use Rattle.swarm_model.specs.Words.{is_between};
ghost use Rattle.json_fields.specs.Readings.{Gives};
ghost use Rattle.swarm_policy.specs.Readings.{Reads, inside};
ghost use Rattle.swarm_policy.specs.Fields.{is_table, unknown_key as spec_unknown_key};
ghost use Rattle.swarm_policy.specs.Pools.{has_name as spec_has_name, is_new as spec_is_new, name_in, name_at, pool_keys, pool_of, pools_from, tables_in as spec_tables_in, pools_in, are_pools, is_next_pool};

use crate::fields::{has_length_to, text_of, unknown_key, values_of};
use crate::grants::read_grants;
use crate::limits::Limit;
use crate::places::{below, below_place, broken};
use crate::{SettingsFault, SettingsRule};
use dimensions::{Seq, Text};
use std::alloc::Global;
use swarm_model::PoolSettings;
use toml::Value;

fn is_key_byte(byte: u8) -> bool
    ensures { result ≡ spec_is_key_byte byte }
{
    byte.is_ascii_alphanumeric() || byte == b'-' || byte == b'_' || byte == b'.'
}

fn has_key_bytes(name: &str) -> bool
    ensures { result ≡ list_all spec_is_key_byte name.now }
{
    name.as_bytes().iter().all(|byte| is_key_byte(*byte))
}

fn has_name(name: &str, pool: &PoolSettings) -> bool
    ensures { result ≡ spec_has_name name.now pool.now }
{
    pool.name.as_str() == name
}

fn is_taken(pools: &[PoolSettings], name: &str) -> bool
    ensures { result ≡ list_any (spec_has_name name.now) pools.now }
{
    pools.iter().any(|pool| has_name(name, pool))
}

/// The name of a pool, which none before it has.
#[tactic(auto, unfolding(crate::specs::Pools::name_in))]
fn name_in<'v>(before: &[PoolSettings], found: Option<&'v Value>) -> Result<&'v str, SettingsRule>
    ensures value { Gives (λ s. s.now) result (name_in before.now (option_map (λ v. view v.now) found.entry)) }
    ensures form { IfOk result (λ name. IsTrue (is_pool_name name.now)) }
    ensures own { IfOk result (λ name. IsTrue (spec_is_new before.now name.now)) }
{
    let Some(value) = found else {
        return Err(SettingsRule::Missing);
    };
    let name = text_of(value)?;
    if !has_length_to(64, name) {
        return Err(SettingsRule::Count);
    }
    if !has_key_bytes(name) {
        return Err(SettingsRule::Grammar);
    }
    if is_taken(before, name) {
        return Err(SettingsRule::Repeated);
    }
    Ok(name)
}

#[tactic(auto, unfolding(crate::specs::Pools::name_at))]
fn read_name(alloc: Global, before: &[PoolSettings], pool: &Value) -> Result<Text, SettingsFault>
    ensures reads { Reads result (name_at before.now (view pool.now)) }
    ensures form { IfOk result (λ name. IsTrue (is_pool_name name)) }
    ensures own { IfOk result (λ name. IsTrue (spec_is_new before.now name)) }
{
    match name_in(before, pool.get("name")) {
        Ok(name) => Ok(Text::from_str(alloc, name)?),
        Err(rule) => Err(broken(alloc, "name", rule)),
    }
}

fn unknown_in(pool: &Value) -> Option<&str>
    ensures { option_map (λ s. s.now) result ≡ spec_unknown_key pool_keys (view pool.now) }
{
    unknown_key(
        pool,
        &[
            "name",
            "reuse_age_secs",
            "death_timeout_secs",
            "blob_life_secs",
            "store_units",
            "most_tasks",
            "most_bots",
            "most_entries",
            "most_weight",
            "retries",
            "grants",
        ],
    )
}

/// One pool, after those before it.
#[tactic(auto, using(crate::proofs::NextPool::next_pool), unfolding(crate::specs::Pools::pool_of))]
fn read_pool(
    alloc: Global,
    before: &[PoolSettings],
    pool: &Value,
) -> Result<PoolSettings, SettingsFault>
    requires few { length before.now < 4 }
    ensures reads { Reads result (pool_of before.now (view pool.now)) }
    ensures next { IfOk result (λ pool. IsTrue (is_next_pool before.now pool)) }
{
    if let Some(key) = unknown_in(pool) {
        return Err(broken(alloc, key, SettingsRule::Unknown));
    }
    Ok(PoolSettings {
        place: before.len() as u32,
        name: read_name(alloc, before, pool)?,
        reuse_age_secs: Limit::ReuseAgeSecs.read(alloc, pool)?,
        death_timeout_secs: Limit::DeathTimeoutSecs.read(alloc, pool)?,
        blob_life_secs: Limit::BlobLifeSecs.read(alloc, pool)?,
        store_units: Limit::StoreUnits.read(alloc, pool)?,
        most_tasks: Limit::MostTasks.read(alloc, pool)?,
        most_bots: Limit::MostBots.read(alloc, pool)?,
        most_entries: Limit::MostEntries.read(alloc, pool)?,
        most_weight: Limit::MostWeight.read(alloc, pool)?,
        retries: Limit::Retries.read(alloc, pool)?,
        grants: read_grants(alloc, pool)?,
    })
}

fn read_pool_at(
    alloc: Global,
    before: &[PoolSettings],
    pool: &Value,
) -> Result<PoolSettings, SettingsFault>
    requires few { length before.now < 4 }
    ensures reads { Reads result (inside (decimal (length before.now)) (pool_of before.now (view pool.now))) }
    ensures next { IfOk result (λ pool. IsTrue (is_next_pool before.now pool)) }
{
    match read_pool(alloc, before, pool) {
        Ok(pool) => Ok(pool),
        Err(fault) => Err(below_place(alloc, before.len(), fault)),
    }
}

#[tactic(auto, using(crate::proofs::NextPool::no_pools, crate::proofs::NextPool::with_next_pool))]
fn read_each_pool(alloc: Global, tables: &[Value]) -> Result<Seq<PoolSettings>, SettingsFault>
    requires few { length tables.now ≤ 4 }
    ensures reads { Reads result (pools_from [] (map view tables.now)) }
    ensures keeps_rules { IfOk result (λ pools. IsTrue (are_pools pools)) }
    ensures all { IfOk result (λ pools. length pools ≡ length tables.now) }
{
    let mut pools = Vec::new(alloc);
    for table in tables {
        let pool = read_pool_at(alloc, &pools, table)?;
        pools.push(pool)?;
    }
    Ok(Seq::from_vec(pools))
}

fn are_tables(values: &[Value]) -> bool
    ensures { result ≡ list_all is_table (map view values.now) }
{
    for value in values {
        if !value.is_table() {
            return false;
        }
    }
    true
}

/// The tables of the pools, 1 to 4.
#[tactic(auto, unfolding(crate::specs::Pools::tables_in))]
fn tables_in(found: Option<&Value>) -> Result<&[Value], SettingsRule>
    ensures value { Gives (λ vs. map view vs.now) result (spec_tables_in (option_map (λ v. view v.now) found.entry)) }
    ensures few { IfOk result (λ vs. IsTrue (is_between 1 4 (length vs.now))) }
{
    let Some(value) = found else {
        return Err(SettingsRule::Missing);
    };
    let values = values_of(value)?;
    if !are_tables(values) {
        return Err(SettingsRule::WrongType);
    }
    if values.is_empty() || values.len() > 4 {
        return Err(SettingsRule::Count);
    }
    Ok(values)
}

/// The pools of a document.
#[tactic(auto, unfolding(crate::specs::Pools::pools_in))]
pub(crate) fn read_pools(
    alloc: Global,
    found: Option<&Value>,
) -> Result<Seq<PoolSettings>, SettingsFault>
    ensures reads { Reads result (pools_in (option_map (λ v. view v.now) found.entry)) }
    ensures keeps_rules { IfOk result (λ pools. IsTrue (are_pools pools)) }
    ensures few { IfOk result (λ pools. IsTrue (is_between 1 4 (length pools))) }
{
    match tables_in(found) {
        Ok(tables) => match read_each_pool(alloc, tables) {
            Ok(pools) => Ok(pools),
            Err(fault) => Err(below(alloc, "pools", fault)),
        },
        Err(rule) => Err(broken(alloc, "pools", rule)),
    }
}
