//! The settings that a text says.
ghost use Rattle.std.specs.Prelude.{◌≡◌, IfOk, IsTrue, option_map};
ghost use Rattle.toml.specs.View.{view, table_view};
ghost use Rattle.swarm_model.specs.Settings.{are_settings};
ghost use Rattle.json_fields.specs.Readings.{Gives};
ghost use Rattle.swarm_policy.specs.Readings.{GivesUnlessMemory, Reads};
ghost use Rattle.swarm_policy.specs.Fields.{first_unknown as spec_first_unknown};
ghost use Rattle.swarm_policy.specs.Pools.{have_own_names};
ghost use Rattle.swarm_policy.specs.Documents.{is_folder as spec_is_folder, folder_of as spec_folder_of, store_at, top_keys, settings_in, or_no_toml, table_of, settings_of};

use crate::fields::{first_unknown, text_of, value_at};
use crate::places::broken;
use crate::pools::read_pools;
use crate::{SettingsFault, SettingsRule};
use dimensions::Text;
use std::alloc::Global;
use swarm_model::Settings;
use toml::{Table, Value};

fn is_folder(text: &str) -> bool
    ensures { result ≡ spec_is_folder text.now }
{
    1 <= text.len()
}

fn folder_of(value: &Value) -> Result<&str, SettingsRule>
    ensures { Gives (λ s. s.now) result (spec_folder_of (view value.now)) }
{
    let folder = text_of(value)?;
    if is_folder(folder) {
        Ok(folder)
    } else {
        Err(SettingsRule::Count)
    }
}

#[tactic(auto, unfolding(crate::specs::Documents::store_at))]
fn read_store(alloc: Global, table: &Table) -> Result<Option<Text>, SettingsFault>
    ensures { Reads result (store_at (table_view table.now)) }
{
    let Some(value) = value_at(table, "store") else {
        return Ok(None);
    };
    match folder_of(value) {
        Ok(folder) => Ok(Some(Text::from_str(alloc, folder)?)),
        Err(rule) => Err(broken(alloc, "store", rule)),
    }
}

fn unknown_at_top(table: &Table) -> Option<&str>
    ensures { option_map (λ s. s.now) result ≡ spec_first_unknown top_keys (table_view table.now) }
{
    first_unknown(table, &["store", "pools"])
}

#[tactic(auto, unfolding(crate::specs::Documents::settings_in, crate::specs::Pools::are_pools))]
fn read_table(alloc: Global, table: &Table) -> Result<Settings, SettingsFault>
    ensures reads { Reads result (settings_in (table_view table.now)) }
    ensures keeps_rules { IfOk result (λ settings. IsTrue (are_settings settings)) }
    ensures own_names { IfOk result (λ settings. IsTrue (have_own_names settings.pools)) }
{
    if let Some(key) = unknown_at_top(table) {
        return Err(broken(alloc, key, SettingsRule::Unknown));
    }
    let store = read_store(alloc, table)?;
    let pools = read_pools(alloc, value_at(table, "pools"))?;
    Ok(Settings { store, pools })
}

fn read_document(alloc: Global, text: &[u8]) -> Result<Table, SettingsFault>
    ensures { GivesUnlessMemory table_view result (or_no_toml (table_of text.now)) }
{
    match toml::table_from_slice(alloc, text) {
        Ok(table) => Ok(table),
        Err(error) => {
            if error.is_memory() {
                Err(SettingsFault::Memory)
            } else {
                Err(broken(alloc, "text", SettingsRule::Toml))
            }
        }
    }
}

/// The settings that a text says: one to four pools, their limits and grants, and the folder in
/// which records are kept, where it names one.
///
/// # Errors
///
/// The first broken rule: that the text is TOML, those of the top, then pool by pool, unknown keys of
/// a table first, in order of bytes, and then its keys in the order of `PoolSettings`, each with its
/// rules in the order of `SettingsRule`. The grants of a pool are one place, so of the rules that
/// they break the first is told, whichever grant breaks it.
#[tactic(auto, unfolding(crate::specs::Documents::settings_of))]
pub fn read_settings(alloc: Global, text: &[u8]) -> Result<Settings, SettingsFault>
    ensures reads { Reads result (settings_of text.now) }
    ensures keeps_rules { IfOk result (λ settings. IsTrue (are_settings settings)) }
    ensures own_names { IfOk result (λ settings. IsTrue (have_own_names settings.pools)) }
{
    let table = read_document(alloc, text)?;
    read_table(alloc, &table)
}
