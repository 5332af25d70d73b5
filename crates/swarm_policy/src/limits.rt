//! The limits of a pool, in the order of the keys of its table.
ghost use Rattle.std.specs.Prelude.{◌≡◌, IfOk, IsTrue, option_map};
ghost use Rattle.toml.specs.View.{view};
ghost use Rattle.swarm_model.specs.Words.{is_between};
ghost use Rattle.json_fields.specs.Readings.{Gives};
ghost use Rattle.swarm_policy.specs.Fields.{or_default};
ghost use Rattle.swarm_policy.specs.Limits.{is_in_row, is_within, number_at, number_in as spec_number_in, number_of as spec_number_of, ranged as spec_ranged, row_of};
ghost use Rattle.swarm_policy.specs.Readings.{Reads};

use crate::places::broken;
use crate::{SettingsFault, SettingsRule};
use std::alloc::Global;
use std::marker::Model;
use toml::Value;

/// A number that a pool's table may have.
#[derive(Clone, Copy)]
pub(crate) enum Limit {
    ReuseAgeSecs,
    DeathTimeoutSecs,
    BlobLifeSecs,
    StoreUnits,
    MostTasks,
    MostBots,
    MostEntries,
    MostWeight,
    Retries,
}

/// What counts for a limit: its key, the number where a table leaves it out, and the range.
#[derive(Drop)]
struct Row {
    key: &'static str,
    default: u32,
    least: u32,
    most: u32,
}

impl Model for Row {
    ghost use Rattle.std.specs.Prelude.{IsTrue};
    ghost use Rattle.swarm_model.specs.Words.{is_between};
    ghost use Rattle.swarm_policy.specs.Limits.{Row as SpecRow};

    ghost Value = { SpecRow };

    ghost view = { λ r. record { key = r.key.now; default = r.default; least = r.least; most = r.most } };

    ghost invariant = { λ r. IsTrue (is_between r.least r.most r.default) };
}

impl Row {
    /// A row, as the table below writes it.
    fn new(key: &'static str, default: u32, least: u32, most: u32) -> Self
        requires { IsTrue (is_between least most default) }
        ensures { result ≡ record { key = key.entry.now; default = default; least = least; most = most } }
    {
        Row {
            key,
            default,
            least,
            most,
        }
    }

    /// A whole number within the range.
    fn ranged(&self, number: i64) -> Result<u32, SettingsRule>
        ensures value { Gives (λ n. n) result (spec_ranged self.now number) }
        ensures within { IfOk result (λ n. IsTrue (is_in_row self.now n)) }
    {
        if number < 0 {
            return Err(SettingsRule::Range);
        }
        if i64::from(self.least) <= number && number <= i64::from(self.most) {
            Ok(number as u32)
        } else {
            Err(SettingsRule::Range)
        }
    }

    /// A value that must be such a number.
    fn number_of(&self, value: &Value) -> Result<u32, SettingsRule>
        ensures value { Gives (λ n. n) result (spec_number_of self.now (view value.now)) }
        ensures within { IfOk result (λ n. IsTrue (is_in_row self.now n)) }
    {
        match value.as_integer() {
            Some(number) => self.ranged(number),
            None => Err(SettingsRule::WrongType),
        }
    }

    /// Such a number, or the default where there is none.
    fn number_in(&self, found: Option<&Value>) -> Result<u32, SettingsRule>
        ensures value { Gives (λ n. n) result (or_default self.now.default (spec_number_of self.now) (option_map (λ v. view v.now) found.entry)) }
        ensures within { IfOk result (λ n. IsTrue (is_in_row self.now n)) }
    {
        match found {
            None => Ok(self.default),
            Some(value) => self.number_of(value),
        }
    }

    /// The number at the key of the row.
    #[tactic(auto, unfolding(crate::specs::Limits::number_in))]
    fn read(&self, alloc: Global, pool: &Value) -> Result<u32, SettingsFault>
        ensures reads { Reads result (spec_number_in self.now (view pool.now)) }
        ensures within { IfOk result (λ n. IsTrue (is_in_row self.now n)) }
    {
        match self.number_in(pool.get(self.key)) {
            Ok(number) => Ok(number),
            Err(rule) => Err(broken(alloc, self.key, rule)),
        }
    }
}

impl Limit {
    /// The table of the limits.
    fn row(self) -> Row
        ensures { result ≡ row_of self }
    {
        match self {
            Limit::ReuseAgeSecs => Row::new("reuse_age_secs", 604_800, 0, 31_536_000),
            Limit::DeathTimeoutSecs => Row::new("death_timeout_secs", 600, 60, 2_592_000),
            Limit::BlobLifeSecs => Row::new("blob_life_secs", 604_800, 60, 31_536_000),
            Limit::StoreUnits => Row::new("store_units", 1_048_576, 1, 4_194_304),
            Limit::MostTasks => Row::new("most_tasks", 262_144, 1, 262_144),
            Limit::MostBots => Row::new("most_bots", 4096, 1, 4096),
            Limit::MostEntries => Row::new("most_entries", 4_194_304, 1, 4_194_304),
            Limit::MostWeight => Row::new("most_weight", 134_217_728, 1, 134_217_728),
            Limit::Retries => Row::new("retries", 0, 0, 1),
        }
    }

    /// What counts where a table leaves it out.
    pub(crate) fn default(self) -> u32
        ensures { result ≡ (row_of self).default }
    {
        self.row().default
    }

    /// The number that a pool's table has for it.
    #[tactic(auto, unfolding(crate::specs::Limits::number_at))]
    pub(crate) fn read(self, alloc: Global, pool: &Value) -> Result<u32, SettingsFault>
        ensures reads { Reads result (number_at self (view pool.now)) }
        ensures within { IfOk result (λ n. IsTrue (is_within self n)) }
    {
        self.row().read(alloc, pool)
    }
}
