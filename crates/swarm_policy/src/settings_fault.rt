use crate::SettingsRule;
use dimensions::Text;
use std::alloc::{AllocError, AllocFailed};
use std::error::Error;
use std::fmt;

/// Why a text says no settings: want of memory, or the first broken rule with its place.
#[derive(Debug, Drop)]
pub enum SettingsFault {
    Memory,
    /// The place is `text` of a text that is no TOML, and else a key at the top, or `pools.I.KEY` of
    /// the pool I, counted from 0.
    Broken { place: Text, rule: SettingsRule },
}

impl fmt::Display for SettingsFault {
    ghost use Rattle.std.specs.Prelude.{Some};
    ghost use Rattle.swarm_policy.specs.Faults.{fault_text};

    ghost output = { λ fault. Some (fault_text fault) };

    fn fmt<W: fmt::Write>(&self, f: &mut fmt::Formatter<W>) -> fmt::Result {
        match self {
            SettingsFault::Memory => f.write_str("want of memory"),
            SettingsFault::Broken { place, rule } => {
                let place = place.as_str();
                let rule = rule.name();
                write!(f, "{place} {rule}")
            }
        }
    }
}

impl Error for SettingsFault {}

impl From<AllocError> for SettingsFault {
    ghost use Rattle.std.specs.Prelude.{◌≡◌};
    ghost use Rattle.swarm_policy.specs.declared.settings_fault.SettingsFault.TheVariants.{Memory};

    ghost from_gives = { λ _ e. e ≡ Memory };

    fn from(_: AllocError) -> SettingsFault {
        SettingsFault::Memory
    }
}

impl<T: Drop> From<AllocFailed<T>> for SettingsFault {
    ghost use Rattle.std.specs.Prelude.{◌≡◌};
    ghost use Rattle.swarm_policy.specs.declared.settings_fault.SettingsFault.TheVariants.{Memory};

    ghost from_gives = { λ _ e. e ≡ Memory };

    fn from(_: AllocFailed<T>) -> SettingsFault {
        SettingsFault::Memory
    }
}
