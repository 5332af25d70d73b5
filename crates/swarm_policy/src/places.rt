//! The place of a broken rule, from the value where it is found upwards.
ghost use Rattle.std.specs.Prelude.{◌≡◌, ◌≢◌, ◌++◌, IfOk, codes, decimal, string_bytes};
ghost use Rattle.swarm_policy.specs.Readings.{below as spec_below};

use crate::{SettingsFault, SettingsRule};
use dimensions::Text;
use std::alloc::{AllocError, Global};

/// A rule that is broken at a key.
pub(crate) fn broken(alloc: Global, key: &str, rule: SettingsRule) -> SettingsFault
    ensures { result ≢ SettingsFault.Memory → result ≡ SettingsFault.Broken key.now rule }
{
    match Text::from_str(alloc, key) {
        Ok(place) => SettingsFault::Broken { place, rule },
        Err(_) => SettingsFault::Memory,
    }
}

fn place_text(alloc: Global, place: usize) -> Result<String, AllocError>
    ensures { IfOk result (λ text. string_bytes text ≡ decimal place) }
{
    format!(in alloc; "{place}")
}

fn place_below(alloc: Global, key: &str, place: &str) -> Result<String, AllocError>
    ensures { IfOk result (λ text. string_bytes text ≡ key.now ++ (codes "." ++ place.now)) }
{
    format!(in alloc; "{key}.{place}")
}

/// A rule that is broken below a key.
pub(crate) fn below(alloc: Global, key: &str, fault: SettingsFault) -> SettingsFault
    ensures memory { result ≢ SettingsFault.Memory → fault ≢ SettingsFault.Memory }
    ensures path { result ≢ SettingsFault.Memory → result ≡ spec_below key.now fault }
{
    match fault {
        SettingsFault::Memory => SettingsFault::Memory,
        SettingsFault::Broken { place, rule } => match place_below(alloc, key, place.as_str()) {
            Ok(place) => broken(alloc, place.as_str(), rule),
            Err(_) => SettingsFault::Memory,
        },
    }
}

/// A rule that is broken below a place of a list.
pub(crate) fn below_place(alloc: Global, place: usize, fault: SettingsFault) -> SettingsFault
    ensures memory { result ≢ SettingsFault.Memory → fault ≢ SettingsFault.Memory }
    ensures path { result ≢ SettingsFault.Memory → result ≡ spec_below (decimal place) fault }
{
    match place_text(alloc, place) {
        Ok(text) => below(alloc, text.as_str(), fault),
        Err(_) => SettingsFault::Memory,
    }
}
