//! Pools that are too large for boards, which take copies of a pool's rows.
ghost use Rattle.std.specs.Prelude.{◌≡◌, ℕ, List, Option, IfOk, codes, option_map, string_bytes};
ghost use Rattle.sw_base.specs.Listeners.{ListenerState};
ghost use Rattle.swarm_keeper.specs.Stores.{StoreState};
ghost use Rattle.client_commands.specs.Commands.{settings_line as spec_settings_line};
ghost use Rattle.swarm_cli.specs.LargePools.{key_path as spec_key_path, large_key as spec_large_key, large_path};
ghost use Rattle.swarm_cli.specs.SettingsFile.{Refuses};

use crate::printing::print_refusal;
use std::alloc::{AllocError, Global};
use swarm_http::Link;
use swarm_model::PoolSettings;

/// The most tasks that a pool with boards may have.
const MOST_TASKS: u32 = 65_536;
/// The most entries of its log.
const MOST_ENTRIES: u32 = 1_048_576;
/// The most weight of its log, in bytes.
const MOST_WEIGHT: u32 = 33_554_432;

/// The first key at which a pool is too large for boards.
fn large_key(pool: &PoolSettings) -> Option<&'static str>
    ensures { option_map (λ s. s.now) result ≡ spec_large_key pool.now }
{
    if pool.most_tasks > MOST_TASKS {
        return Some("most_tasks");
    }
    if pool.most_entries > MOST_ENTRIES {
        return Some("most_entries");
    }
    if pool.most_weight > MOST_WEIGHT {
        return Some("most_weight");
    }
    None
}

/// The place of the first pool that is too large for boards, and the first such key of it.
pub(crate) fn first_large(pools: &[PoolSettings]) -> Option<(u32, &'static str)>
    ensures { option_map (λ l. spec_key_path l.0 l.1.now) result ≡ large_path pools.now }
{
    for pool in pools {
        if let Some(key) = large_key(pool) {
            return Some((pool.place, key));
        }
    }
    None
}

fn key_path(alloc: Global, place: u32, key: &str) -> Result<String, AllocError>
    ensures { IfOk result (λ path. string_bytes path ≡ spec_key_path place key.now) }
{
    format!(in alloc; "pools.{place}.{key}")
}

/// Prints which pool is too large for boards, and at which key.
pub(crate) fn print_large<L: Link>(alloc: Global, console: &mut L, place: u32, key: &str) -> u8
    ensures { (clock : ℕ → Option (List ℕ)) (listener : ListenerState) (store : StoreState) → Refuses (spec_settings_line (spec_key_path place key.now) (codes "boards")) store store
        (record { console = L.state console.old; clock = clock; listener = listener })
        (record { console = L.state console.new; clock = clock; listener = listener }) result }
{
    match key_path(alloc, place, key) {
        Ok(path) => print_refusal(alloc, console, path.as_str(), "boards"),
        Err(_) => 5,
    }
}
