//! The kept records of the pools, made to begin anew.
ghost use Rattle.std.specs.Prelude.{◌≡◌, ℕ, List, Option, map, length, sum_by, is_some, IsTrue};
ghost use Rattle.std.specs.List.{list_all};
ghost use Rattle.sw_base.specs.Listeners.{ListenerState};
ghost use Rattle.swarm_model.specs.Settings.{are_settings};
ghost use Rattle.swarm_policy.specs.Pools.{have_own_names};
ghost use Rattle.swarm_cli.specs.Checkpoints.{AllBeginAnew, EndsAs, IsMadeOf, RunsCheckpoint, TellsEnd, TellsStop};

use crate::attaching::{attach_all, detach_all};
use crate::printing::print_count_full;
use crate::serving::{start_status, tell_fault};
use crate::telling::fronts_of_door;
use link_writer::print;
use std::alloc::Global;
use swarm_history::{CheckpointFault, CheckpointWhy, LoadFault, PlainDoor};
use swarm_http::{Door, Link};
use swarm_keeper::{Keeper, Store};
use swarm_machine::Pool;
use swarm_model::Settings;

/// What came of a checkpoint.
#[derive(Drop)]
enum CheckpointEnd {
    /// The records of all pools begin anew, and this is to be printed.
    Made(String),
    /// Those of the pools before a place do.
    Stopped(CheckpointFault),
    /// None do: no door was made of the records, or there was no memory for the text.
    Unmade(LoadFault),
}

/// Makes the records of a door's pools begin anew, and answers the keepers.
fn checkpoint_door<K: Keeper + Drop>(
    alloc: Global,
    settings: &Settings,
    door: PlainDoor<Pool, K>,
) -> (CheckpointEnd, Vec<K>)
    requires { IsMadeOf settings.now (⟦<PlainDoor<Pool, K> as Door>⟧.state door).records (⟦<PlainDoor<Pool, K> as Door>⟧.state door) }
    ensures ends { EndsAs result.0 settings.now (⟦<PlainDoor<Pool, K> as Door>⟧.state door).records (map K.tables result.1.items) (⟦<PlainDoor<Pool, K> as Door>⟧.state door).faults (sum_by K.faults result.1.items) }
    ensures count { length result.1.items ≡ length settings.now.pools }
{
    match fronts_of_door(alloc, settings.pools.as_slice(), &door) {
        Ok(text) => match door.checkpoint() {
            Ok(keepers) => (CheckpointEnd::Made(text), keepers),
            Err((fault, keepers)) => (CheckpointEnd::Stopped(fault), keepers),
        },
        Err(_) => {
            let (_, keepers) = door.end();
            (CheckpointEnd::Unmade(LoadFault::Memory), keepers)
        }
    }
}

/// Makes the records begin anew that the keepers have, one for each pool, and answers the keepers.
fn checkpoint_over<K: Keeper + Drop>(
    alloc: Global,
    settings: &Settings,
    keepers: Vec<K>,
) -> (CheckpointEnd, Vec<K>)
    requires rules { IsTrue (are_settings settings.now) }
    requires count { length keepers.items ≡ length settings.now.pools }
    ensures ends { EndsAs result.0 settings.now (map K.tables keepers.items) (map K.tables result.1.items) (sum_by K.faults keepers.items) (sum_by K.faults result.1.items) }
    ensures count { length result.1.items ≡ length settings.now.pools }
    ensures told { IsTrue (list_all is_some (map K.tables keepers.items)) → IsTrue (list_all is_some (map K.tables result.1.items)) }
{
    match PlainDoor::<Pool, K>::new(alloc, settings, keepers) {
        Ok(door) => checkpoint_door(alloc, settings, door),
        Err((fault, keepers)) => (CheckpointEnd::Unmade(fault), keepers),
    }
}

/// Tells why the records of the pool at a place don't begin anew, and answers the status.
fn tell_stop<L: Link>(console: &mut L, why: CheckpointWhy, place: u32) -> u8
    ensures { TellsStop why place (L.state console.old) (L.state console.new) result }
{
    match why {
        CheckpointWhy::Memory => 5,
        CheckpointWhy::Keeper => 4,
        CheckpointWhy::CountFull => print_count_full(console, place),
    }
}

/// Tells what came of a checkpoint, and answers the status.
fn tell_end<L: Link>(console: &mut L, end: CheckpointEnd) -> u8
    ensures { TellsEnd end (L.state console.old) (L.state console.new) result }
{
    match end {
        CheckpointEnd::Made(text) => print(console, text.as_bytes(), 0),
        CheckpointEnd::Stopped(fault) => tell_stop(console, fault.why, fault.place),
        CheckpointEnd::Unmade(fault) => tell_fault(console, fault),
    }
}

/// Makes the records begin anew that the store has of the pools in the folder, and tells what came of
/// it once they were given back.
pub(crate) fn run_checkpoint<L: Link, P: Store>(
    alloc: Global,
    settings: &Settings,
    folder: &str,
    console: &mut L,
    store: &mut P,
) -> u8
    requires rules { IsTrue (are_settings settings.now) }
    requires own_names { IsTrue (have_own_names settings.now.pools) }
    ensures { (clock : ℕ → Option (List ℕ)) (listener : ListenerState) → RunsCheckpoint settings.now folder.now (P.state store.old) (P.state store.new)
        (record { console = L.state console.old; clock = clock; listener = listener })
        (record { console = L.state console.new; clock = clock; listener = listener }) result }
{
    let pools = settings.pools.as_slice();
    match attach_all(alloc, store, folder, pools) {
        Ok(keepers) => {
            let (end, keepers) = checkpoint_over(alloc, settings, keepers);
            detach_all(store, folder, pools, keepers);
            tell_end(console, end)
        }
        Err(fault) => start_status(fault),
    }
}

/// A checkpoint that ends with status 0 made the records of each pool begin anew: where a store tells
/// what it keeps, they have the lines of the rows for which they stood, after as many entries, and no
/// line of a log. The blobs stay.
pub fn all_records_begin_anew()
    ensures { AllBeginAnew }
{}
