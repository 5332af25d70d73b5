//! A command over the kept records of the pools.
ghost use Rattle.std.specs.Prelude.{◌≡◌, IsTrue};
ghost use Rattle.sw_base.specs.Link.{IsClean};
ghost use Rattle.swarm_model.specs.Settings.{are_settings};
ghost use Rattle.swarm_policy.specs.Pools.{have_own_names};
ghost use Rattle.swarm_cli.specs.Handling.{work_of, HasRange};
ghost use Rattle.swarm_cli.specs.KeptRecords.{RunsKept};
ghost use Rattle.swarm_cli.specs.NextStarts.{NextStartsGoOn};

use crate::attaching::{attach_all, detach_all};
use crate::door_command::DoorCommand;
use crate::serving::{run_over, start_status};
use std::alloc::Global;
use sw_base::Listener;
use swarm_http::{Clock, Link};
use swarm_keeper::Store;
use swarm_model::Settings;

/// Carries a command out over the records that the store has of the pools in the folder.
pub(crate) fn run_kept<L: Link, C: Clock, P: Store, N: Listener>(
    alloc: Global,
    settings: &Settings,
    folder: &str,
    command: &DoorCommand,
    console: &mut L,
    clock: &mut C,
    store: &mut P,
    listener: &mut N,
) -> u8
    requires rules { IsTrue (are_settings settings.now) }
    requires own_names { IsTrue (have_own_names settings.now.pools) }
    requires clean { IsClean (L.state console.old) }
    requires range { HasRange command.now }
    ensures { RunsKept (work_of command.now) settings.now folder.now (P.state store.old) (P.state store.new)
        (record { console = L.state console.old; clock = C.ahead clock.old; listener = N.state listener.old })
        (record { console = L.state console.new; clock = C.ahead clock.new; listener = N.state listener.new }) result }
{
    let pools = settings.pools.as_slice();
    match attach_all(alloc, store, folder, pools) {
        Ok(keepers) => {
            let (status, keepers) = run_over(
                alloc, settings, command, console, clock, listener, keepers,
            );
            detach_all(store, folder, pools, keepers);
            status
        }
        Err(fault) => start_status(fault),
    }
}

/// The next command finds what the last one left: where a store tells what it keeps, a command over
/// the records of the same pools begins with the rows from which each log began, and with the log,
/// and each blob of a pool has its bytes in the records. Else there was no memory, or a keeper failed.
pub fn the_next_start_goes_on()
    ensures { NextStartsGoOn }
{}
