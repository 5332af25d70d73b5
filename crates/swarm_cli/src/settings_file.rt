//! A command with the settings of a file.
ghost use Rattle.std.specs.Prelude.{◌≡◌, ℕ, IsTrue, List, Option, None};
ghost use Rattle.sw_base.specs.Link.{IsClean};
ghost use Rattle.sw_base.specs.Listeners.{ListenerState};
ghost use Rattle.swarm_keeper.specs.Stores.{StoreState};
ghost use Rattle.swarm_model.specs.Settings.{are_settings};
ghost use Rattle.swarm_policy.specs.Pools.{have_own_names};
ghost use Rattle.swarm_cli.specs.Handling.{service_of, HasRanges};
ghost use Rattle.swarm_cli.specs.SettingsFile.{PrintsFault, RunsUnder, RunsText, RunsFile, store_rule as spec_store_rule};

use crate::boarding::run_with_boards;
use crate::checkpoint::run_checkpoint;
use crate::door_command::Service;
use crate::kept_records::run_kept;
use crate::printing::print_refusal;
use crate::serving::run_new;
use crate::sharing::run_shared;
use std::alloc::Global;
use std::marker::Send;
use std::sync::Wait;
use std::thread::Threads;
use sw_base::{Acceptor, FileFault, Files, Listener};
use swarm_http::{Clock, Link};
use swarm_keeper::Store;
use swarm_model::Settings;
use swarm_policy::{SettingsFault, read_settings};

/// The most bytes of a file with settings.
const SETTINGS_SIZE: u64 = 1_048_576;

/// Carries a command out over new logs, of which nothing is kept. So no records can begin anew.
pub(crate) fn run_unkept<T: Threads + Wait + Sync, L: Link, C: Clock + Drop + Send, N: Listener>(
    rt: &T,
    alloc: Global,
    settings: &Settings,
    service: &Service,
    console: &mut L,
    clock: &mut C,
    listener: &mut N,
) -> u8
    requires rules { IsTrue (are_settings settings.now) }
    requires clean { IsClean (L.state console.old) }
    requires range { HasRanges service.now }
    ensures { (store : StoreState) → RunsUnder (service_of service.now) None settings.now store store
        (record { console = L.state console.old; clock = C.ahead clock.old; listener = N.state listener.old })
        (record { console = L.state console.new; clock = C.ahead clock.new; listener = N.state listener.new }) result }
{
    match service {
        Service::ByOne(command) => run_new(alloc, settings, command, console, clock, listener),
        Service::BySeveral {
            address,
            workers,
            connections,
        } => run_shared(
            rt,
            alloc,
            settings,
            address.as_str(),
            *workers,
            *connections,
            console,
            &*clock,
            listener,
        ),
        Service::WithBoards {
            address,
            workers,
            connections,
            boards,
        } => run_with_boards(
            rt,
            alloc,
            settings,
            address.as_str(),
            *workers,
            *connections,
            boards,
            console,
            &*clock,
            listener,
        ),
        Service::Checkpoint => print_refusal(alloc, console, "store", "missing"),
    }
}

/// Which rule settings with a folder break where boards are asked for.
fn store_rule(workers: u32) -> &'static str
    ensures { result.now ≡ spec_store_rule workers }
{
    if workers == 1 {
        return "boards";
    }
    "workers"
}

fn run_accepted<T: Threads + Wait + Sync, L: Link, C: Clock + Drop + Send, P: Store, N: Listener>(
    rt: &T,
    alloc: Global,
    settings: &Settings,
    service: &Service,
    console: &mut L,
    clock: &mut C,
    store: &mut P,
    listener: &mut N,
) -> u8
    requires rules { IsTrue (are_settings settings.now) }
    requires own_names { IsTrue (have_own_names settings.now.pools) }
    requires clean { IsClean (L.state console.old) }
    requires range { HasRanges service.now }
    ensures { RunsUnder (service_of service.now) settings.now.store settings.now (P.state store.old) (P.state store.new)
        (record { console = L.state console.old; clock = C.ahead clock.old; listener = N.state listener.old })
        (record { console = L.state console.new; clock = C.ahead clock.new; listener = N.state listener.new }) result }
{
    match &settings.store {
        None => run_unkept(rt, alloc, settings, service, console, clock, listener),
        Some(folder) => match service {
            Service::ByOne(command) => run_kept(
                alloc,
                settings,
                folder.as_str(),
                command,
                console,
                clock,
                store,
                listener,
            ),
            Service::BySeveral { .. } => print_refusal(alloc, console, "store", "workers"),
            Service::WithBoards { workers, .. } => {
                print_refusal(alloc, console, "store", store_rule(*workers))
            }
            Service::Checkpoint => run_checkpoint(alloc, settings, folder.as_str(), console, store),
        },
    }
}

fn print_fault<L: Link>(alloc: Global, console: &mut L, fault: &SettingsFault) -> u8
    ensures { (clock : ℕ → Option (List ℕ)) (listener : ListenerState) (store : StoreState) → PrintsFault fault.now store store
        (record { console = L.state console.old; clock = clock; listener = listener })
        (record { console = L.state console.new; clock = clock; listener = listener }) result }
{
    match fault {
        SettingsFault::Memory => 5,
        SettingsFault::Broken { place, rule } => {
            print_refusal(alloc, console, place.as_str(), rule.name())
        }
    }
}

fn run_text<T: Threads + Wait + Sync, L: Link, C: Clock + Drop + Send, P: Store, N: Listener>(
    rt: &T,
    alloc: Global,
    text: &[u8],
    service: &Service,
    console: &mut L,
    clock: &mut C,
    store: &mut P,
    listener: &mut N,
) -> u8
    requires clean { IsClean (L.state console.old) }
    requires range { HasRanges service.now }
    ensures { RunsText (service_of service.now) text.now (P.state store.old) (P.state store.new)
        (record { console = L.state console.old; clock = C.ahead clock.old; listener = N.state listener.old })
        (record { console = L.state console.new; clock = C.ahead clock.new; listener = N.state listener.new }) result }
{
    match read_settings(alloc, text) {
        Ok(settings) => run_accepted(
            rt, alloc, &settings, service, console, clock, store, listener,
        ),
        Err(fault) => print_fault(alloc, console, &fault),
    }
}

/// Carries a command out under the settings of the file at a path, or prints what is wrong with
/// them.
pub(crate) fn run_file<
    T: Threads + Wait + Sync,
    L: Link,
    C: Clock + Drop + Send,
    F: Files,
    P: Store,
    N: Listener,
>(
    rt: &T,
    alloc: Global,
    path: &str,
    service: &Service,
    console: &mut L,
    clock: &mut C,
    files: &mut F,
    store: &mut P,
    listener: &mut N,
) -> u8
    requires clean { IsClean (L.state console.old) }
    requires range { HasRanges service.now }
    ensures { RunsFile (service_of service.now) path.now (F.state files.old) (F.state files.new) (P.state store.old) (P.state store.new)
        (record { console = L.state console.old; clock = C.ahead clock.old; listener = N.state listener.old })
        (record { console = L.state console.new; clock = C.ahead clock.new; listener = N.state listener.new }) result }
{
    match files.load(alloc, path, SETTINGS_SIZE) {
        Ok(Some(text)) => run_text(rt, alloc, &text, service, console, clock, store, listener),
        Ok(None) => print_refusal(alloc, console, path, "absent"),
        Err(FileFault::TooLong) => print_refusal(alloc, console, path, "count"),
        Err(FileFault::Failed) => 4,
        Err(FileFault::Memory) => 5,
    }
}
