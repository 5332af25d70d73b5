//! What is done over a door of one's own.
ghost use Rattle.std.specs.Prelude.{◌≡◌, ◌≤◌, ◌^◌, map, length, sum_by, is_some, IfOk, IsTrue};
ghost use Rattle.std.specs.List.{list_all};
ghost use Rattle.sw_base.specs.Link.{IsClean};
ghost use Rattle.swarm_model.specs.Settings.{are_settings};
ghost use Rattle.swarm_http.specs.Answered.{KeepsDoor};
ghost use Rattle.swarm_history.specs.Machines.{logs_of, pools_of, start_at, starts_of};
ghost use Rattle.pool_summaries.specs.Summaries.{summary_of};
ghost use Rattle.remote_commands.specs.Streams.{PrintsMade};
ghost use Rattle.swarm_cli.specs.ServerWork.{exit_status, work_status, start_status};
ghost use Rattle.swarm_cli.specs.Handling.{IsUsed, IsFinished, work_of, HasRange};
ghost use Rattle.swarm_cli.specs.KeptRecords.{RunsOver, TellsFault};
ghost use Rattle.swarm_cli.specs.SettingsFile.{RunsNew};

use crate::door_command::DoorCommand;
use crate::listening::serve_listener;
use crate::printing::print_bad_store;
use crate::telling::summary_of_machines;
use link_writer::print;
use std::alloc::{AllocError, Global};
use sw_base::{Listener, StartFault};
use swarm_history::{LoadFault, PlainDoor};
use swarm_http::{Clock, Door, Ended, Link, RequestReader, session};
use swarm_keeper::{Keeper, NoKeeper};
use swarm_machine::Pool;
use swarm_model::{Machine, PoolSettings, Settings};
use swarm_workers::WorkStop;

/// What comes of the use of a door.
#[derive(Clone, Copy, Debug, PartialEq, Eq)]
enum DoorResult {
    /// Nothing is printed any more, and this is the status.
    Ended(u8),
    /// A worker stopped, and the summary is to be printed.
    Worked(WorkStop),
}

fn exit_status(ended: Ended) -> u8
    ensures { result ≡ exit_status ended }
{
    match ended {
        Ended::Closed | Ended::LastAsked | Ended::Retired => 0,
        Ended::ReadFault | Ended::WriteFault => 4,
        Ended::CutShort | Ended::BadHead => 7,
    }
}

pub(crate) fn work_status(stop: WorkStop) -> u8
    ensures { result ≡ work_status stop }
{
    match stop {
        WorkStop::Done | WorkStop::NoMore => 0,
        WorkStop::Failed => 4,
        WorkStop::Memory => 5,
    }
}

pub(crate) fn start_status(fault: StartFault) -> u8
    ensures { result ≡ start_status fault }
{
    match fault {
        StartFault::Memory => 5,
        StartFault::Failed => 4,
    }
}

/// Serves the console, or the links that come.
fn use_door<D: Door, L: Link, C: Clock, N: Listener>(
    alloc: Global,
    settings: &Settings,
    command: &DoorCommand,
    door: &mut D,
    console: &mut L,
    clock: &mut C,
    listener: &mut N,
) -> DoorResult
    requires settings { (D.state door.old).settings ≡ settings.now }
    requires rules { IsTrue (are_settings settings.now) }
    requires clean { IsClean (L.state console.old) }
    requires range { HasRange command.now }
    requires calls { (D.state door.old).calls ≡ 0 }
    requires alone { IsTrue (D.state door.old).writer.alone }
    ensures used { IsUsed command.now (D.state door.old) (D.state door.new)
        (record { console = L.state console.old; clock = C.ahead clock.old; listener = N.state listener.old })
        (record { console = L.state console.new; clock = C.ahead clock.new; listener = N.state listener.new }) result }
    ensures door { KeepsDoor (2 ^ 40) (D.state door.old) (D.state door.new) }
{
    match command {
        DoorCommand::Session => match RequestReader::new(alloc) {
            Ok(mut reader) => {
                let ended = session(alloc, settings, &mut reader, door, clock, console);
                DoorResult::Ended(exit_status(ended))
            }
            Err(_) => DoorResult::Ended(5),
        },
        DoorCommand::Serve {
            address,
            connections,
        } => {
            let address = address.as_str();
            match serve_listener(
                alloc,
                settings,
                address,
                *connections,
                door,
                clock,
                listener,
            ) {
                Ok(stop) => DoorResult::Worked(stop),
                Err(fault) => DoorResult::Ended(start_status(fault)),
            }
        }
    }
}

/// Prints the summary of the pools, and answers the status.
pub(crate) fn print_summary<L: Link, M: Machine>(
    alloc: Global,
    pools: &[PoolSettings],
    machines: &[M],
    console: &mut L,
    status: u8,
) -> u8
    requires pools { pools_of (map M.kept machines.now) ≡ pools.now }
    ensures { PrintsMade (summary_of pools.now (start_at (starts_of (map M.kept machines.now))) (logs_of (map M.kept machines.now))) status (L.state console.old) (L.state console.new) result }
{
    match summary_of_machines(alloc, pools, machines) {
        Ok(text) => print(console, text.as_bytes(), status),
        Err(_) => 5,
    }
}

/// Prints what is still to be printed, and answers the status.
fn finish<L: Link, M: Machine>(
    alloc: Global,
    pools: &[PoolSettings],
    machines: &[M],
    console: &mut L,
    used: DoorResult,
) -> u8
    requires pools { pools_of (map M.kept machines.now) ≡ pools.now }
    ensures { IsFinished used (summary_of pools.now (start_at (starts_of (map M.kept machines.now))) (logs_of (map M.kept machines.now))) (L.state console.old) (L.state console.new) result }
{
    match used {
        DoorResult::Ended(status) => status,
        DoorResult::Worked(stop) => print_summary(
            alloc,
            pools,
            machines,
            console,
            work_status(stop),
        ),
    }
}

/// Tells why no door was made, and answers the status.
pub(crate) fn tell_fault<L: Link>(console: &mut L, fault: LoadFault) -> u8
    ensures { TellsFault fault (L.state console.old) (L.state console.new) result }
{
    match fault {
        LoadFault::Memory => 5,
        LoadFault::Failed => 4,
        LoadFault::BadStore { place, part, at } => print_bad_store(console, place, part, at),
    }
}

/// Carries a command out over keepers, one for each pool, and answers them with the status.
pub(crate) fn run_over<L: Link, C: Clock, N: Listener, K: Keeper + Drop>(
    alloc: Global,
    settings: &Settings,
    command: &DoorCommand,
    console: &mut L,
    clock: &mut C,
    listener: &mut N,
    keepers: Vec<K>,
) -> (u8, Vec<K>)
    requires rules { IsTrue (are_settings settings.now) }
    requires clean { IsClean (L.state console.old) }
    requires range { HasRange command.now }
    requires count { length keepers.items ≡ length settings.now.pools }
    ensures runs { RunsOver (work_of command.now) settings.now (map K.tables keepers.items) (map K.tables result.1.items) (sum_by K.faults keepers.items) (sum_by K.faults result.1.items)
        (record { console = L.state console.old; clock = C.ahead clock.old; listener = N.state listener.old })
        (record { console = L.state console.new; clock = C.ahead clock.new; listener = N.state listener.new }) result.0 }
    ensures new { IsTrue K.SURE → RunsNew (work_of command.now) settings.now
        (record { console = L.state console.old; clock = C.ahead clock.old; listener = N.state listener.old })
        (record { console = L.state console.new; clock = C.ahead clock.new; listener = N.state listener.new }) result.0 }
    ensures count { length result.1.items ≡ length settings.now.pools }
    ensures told { IsTrue (list_all is_some (map K.tables keepers.items)) → IsTrue (list_all is_some (map K.tables result.1.items)) }
{
    match PlainDoor::<Pool, K>::new(alloc, settings, keepers) {
        Ok(mut door) => {
            let used = use_door(
                alloc, settings, command, &mut door, console, clock, listener,
            );
            let (machines, keepers) = door.end();
            let pools = settings.pools.as_slice();
            (finish(alloc, pools, &machines, console, used), keepers)
        }
        Err((fault, keepers)) => (tell_fault(console, fault), keepers),
    }
}

/// For each pool a keeper that keeps nothing.
pub(crate) fn no_keepers(alloc: Global, pools: &[PoolSettings]) -> Result<Vec<NoKeeper>, AllocError>
    ensures { IfOk result (λ keepers. length keepers.items ≡ length pools.now) }
{
    let mut keepers = Vec::new(alloc);
    for _pool in pools {
        keepers.push(NoKeeper)?;
    }
    Ok(keepers)
}

/// Carries a command out over new logs, of which nothing is kept.
pub(crate) fn run_new<L: Link, C: Clock, N: Listener>(
    alloc: Global,
    settings: &Settings,
    command: &DoorCommand,
    console: &mut L,
    clock: &mut C,
    listener: &mut N,
) -> u8
    requires rules { IsTrue (are_settings settings.now) }
    requires clean { IsClean (L.state console.old) }
    requires range { HasRange command.now }
    ensures { RunsNew (work_of command.now) settings.now
        (record { console = L.state console.old; clock = C.ahead clock.old; listener = N.state listener.old })
        (record { console = L.state console.new; clock = C.ahead clock.new; listener = N.state listener.new }) result }
{
    match no_keepers(alloc, settings.pools.as_slice()) {
        Ok(keepers) => {
            let (status, _) = run_over(alloc, settings, command, console, clock, listener, keepers);
            status
        }
        Err(_) => 5,
    }
}
