//! The commands of a client.
ghost use Rattle.std.specs.Prelude.{◌≡◌, Some, IfOk, string_bytes};
ghost use Rattle.sw_base.specs.Listeners.{ListenerState};
ghost use Rattle.swarm_keeper.specs.Stores.{StoreState};
ghost use Rattle.runners.specs.Calls.{RunnerState};
ghost use Rattle.client_requests.specs.Addresses.{address_of};
ghost use Rattle.client_commands.specs.Steps.{aside_of, world};
ghost use Rattle.command_words.specs.ClientWork.{HasWorkRanges, work_of};
ghost use Rattle.remote_commands.specs.Clients.{DoesWork, Fits, NamesBatch, RunsClient, client_tests, work_tests};
ghost use Rattle.remote_commands.specs.Environment.{environment};

use crate::option_fault::OptionFault;
use crate::options::{
    check_id, check_name, check_state, print_option_fault, server_of, wanted_state,
};
use client_commands::{
    Server, cancel, collect, collect_batch, list_bots, list_tasks, spawn_tasks, trigger,
};
use client_requests::ServerAddress;
use command_words::{Client, ClientWork};
use std::alloc::Global;
use sw_base::{Clock, Dialer, Files, Link};

/// Whether the options that the work has of its own are in their grammars.
fn check_work(alloc: Global, work: &ClientWork) -> Result<(), OptionFault>
    ensures fits { Fits (work_tests (work_of work.now)) result }
    ensures names { IfOk result (λ _. NamesBatch (work_of work.now)) }
{
    match work {
        ClientWork::Collect { id, .. } | ClientWork::Cancel { id, .. } => {
            check_id(alloc, id.as_str())
        }
        ClientWork::SpawnTasks { name, .. } => check_name(name.as_str()),
        ClientWork::Tasks { state, .. } => check_state(state.as_str()),
        ClientWork::Trigger { .. } | ClientWork::CollectBatch { .. } | ClientWork::Bots { .. } => {
            Ok(())
        }
    }
}

/// The address of the server, where all options are in their grammars.
fn server_for(alloc: Global, words: &Client) -> Result<ServerAddress, OptionFault>
    ensures address { IfOk result (λ a. address_of (string_bytes words.now.server) ≡ Some (string_bytes a.dial, string_bytes a.host)) }
    ensures fits { Fits (client_tests (string_bytes words.now.server) (string_bytes words.now.caller) (work_of words.now.work)) result }
    ensures names { IfOk result (λ _. NamesBatch (work_of words.now.work)) }
{
    match server_of(alloc, words.server.as_str(), words.caller.as_str()) {
        Ok(address) => match check_work(alloc, &words.work) {
            Ok(()) => Ok(address),
            Err(why) => Err(why),
        },
        Err(why) => Err(why),
    }
}

/// Does at a server what the words ask for.
fn do_work<L: Link, C: Clock, F: Files, W: Dialer>(
    alloc: Global,
    work: &ClientWork,
    server: &Server,
    console: &mut L,
    clock: &mut C,
    files: &mut F,
    dialer: &mut W,
) -> u8
    requires ranges { HasWorkRanges (work_of work.now) }
    requires names { NamesBatch (work_of work.now) }
    ensures { DoesWork (work_of work.now) server.now
        (world (W.state dialer.old) (L.state console.old) (aside_of (C.waited clock.old) (F.state files.old)))
        (world (W.state dialer.new) (L.state console.new) (aside_of (C.waited clock.new) (F.state files.new))) result }
{
    match work {
        ClientWork::Trigger { file } => {
            trigger(alloc, dialer, console, files, server, file.as_str())
        }
        ClientWork::Collect { polls, every, id } => collect(
            alloc,
            dialer,
            console,
            clock,
            server,
            id.as_str(),
            *polls,
            *every,
        ),
        ClientWork::Cancel { kill, id } => {
            cancel(alloc, dialer, console, server, id.as_str(), *kill)
        }
        ClientWork::SpawnTasks { name, file } => spawn_tasks(
            alloc,
            dialer,
            console,
            files,
            server,
            name.as_str(),
            file.as_str(),
        ),
        ClientWork::CollectBatch { polls, every, file } => collect_batch(
            alloc,
            dialer,
            console,
            files,
            clock,
            server,
            file.as_str(),
            *polls,
            *every,
        ),
        ClientWork::Tasks { pool, state, limit } => {
            let wanted = wanted_state(state.as_str());
            list_tasks(
                alloc,
                dialer,
                console,
                server,
                pool.as_str(),
                wanted,
                *limit,
            )
        }
        ClientWork::Bots { pool, limit } => {
            list_bots(alloc, dialer, console, server, pool.as_str(), *limit)
        }
    }
}

/// Carries a command of a client out, and answers the status with which the program ends.
pub fn run_client<L: Link, C: Clock, F: Files, W: Dialer>(
    alloc: Global,
    words: &Client,
    console: &mut L,
    clock: &mut C,
    files: &mut F,
    dialer: &mut W,
) -> u8
    requires ranges { HasWorkRanges (work_of words.now.work) }
    ensures { (store : StoreState) (listener : ListenerState) (runner : RunnerState) → RunsClient (string_bytes words.now.server) (string_bytes words.now.caller) (work_of words.now.work)
        (environment (F.state files.old) store (L.state console.old) (C.ahead clock.old) listener (W.state dialer.old) (C.waited clock.old) runner)
        (environment (F.state files.new) store (L.state console.new) (C.ahead clock.new) listener (W.state dialer.new) (C.waited clock.new) runner) result }
{
    match server_for(alloc, words) {
        Ok(found) => {
            let address = found.dial.as_str();
            let host = found.host.as_str();
            let caller = words.caller.as_str();
            let server = Server {
                address,
                host,
                caller,
            };
            do_work(alloc, &words.work, &server, console, clock, files, dialer)
        }
        Err(why) => print_option_fault(alloc, console, why),
    }
}
