//! The words of the command line, carried out.
ghost use Rattle.std.specs.Prelude.{◌≡◌, ◌≤◌, map, option_map, string_bytes};
ghost use Rattle.sw_base.specs.Dialers.{DialerState};
ghost use Rattle.sw_base.specs.Link.{IsClean};
ghost use Rattle.runners.specs.Calls.{RunnerState};
ghost use Rattle.command_words.specs.Commands.{BoardRanges, boards_of, command_of, value_of};
ghost use Rattle.command_words.specs.Commands as words;
ghost use Rattle.swarm_cli.specs.ServerWork.{serving};
ghost use Rattle.swarm_cli.specs.Handling.{HasRanges, service_of};
ghost use Rattle.remote_commands.specs.Environment.{environment};
ghost use Rattle.swarm_cli.specs.Run.{CarriesOut, Runs, RunsBy};

use crate::door_command::{DoorCommand, Service};
use crate::drill::run_drill;
use crate::settings_file::{run_file, run_unkept};
use command_words::{Boards, Command, Words, read_words};
use link_writer::print;
use remote_commands::{run_bot_command, run_client};
use runners::Runner;
use std::alloc::Global;
use std::marker::Send;
use std::sync::Wait;
use std::thread::Threads;
use sw_base::{Acceptor, Dialer, Files, Listener};
use swarm_http::{Clock, Link};
use swarm_keeper::Store;
use swarm_policy::open_settings;

/// Carries a command out over the pools, under the settings of a file, or the open ones where no file
/// is named.
fn run_service<
    T: Threads + Wait + Sync,
    L: Link,
    C: Clock + Drop + Send,
    F: Files,
    P: Store,
    N: Listener,
>(
    rt: &T,
    alloc: Global,
    settings: &Option<String>,
    service: &Service,
    console: &mut L,
    clock: &mut C,
    files: &mut F,
    store: &mut P,
    listener: &mut N,
) -> u8
    requires clean { IsClean (L.state console.old) }
    requires range { HasRanges service.now }
    ensures { (dialer : DialerState) (runner : RunnerState) → RunsBy (service_of service.now) (option_map string_bytes settings.now)
        (environment (F.state files.old) (P.state store.old) (L.state console.old) (C.ahead clock.old) (N.state listener.old) dialer (C.waited clock.old) runner)
        (environment (F.state files.new) (P.state store.new) (L.state console.new) (C.ahead clock.new) (N.state listener.new) dialer (C.waited clock.new) runner) result }
{
    match settings {
        None => match open_settings(alloc) {
            Ok(settings) => run_unkept(rt, alloc, &settings, service, console, clock, listener),
            Err(_) => 5,
        },
        Some(path) => run_file(
            rt,
            alloc,
            path.as_str(),
            service,
            console,
            clock,
            files,
            store,
            listener,
        ),
    }
}

/// One worker serves over a door of its own, several share the pools, and so does one with boards.
fn service_by(address: String, workers: u32, connections: u32, boards: Boards) -> Service
    requires workers { (1 ≤ workers) × (workers ≤ 32) }
    requires number { connections ≤ 1000000 }
    requires boards { BoardRanges (boards_of boards) }
    ensures service { service_of result ≡ serving (string_bytes address) workers connections (boards_of boards) }
    ensures range { HasRanges result }
{
    if boards.count != 0 {
        return Service::WithBoards {
            address,
            workers,
            connections,
            boards,
        };
    }
    if workers == 1 {
        return Service::ByOne(DoorCommand::Serve {
            address,
            connections,
        });
    }
    Service::BySeveral {
        address,
        workers,
        connections,
    }
}

fn carry_out<
    T: Threads + Wait + Sync,
    L: Link,
    C: Clock + Drop + Send,
    F: Files,
    P: Store,
    N: Listener,
    W: Dialer,
    R: Runner,
>(
    rt: &T,
    alloc: Global,
    command: Command,
    console: &mut L,
    clock: &mut C,
    files: &mut F,
    store: &mut P,
    listener: &mut N,
    dialer: &mut W,
    runner: &mut R,
) -> u8
    requires clean { IsClean (L.state console.old) }
    requires ranges { words.HasRanges (value_of command) }
    ensures { CarriesOut (value_of command)
        (environment (F.state files.old) (P.state store.old) (L.state console.old) (C.ahead clock.old) (N.state listener.old) (W.state dialer.old) (C.waited clock.old) (R.state runner.old))
        (environment (F.state files.new) (P.state store.new) (L.state console.new) (C.ahead clock.new) (N.state listener.new) (W.state dialer.new) (C.waited clock.new) (R.state runner.new)) result }
{
    match command {
        Command::Session(session) => run_service(
            rt,
            alloc,
            &session.settings,
            &Service::ByOne(DoorCommand::Session),
            console,
            clock,
            files,
            store,
            listener,
        ),
        Command::Serve(serve) => {
            let service = service_by(
                serve.address,
                serve.workers,
                serve.connections,
                serve.boards,
            );
            run_service(
                rt,
                alloc,
                &serve.settings,
                &service,
                console,
                clock,
                files,
                store,
                listener,
            )
        }
        Command::Checkpoint(words) => run_file(
            rt,
            alloc,
            words.settings.as_str(),
            &Service::Checkpoint,
            console,
            clock,
            files,
            store,
            listener,
        ),
        Command::Bot(words) => run_bot_command(alloc, &words, console, clock, dialer, runner),
        Command::Drill(drill) => run_drill(alloc, drill.start, drill.cycles, console),
        Command::Client(words) => run_client(alloc, &words, console, clock, files, dialer),
    }
}

/// Carries out the words of the command line, without the program's own name, and answers the
/// status with which the program ends.
///
/// The records of the pools are taken from the store, and given back to it, where the settings name
/// a folder for them.
///
/// | Status | Where |
/// |---|---|
/// | 0 | the command did its whole work: `bot` ran as many tasks as it may, or was told to end; the input of `session` ended between requests, its last request asked to close, or 65536 were answered; `serve` served as many connections as it may, or no more came; `checkpoint` made the records of all pools begin anew, and printed `pool NAME front C tasks T` for each; `drill` printed its counts |
/// | 2 | the words are no command, or ask for help; the text that says so is printed |
/// | 3 | the settings are refused, and `settings PLACE RULE` is printed, for `serve` with several workers or with boards also where they name a folder for the records, with boards also where a pool is too large for them, and for `checkpoint` where they name none; or the records of a pool are, and `store PLACE AT` is printed, or `store PLACE base AT` where it is a line of their base; or `checkpoint` finds more than 2^31 entries before a pool's records, and `store PLACE count` is printed; or an option of a client's command or of `bot` is out of its grammar, and `settings OPTION grammar` is printed; or the file of `trigger` or of a batch is not there or too long; or the file of a batch or its progress is refused, and `batch LINE RULE` is printed |
/// | 4 | a read, a write or a flush on the console failed, the file or the records could not be read, the progress of a batch could not be saved, no connection could be accepted, the server could not be reached by a client's command, or the folder of `bot` could not be made |
/// | 5 | there was no memory |
/// | 6 | the server refused the request of a client's command, and the refusal's code is printed; or each line of a batch is done and one was refused; or `bot` was refused for good |
/// | 7 | the input of `session` ended inside a request, or a head was refused |
/// | 8 | `collect` or `collect-batch` asked as often as it may, and the task has not ended; or `bot` used up its polls or its steps |
/// | 9 | what the server sent is no reply |
pub fn run<
    T: Threads + Wait + Sync,
    L: Link,
    C: Clock + Drop + Send,
    F: Files,
    P: Store,
    N: Listener,
    W: Dialer,
    R: Runner,
>(
    rt: &T,
    alloc: Global,
    words: &[String],
    console: &mut L,
    clock: &mut C,
    files: &mut F,
    store: &mut P,
    listener: &mut N,
    dialer: &mut W,
    runner: &mut R,
) -> u8
    requires { IsClean (L.state console.old) }
    ensures { Runs (command_of (map string_bytes words.now))
        (environment (F.state files.old) (P.state store.old) (L.state console.old) (C.ahead clock.old) (N.state listener.old) (W.state dialer.old) (C.waited clock.old) (R.state runner.old))
        (environment (F.state files.new) (P.state store.new) (L.state console.new) (C.ahead clock.new) (N.state listener.new) (W.state dialer.new) (C.waited clock.new) (R.state runner.new)) result }
{
    match read_words(alloc, words) {
        Ok(Words::Command(command)) => carry_out(
            rt, alloc, command, console, clock, files, store, listener, dialer, runner,
        ),
        Ok(Words::Refused { text }) => print(console, text.as_bytes(), 2),
        Err(_) => 5,
    }
}
