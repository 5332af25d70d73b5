//! The program `swarm`: it hands the runtime, the words of the command line, the console, the system's
//! clock, the disk, the store of records, the system's sockets and its shell to `swarm_cli`, and ends
//! with its answer. What fails on the way, and what goes on, is logged as the environment says.
#![tactic(auto)]

use log::{LevelFilter, Logged, error};
use program_log::{Journal, LoggedFiles, LoggedStream};
use shell_runner::{ShellRunner, SystemShell};
use sqlite_keeper::SqliteStore;
use std::env;
use std::env::VarError;
use std::process::ExitCode;
use sw_base::{ConsoleLink, SystemClock};
use swarm_cli::run;
use tcp_links::TcpAll;

/// How much is logged, where the environment says it by a word that is known.
fn log_level(rt: &HostRuntime) -> Option<LevelFilter> {
    match env::var(rt, "SWARM_LOG") {
        Ok(word) => match word.as_str() {
            "off" => Some(LevelFilter::Off),
            "error" => Some(LevelFilter::Error),
            "info" => Some(LevelFilter::Info),
            _ => None,
        },
        Err(VarError::NotPresent) => Some(LevelFilter::Off),
        Err(_) => None,
    }
}

fn main(rt: HostRuntime) -> ExitCode {
    let alloc = rt.alloc();
    let Some(level) = log_level(&rt) else {
        let _ = eprintln!(rt; "SWARM_LOG is one of off, error and info");
        return ExitCode::from(2);
    };
    let log = Logged::new(rt, level, Journal(rt));
    let mut words = Vec::new(alloc);
    // Words that can't be read are no command.
    if let Ok(args) = env::args(&rt) {
        for word in args.skip(1) {
            if words.push(word).is_err() {
                error!(log; "no memory");
                return ExitCode::from(5);
            }
        }
    }
    let mut console = ConsoleLink::new(
        LoggedStream::new(&log, "standard input", rt.stdin()),
        LoggedStream::new(&log, "standard output", rt.stdout()),
    );
    let mut clock = SystemClock::new(&rt);
    let mut files = LoggedFiles::new(&rt, &log);
    let mut store = SqliteStore::new(&rt, log);
    let mut listener = TcpAll::new(alloc, &rt, &log);
    let mut dialer = TcpAll::new(alloc, &rt, &log);
    let mut runner = ShellRunner::new(SystemShell::new(&rt, &log), &log);
    let status = run(
        &rt,
        alloc,
        &words,
        &mut console,
        &mut clock,
        &mut files,
        &mut store,
        &mut listener,
        &mut dialer,
        &mut runner,
    );
    match status {
        5 => error!(log; "no memory"),
        9 => error!(log; "what the server sent is no reply"),
        _ => {}
    }
    ExitCode::from(status)
}
