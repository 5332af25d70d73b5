ghost use Rattle.std.specs.Prelude.{◌≡◌};
ghost use Rattle.sqlite_keeper.specs.Faults.{is_memory as spec_is_memory, start_fault as spec_start_fault, are_of_pool};

use crate::opened_tables::OpenedTables;
use log::{error, info};
use program_log::ProgramLog;
use sqlite::{Error, ErrorCode};
use std::alloc::Global;
use std::fmt::Display;
use std::fs;
use std::fs::OpenOptions;
use std::io::ErrorKind;
use std::time::Instant;
use sw_base::StartFault;

// After each so many lines of a base, and of a log, it is logged that they are read.
const LOGGED_LINES: u64 = 100_000;

/// Where records lie, and where it is logged what becomes of them.
#[derive(Drop)]
pub(crate) struct Site {
    pub rt: HostRuntime,
    pub alloc: Global,
    log: ProgramLog,
    pub path: String,
    /// When the file began to be opened, where the clock told it.
    begun: Option<Instant>,
}

pub(crate) fn is_memory(error: &Error) -> bool
    ensures { result ≡ spec_is_memory error.now }
{
    matches!(error, Error::SqliteFailure(ErrorCode::OutOfMemory))
}

// The macros of the log cost much to prove, so each stands in a function of its own.

fn log_failed<D: Display>(log: &ProgramLog, call: &str, path: &str, why: &D) {
    error!(log; "can't {call} {path}: {why}");
}

fn make_folder(rt: &HostRuntime, log: &ProgramLog, folder: &str) -> Result<(), StartFault> {
    match fs::create_dir_all(rt, folder) {
        Ok(()) => Ok(()),
        Err(error) if error.kind() == ErrorKind::OutOfMemory => Err(StartFault::Memory),
        Err(error) => {
            log_failed(log, "make the folder", folder, &error);
            Err(StartFault::Failed)
        }
    }
}

impl Site {
    /// The place of a pool in a folder, which is made where there is none.
    pub fn new(
        rt: HostRuntime,
        log: ProgramLog,
        alloc: Global,
        folder: &str,
        pool: &str,
    ) -> Result<Site, StartFault> {
        make_folder(&rt, &log, folder)?;
        Ok(Site {
            rt,
            alloc,
            log,
            path: format!(in alloc; "{folder}/{pool}.sqlite")?,
            begun: Instant::now(&log).ok(),
        })
    }

    pub fn start_fault(&self, error: &Error) -> StartFault
        ensures { result ≡ spec_start_fault error.now }
    {
        self.log_unopened(error);
        if is_memory(error) {
            StartFault::Memory
        } else {
            StartFault::Failed
        }
    }

    pub fn log_failed<D: Display>(&self, call: &str, why: &D) {
        log_failed(&self.log, call, self.path.as_str(), why);
    }

    /// Logs why a call failed, if it is not want of memory.
    pub fn log_fault(&self, call: &str, error: &Error) {
        if !is_memory(error) {
            self.log_failed(call, error);
        }
    }

    /// Logs what became of the file after a fault.
    pub fn log_after_fault(&self, what: &str) {
        error!(self.log; "records at {} {what}", self.path);
    }

    /// Logs why the file can't be opened, if it is not want of memory. Of what the system answers `sqlite`
    /// tells nothing more than that it can't, so the file is opened once more to see it.
    pub fn log_unopened(&self, error: &Error) {
        let call = "open records at";
        match error {
            Error::SqliteFailure(ErrorCode::DatabaseBusy) => {
                self.log_failed(call, &"locked by another program");
            }
            Error::SqliteFailure(ErrorCode::CannotOpen) => {
                let path = self.path.as_str();
                match OpenOptions::new()
                    .read(true)
                    .write(true)
                    .open(&self.rt, path)
                {
                    Ok(_) => self.log_failed(call, error),
                    Err(why) => self.log_failed(call, &why),
                }
            }
            _ => self.log_fault(call, error),
        }
    }

    /// Logs which tables a file had as it was opened, and whether they are those of a pool.
    pub fn are_tables(&self, opened: OpenedTables) -> bool
        ensures { result ≡ are_of_pool opened }
    {
        match opened {
            OpenedTables::Second => true,
            OpenedTables::First => {
                info!(self.log; "records at {} were of version 1 and are of version 2", self.path);
                true
            }
            OpenedTables::Others => {
                let why = "its tables are not those of a pool";
                self.log_failed("open records at", &why);
                false
            }
        }
    }

    /// Logs how many lines were read, now and then, and at their end.
    pub fn log_read(&self, which: &str, at: u64, is_line: bool, end: &str) {
        if is_line && at % LOGGED_LINES == LOGGED_LINES - 1 {
            self.log_lines("are being read", which, at.saturating_add(1));
        }
        if !is_line && !end.is_empty() {
            self.log_lines(end, which, at);
        }
    }

    fn log_lines(&self, what: &str, which: &str, lines: u64) {
        let begun = self.begun.as_ref();
        let since = begun.and_then(|begun| begun.elapsed(&self.log).ok());
        let seconds = since.map_or(0, |since| since.as_secs());
        self.log_numbers(what, (which, lines), ("seconds", seconds));
    }

    pub fn log_numbers(&self, what: &str, first: (&str, u64), second: (&str, u64)) {
        let (one, lines) = first;
        let (other, more) = second;
        info!(self.log; "records at {} {what}, {one} {lines}, {other} {more}", self.path);
    }
}
