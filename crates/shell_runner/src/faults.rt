ghost use Rattle.std.specs.Prelude.{◌≡◌};
ghost use Rattle.std.specs.IoError.{error_kind};
ghost use Rattle.sw_base.specs.Faults.{Rose};
ghost use Rattle.shell_runner.specs.Shells.{is_memory as spec_is_memory, IsFault};

use log::{Log, error};
use std::io;
use std::io::ErrorKind;
use sw_base::StartFault;

/// How many calls failed, each of which is logged.
#[derive(Drop)]
pub(crate) struct Faults<'a, G: Log> {
    log: &'a G,
    pub(crate) count: u64,
}

fn is_memory(error: &io::Error) -> bool
    ensures { result ≡ spec_is_memory (error_kind error.now) }
{
    match error.kind() {
        ErrorKind::OutOfMemory => true,
        _ => false,
    }
}

fn log_fault<G: Log>(log: &G, call: &str, object: &str, error: &io::Error) {
    error!(log; "can't {call} {object}: {error}");
}

impl<'a, G: Log> Faults<'a, G> {
    pub(crate) fn new(log: &'a G) -> Self
        ensures { result.count ≡ 0 }
    {
        Faults { log, count: 0 }
    }

    /// Counts and logs a call that failed.
    pub(crate) fn add(&mut self, call: &str, object: &str, error: &io::Error)
        ensures { Rose self.old.count self.new.count }
    {
        log_fault(self.log, call, object, error);
        self.count = self.count.saturating_add(1);
    }

    /// What a call with an error answers. Want of memory is no failure.
    pub(crate) fn fault(&mut self, call: &str, object: &str, error: &io::Error) -> StartFault
        ensures { IsFault result error.now self.old.count self.new.count }
    {
        if is_memory(error) {
            return StartFault::Memory;
        }
        self.add(call, object, error);
        StartFault::Failed
    }
}
