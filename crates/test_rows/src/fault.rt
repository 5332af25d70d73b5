use std::alloc::{AllocError, AllocFailed, Global};
use std::io;
use test_programs::tell;

/// Why a file of rows does not pass.
#[derive(Drop)]
pub(crate) enum Fault {
    Memory,
    /// What is wrong at a line.
    At { line: usize, message: String },
}

impl From<AllocError> for Fault {
    fn from(_error: AllocError) -> Fault {
        Fault::Memory
    }
}

impl<T: Drop> From<AllocFailed<T>> for Fault {
    fn from(_failed: AllocFailed<T>) -> Fault {
        Fault::Memory
    }
}

/// The fault with this message, or want of memory for it.
pub(crate) fn fault_at(line: usize, message: Result<String, AllocError>) -> Fault {
    match message {
        Ok(message) => Fault::At { line, message },
        Err(_) => Fault::Memory,
    }
}

/// The fault that a line is not as it has to be.
pub(crate) fn form_fault(alloc: Global, line: usize, wanted: &'static str, came: &str) -> Fault {
    fault_at(
        line,
        format!(in alloc; "{wanted} is wanted, and not `{came}`"),
    )
}

/// Tells of the fault of a file, and answers `false`: not all has passed.
pub(crate) fn tell_fault<R: Print + Eprint + AllocGlobal>(
    rt: &R,
    file: &str,
    fault: &Fault,
) -> io::Result<bool> {
    let alloc = rt.alloc();
    let failure = match fault {
        Fault::Memory => format!(in alloc; "{file}: there is no memory"),
        Fault::At { line, message } => format!(in alloc; "{file}:{line}: {message}"),
    };
    tell(rt, failure?.as_str())
}
