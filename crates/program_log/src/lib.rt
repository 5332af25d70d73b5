//! The program's log: where its lines go, and what logs of the adapters below it.
//!
//! The adapters of sockets, records and children log by themselves, through `Log` of the kit's `log`, what
//! they do and why a call failed. The [`ProgramLog`] writes their records to the standard error. What
//! `sw_base` has of the console knows nothing of a log, so it is wrapped here: [`LoggedStream`] says why a
//! read or a write failed. Its state is that of what it wraps, so its contract is that one's too, whatever is
//! logged. [`LoggedFiles`] are the files of the disk, which say why one can't be had and how many lines a
//! saved one has.
#![tactic(auto)]

mod disk;
mod journal;
mod logged_files;
mod logged_stream;

pub use journal::{Journal, ProgramLog};
pub use logged_files::LoggedFiles;
pub use logged_stream::LoggedStream;
