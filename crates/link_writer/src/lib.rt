//! Writes texts to a link.
//!
//! [`send_whole`] writes a text, [`send_flushed`] flushes it too, and [`send_both`] writes a head
//! with its body, in one piece where the body is short. `Sends` of `specs/Sends.antt` is their
//! contract: the text was written whole, or a call on the link failed and a front of the text was
//! written; a failure is told exactly where the link's count of failed writes and flushes rose, and
//! what the link has left to read stays as it is. [`print`] writes the last text of a command, and
//! answers the exit status of the program.
#![tactic(auto)]

mod printing;
mod sending;

pub use printing::print;
pub use sending::{send_both, send_flushed, send_whole};
