//! Runs of `session` by transcripts, over any machine.
//!
//! [`check_sessions`] serves the bytes that a transcript sends by `session` of `swarm_http`, over a door
//! of machines of the kind that is asked for, and compares the replies with its rows. The program's own
//! machine has indexes, and `ListPool` of `swarm_plain` scans lists: where both pass, they answer the
//! same bytes. Under which settings a transcript is served, and whether it is one of `session` alone,
//! [`SessionSettings`] says: [`FileSettings`] reads the file that its words name, and [`OpenSettings`]
//! takes those that have the one word `session`.
#![tactic(auto)]

mod session_program;
mod settings;

pub use session_program::check_sessions;
pub use settings::{FileSettings, OpenSettings, SessionSettings};
