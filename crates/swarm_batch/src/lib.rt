//! A batch of tasks, each sent once over any number of stops.
//!
//! A [`Batch`] is a file of lines, each the body of a NewTask in JSON (RFC 8259) without a
//! `request_uuid`, with what has become of its first lines: the task of a line, or its refusal.
//! [`Batch::next`] is the line that is sent next, [`Batch::body`] its body with the uuid of the batch's
//! name and the line's number in place, and [`Batch::told`] marks it by what its reply told.
//! [`Batch::progress`] is what is saved of it, and [`Batch::read`] reads a file and its progress, or
//! tells the first rule that one of them breaks.
//!
//! `specs/` has a module a topic: `Lines`, a text and its lines, `Named`, a line's task under a uuid,
//! `Broken` and `Reading`, the rules of a file, `Marks`, what has become of a line and its text,
//! `Names`, the batch's name, `Batches`, the batch, `Told`,
//! what a reply tells of a line, `Progress`, what is read of a progress, and
//! `Reopened`, of both together. The laws stand in `laws`.
#![tactic(auto)]

mod batch;
mod faults;
mod laws;
mod lines;
mod mark;
mod named;
mod names;
mod progress;
mod reading;
mod told;
mod word;

pub use batch::Batch;
pub use faults::{BatchFault, BatchRule};
pub use laws::{
    a_batch_is_read_again, a_progress_is_read, each_line_has_a_uuid, naming_changes_nothing_else,
    naming_keeps_the_task,
};
pub use mark::{Mark, Marked, mark_line};
pub use names::{is_batch_name, progress_name};
pub use told::told_mark;
