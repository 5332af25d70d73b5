//! What an entry does to rows, once for every machine that keeps some.
//!
//! A [`Change`] is the effect of one entry on one row, and [`change_row`] makes it on the row of a
//! number. [`change_bots`] does to all rows of bots what an entry does, and [`record_report`] to the
//! row of a task what a bot's report does. What an entry moves into rows, [`TaskParts`] and
//! [`BotParts`], can be made ready before, and so can the room for a chunk ([`make_fresh_room`]).
//! [`new_row`] and [`session_row`] are the rows that entries add.
//!
//! `specs/` says what is known of a row (`Rows`), what an entry moves (`Parts`), what it does to the
//! bots (`Bots`) and what a chunk needs (`Output`), in the words of `swarm_model`'s `Effects` and
//! `Deadlines`. The crate stands on `swarm_model`.
#![tactic(auto)]

mod bot_changes;
mod bots;
mod changing;
mod deadlines;
mod output;
mod parts;
mod queries;
mod task_changes;

pub(crate) use bot_changes::mark_silent;
pub use bot_changes::{
    ApplyEvent, AssignTask, MarkDead, MarkTerminating, Poll, RecordContact, ReleaseTask,
    ReplaceSession, session_row,
};
pub use bots::change_bots;
pub use changing::{Change, Row, change_row, place_of, row_of};
pub use deadlines::{blob_end, death_of, silence_of, slice_end};
pub use output::{fresh_chunk, keep_chunk, make_fresh_room, record_report};
pub use parts::{BotParts, TaskParts};
pub use queries::{
    ended_well, has_claim, is_capable, is_sent, is_tried_again, is_young, needs, waits_for,
};
pub use task_changes::{Cancel, ExpireSlice, Finish, LoseRun, MarkKill, StartRun, new_row};
