//! What a pool of tasks, bots and blobs is, and which histories it may have.
//!
//! `specs/` says, over whole lists: what a checked request may hold (`Fits`), how each request is
//! answered (`Answers`), what an entry of the log weighs and asks for (`Entries`), what it does to
//! the rows (`Effects`), where a log begins (`Bases`), from which rows it may begin (`BaseRules`) and
//! for which entries those rows stand (`Before`), what the rows weigh (`StateWeight`), which logs are
//! legal (`History`) and what one call does at its point of a shared log (`Points`). [`Machine`] is
//! what keeps such a log; its contract is these definitions alone. The rows of blobs are those of
//! `blob_rows`, which [`BlobRow`] is passed on from; [`allowed`] tells whether a pool gives a caller a
//! permission, and [`is_ahead`] whether a caller has seen a longer log. [`due_uncounted`], [`answer_uncounted`] and [`task_uncounted`] ask a machine where
//! nobody counts the rows that are read. The crate has no body of a machine. It stands on `task_props`
//! and `blob_rows`.
#![tactic(auto)]

mod allowing;
mod answer;
mod attempt;
mod bot_row;
mod bot_view;
mod deadline;
mod entry;
mod machine;
mod names;
mod permission;
mod points;
mod pool_settings;
mod pool_state;
mod read_rows;
mod reply;
mod request;
mod retried;
mod reuse;
mod rule;
mod steps;
mod task_row;
mod task_state;
mod task_view;
mod uncounted;
mod weighing;

pub use allowing::allowed;
pub use answer::{Answer, Decision};
pub use attempt::{Attempt, Chunk, Last};
pub use blob_rows::BlobRow;
pub use bot_row::BotRow;
pub use bot_view::BotView;
pub use deadline::{Cause, Deadline};
pub use entry::{Entry, EntryKind, EventKind, Outcome};
pub use machine::{Machine, ReserveFault};
pub use names::{fits_message, is_name};
pub use permission::Permission;
pub use points::is_ahead;
pub use pool_settings::{Grant, PoolSettings, Settings};
pub use pool_state::PoolState;
pub use read_rows::ReadRows;
pub use reply::{Part, Reply};
pub use request::Request;
pub use retried::{MaybeRetried, Retried, RetriedRoom};
pub use reuse::Reuse;
pub use rule::{Rule, Unfit};
pub use steps::Steps;
pub use task_row::TaskRow;
pub use task_state::{STATES, TaskState};
pub use task_view::TaskView;
pub use uncounted::{answer_uncounted, due_uncounted, task_uncounted};
pub use weighing::{rows_weight, weight};
