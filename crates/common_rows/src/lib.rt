//! The rows of a pool, without indexes: what an entry does to them, and what is read of them.
//!
//! The pool of the program, the machine of tests and the published copies of a pool's rows keep
//! their tasks in one [`TaskRows`](task_rows::TaskRows) and their bots in one
//! [`Registry`](bot_registry::Registry). An entry changes both by [`change_rows`], so that they are
//! those of the pool after the entry (`specs/Changing.antt`). What it needs of them
//! (`specs/Suiting.antt`) holds of each entry that may follow a pool (`proofs/Entering.antt`);
//! [`suits_tasks`] and [`suits_bots`] test it where nothing is known of the entry. Rows that were
//! kept elsewhere are copied by [`load_tasks`] and [`load_bots`]. [`task_of`] and [`newest_below`]
//! read a task by its number, and the one that a page shows next.
//!
//! [`Rows`] are all rows of a pool, with the settings and the blobs: both machines open them from a
//! base, and an entry does to them what it does to the pool (`specs/Rows.antt`). What a machine has
//! beside them to find rows is its own.
#![tactic(auto)]

mod changing;
mod counting;
mod loading;
mod pages;
mod rows;
mod suiting;

pub use changing::{change_rows, run_of_bot};
pub use counting::count_in_state;
pub use loading::{load_bots, load_tasks};
pub use pages::{is_wanted, newest_below, task_of};
pub use rows::Rows;
pub use suiting::{suits_bots, suits_tasks};
