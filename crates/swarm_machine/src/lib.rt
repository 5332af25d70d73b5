//! The pool of the program: a log over rows with indexes beside them.
//!
//! [`Pool`] is a [`Machine`](swarm_model::Machine): the log is that of `pool_log`, over
//! [`IndexedRows`]. They answer the queries of `pool_rules` by indexes that their invariant alone ties
//! to the rows (`specs/Indexes.antt`, `specs/Invariant.antt`), so the contract is that of any rows.
//! The rows are those of `common_rows`; `indexed_rows.rt` has the queries, and `indexes.rt` the
//! indexes. These are set anew for the rows that an entry touched (`touched.rt`): deadlines (`deadlines.rt`), queues (`queueing.rt`), sources of
//! outcomes (`sources.rt`), uses of digests (`uses.rt`) and counts of states (`counting.rt`).
//! A pool that opens from the rows of a base copies them, and loads each index row by row
//! (`loading_indexes.rt`).
//!
//! A task or a bot is found at its place by its number, and by bisection by its name, uuid or
//! claim, and so is the newest source of a hash, and whether a blob is in use. A task whose run was
//! tried again is found by the claims of both runs, and its uses are those of both until it ends.
//! Tasks wait in one queue for each set of dimensions, and those that are kept from a bot in one for
//! each set and bot. A poll or a claim reads at most one task row, and matches the set of each queue
//! at most once, and that of a queue which is kept from the bot never. The earliest deadline is at
//! hand, and so are the counts; a new deadline of a task, a bot or a blob costs a comparison for each
//! halving of the rows. A new deadline of a blob stands last, and the deadline of a blob whose life
//! ends stands first, so neither moves others; that of a blob which is put again moves at most half
//! of them, 16 bytes each. The sets of a new task are compared with at most 1,024 that are known, and
//! the one with which it will wait with those of the queues, as is that of a lost run which is tried
//! again. A set that is not known costs a pass over the bots, and so does a run that is lost by
//! silence. `apply` takes no memory: `reserve` took it.
//!
//! These read one row after another: a page of tasks in one state, as far as it has to look, so
//! that a rare state costs all of them; and a blob by its digest or number.
#![tactic(auto)]

mod counting;
mod deadlines;
mod indexed_rows;
mod indexes;
mod loading_indexes;
mod queueing;
mod sources;
mod touched;
mod uses;

pub use indexed_rows::IndexedRows;
use pool_log::LoggedPool;

/// The pool of the program.
pub type Pool = LoggedPool<IndexedRows>;
