//! The rows of a pool's tasks, found by number.
//!
//! [`TaskRows`] is seen as three things (`specs/Plain.antt`): the rows, what is made ready of an
//! entry, and how often the pool tries a lost run again. What answers a request reads a row through
//! [`ReadRows`](swarm_model::ReadRows), at one step a reading; what a machine keeps beside the rows
//! it reads by `uncounted_row`, at none, and what scans all of them by `uncounted_rows`. An entry
//! changes at most one row, by one of seven calls,
//! each of which asks only what it needs of the entry and of that row (`specs/Acting.antt`), and
//! ensures that the rows are those after the entry of every pool that had them before; where a run
//! ends, of every such pool that retries as often. Of what an entry needs only `reserve` takes
//! memory: the texts that it copied move into the rows, the chunks of a run grow in room that it
//! made, and so is a run kept that is tried again. Rows that were kept elsewhere come one after the
//! other by `load`, in the order of their numbers. The crate stands on `row_changes`; `common_rows`
//! keeps the tasks of a pool in one [`TaskRows`].
#![tactic(auto)]

mod in_place;
mod making;
mod rows;

pub use rows::TaskRows;
