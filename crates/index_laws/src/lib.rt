//! That the indexes of a pool follow each entry of its log.
//!
//! Each law is the contract of an empty function; its statement stands in `specs/`, and its proof in
//! `proofs/`. An entry that may follow touches at most one task and at most one bot (`Touched`),
//! whose numbers follow from the old rows, and at most one blob (`BlobDeadlines`). So a machine that
//! keeps indexes beside its rows brings them up to date for every kind of entry alike: it asks for
//! the two numbers and for the deadline of the blob, changes the rows, and sets what the indexes hold
//! of the touched rows anew, from the new rows. The laws say that the indexes then hold what all new
//! rows give: the deadlines of tasks and bots (`RowDeadlines`) and of blobs (`BlobDeadlines`), the
//! queues of pending tasks (`TaskQueues`), the claims (`TaskClaims`), the uuids (`TaskUuids`), the
//! tasks whose outcome others may take (`TaskSources`), how often a digest is used (`TaskUses`), the
//! counts of states (`StateCounts`) and any other sum over the tasks (`RowSums`). A task has the
//! claims and the output of its last run, and of the one that was lost and tried again. `SetToCome`
//! has the set of the queue in which a task waits after an entry, by the rows before it, so that room
//! can be made; so it is with the hash that an entry brings. Other laws say what a look-up means: the
//! task that a bot gets, that a bot claimed, that a caller sent or whose outcome a slice takes, and
//! the next deadline of the pool. `Loads` has what the indexes gain with a row that is added as it
//! was kept, for a pool that is opened from rows. The indexes themselves are those of `dim_queue` and
//! `pool_index`; the crate has no code that runs.
#![tactic(auto)]

mod deadlines;
mod links;
mod loads;
mod queues;
mod rows;
mod sources;
mod uses;

pub use deadlines::{
    blob_deadlines_follow, bot_deadlines_follow, deadline_is_next, task_deadlines_follow,
};
pub use links::{
    claim_is_found, claims_are_fresh, claims_follow, uuid_is_found, uuids_are_fresh, uuids_follow,
};
pub use loads::indexes_gain;
pub use queues::{first_is_next, place_is_ready, queues_follow};
pub use rows::{counts_follow, rows_grow_by_one, sums_follow};
pub use sources::{created_in_order, source_hash_is_known_before, source_is_found, sources_follow};
pub use uses::{use_is_counted, uses_are_few, uses_change, uses_of_touched};
