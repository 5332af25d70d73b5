//! The bodies of the calls on tasks, on blobs and on the output of runs, in JSON (RFC 8259) with the
//! names of `swarming.v2`.
//!
//! [`read_task`] reads the request for a task; [`read_cancel`], [`read_task_id`], [`read_list`] and
//! [`read_count`] read the bodies of CancelTask, GetResult, ListTasks and CountTasks, [`read_blobs`]
//! and [`read_stdout`] those of FindMissing and GetStdout, and [`take_properties_at`] the properties of
//! a slice. Each gives what the body says or the first rule that it breaks, exactly as its definition
//! says, but for want of memory: `missing`, `type` and `unknown` are tried for all fields in their
//! order, then the other rules. `specs/` has a module a call: `Tasks`, which reads its
//! `SliceProperties`, `Cancels`, `Results`, `Lists` and `Counts`, which read the state by `States`,
//! `BlobLists` and `Stdouts`.
//!
//! Fields, lists, ids, digests, numbers within a range and how many rows a page shows are read by
//! `json_fields`, and a task is checked by `task_checks`; the crate stands on those two, on
//! `swarm_model`, `task_props` and `dimensions`, and on `serde_json`.
#![tactic(auto)]

mod blob_lists;
mod cancels;
mod counts;
mod lists;
mod results;
mod slice_properties;
mod states;
mod stdouts;
mod tasks;

pub use blob_lists::read_blobs;
pub use cancels::read_cancel;
pub use counts::read_count;
pub use lists::{ListBody, read_list};
pub use results::read_task_id;
pub use slice_properties::take_properties_at;
pub use stdouts::{StdoutBody, read_stdout};
pub use tasks::read_task;
