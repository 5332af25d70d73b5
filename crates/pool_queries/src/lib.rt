//! What the rules ask of a pool, and the answers to the requests that only read.
//!
//! A machine implements [`PoolQueries`]: each query is a scan of the rows by its contract. What a
//! reader of tasks and bots asks is the smaller [`ReadQueries`], which rows without blobs can answer
//! too. Over any rows that meet it stand the views of tasks and bots, their pages, and whether a
//! caller may see a task; over those of a machine also what a blob or an output is answered. Each is
//! as `swarm_model`'s `Answers` defines it. A task is seen through [`ShownTask`], which shows it with
//! its own run or with the one that was tried again. The crate stands on `swarm_model`.
#![tactic(auto)]

mod blobs;
mod bot_pages;
mod output;
mod permitting;
mod pool_queries;
mod read_queries;
mod reading;
mod replies;
mod shown_task;
mod task_pages;
mod views;

pub use blobs::{find_missing, get_blob, has_blob};
pub use bot_pages::list_bots;
pub use output::stdout;
pub use permitting::{denied, may};
pub use pool_queries::PoolQueries;
pub use read_queries::ReadQueries;
pub use reading::{named_task, show_bot, task_count, task_result, whole_task};
pub use replies::{refusal, reply_only, reply_with_entry, unfit_refusal};
pub use shown_task::ShownTask;
pub use task_pages::list_tasks;
