//! The commands of a client: [`trigger`], [`collect`], [`cancel`], [`list_tasks`] and [`list_bots`], and
//! those of batches, [`spawn_tasks`] and [`collect_batch`].
//!
//! Each request is one `exchange` of `server_calls`. Its head is exactly `head_text` of
//! `client_requests`, and of each JSON body it is said that the server reads it as the request meant,
//! by `asked_of` of `swarm_wire` (`specs/Requests.antt`).
//!
//! What a command does is a plan (`specs/Plans.antt`): the requests and the files that are loaded and
//! saved, each decided by what came of the steps before it, the texts that are printed, and the status.
//! `Follows` says that the plan was carried out, each step once and in order. The plans stand in
//! `specs/Commands.antt`, and those of batches in `specs/Batches.antt`;
//! what a run that sends a batch does to links and files is a law (`specs/BatchRuns.antt`).
#![tactic(auto)]

mod asking;
mod batch_collecting;
mod batch_files;
mod bots;
mod canceling;
mod collecting;
mod columns;
mod ids;
mod laws;
mod once;
mod output;
mod polls;
mod post;
mod printing;
mod rows;
mod server;
mod spawning;
mod tasks;
mod triggering;

pub use batch_collecting::collect_batch;
pub use bots::list_bots;
pub use canceling::cancel;
pub use collecting::collect;
pub use laws::a_run_sends_each_line_once;
pub use printing::settings_line;
pub use server::Server;
pub use spawning::spawn_tasks;
pub use tasks::list_tasks;
pub use triggering::trigger;
