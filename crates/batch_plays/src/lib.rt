//! A batch of tasks that is sent to a pool, over any number of stops, lost replies and lost saves.
//!
//! [`play_batch`] plays a list of [`BatchTurn`]s over any machine: a line is sent, marked and saved; or
//! its reply is lost; or the batch is read again from what was saved, which may be the progress before
//! the last save; or another caller asks the pool. The exact change of each turn stands in
//! `specs/Turns.antt`. By [`each_task_is_sent_once`], whatever turns come: the log has at most one
//! task of the caller under the uuid of each line, and exactly one where the line is marked with an id,
//! which is that of the line; and the play adds no task of the caller but those of the lines
//! (`specs/Once.antt`).
//!
//! A line is asked as the server would ask it: a body of more than 65536 bytes is refused, then one
//! that `swarm_wire` refuses, and then one whose pool doesn't let the caller create tasks
//! (`specs/Asking.antt`). The crate stands on `swarm_batch`, `swarm_wire` and `swarm_history`, and for
//! its law on `log_laws`.
#![tactic(auto)]

mod asking;
mod laws;
mod play;
mod pool;
mod saved_batch;
mod turn;

pub use laws::each_task_is_sent_once;
pub use play::play_batch;
pub use saved_batch::SavedBatch;
pub use turn::BatchTurn;
