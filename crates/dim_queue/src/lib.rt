//! The tasks of a pool that wait for a bot, in one queue for each set: the dimensions with which its
//! tasks wait, and the bot that they are kept from, if any.
//!
//! [`Queues::first_for`] answers which task a bot gets: of the waiting tasks whose dimensions it
//! matches and that are not kept from it, the one of the lowest priority, and at equal priorities
//! the one of the lowest number. A task waits from `enter` to `leave`. `enter` takes no memory:
//! `reserve` has made room before, and is the only call that can fail. Contracts say which task
//! waits with which set (`Waits` in `specs/Plain.antt`); which queue has which place is not promised.
//!
//! A queue keeps the priority of a task beside its number, so no row of a task is read here.
//! `first_for` visits each queue once, and `reserve` compares its set with that of each queue.
//! `enter` and `leave` search one queue by bisection and move at most the 128 tasks of one block of
//! it, and where a block comes or goes 24 bytes for each block behind it. No two queues have the
//! same set, and one without tasks is given to another set before a queue is added.
//!
//! A waiting task takes 35 bytes in full buffers: 8 in its queue and 27 in a map by number, which
//! doubles when it is full and never shrinks. A queue begins as one buffer, which doubles up to 128
//! tasks. A longer one grows and shrinks by blocks of 128, which are a quarter full on average at
//! least. The crate stands on `block_list` and `dimensions`.
#![tactic(auto)]

mod places;
mod queue;
mod queue_list;
mod queue_set;
mod queues;
mod task_order;
mod waiting;

pub use queue_set::QueueSet;
pub use queues::Queues;
pub use waiting::Waiting;
