//! The rows of a pool's bots, found by number, by name and by what they can run.
//!
//! A [`Registry`] is seen as three things (`specs/Plain.antt`): the rows, what is made ready
//! of an entry, and how many bots there may be. Its queries answer as scans of the rows do, in the
//! words of `swarm_model`, and `apply` does to the rows what the entry does to the bots of a pool. What the registry keeps beside the rows stands in the invariant of
//! its `Model` alone (`specs/Inside.antt`): the numbers sorted by name, by which a bot and the one
//! that comes next after a name are found by bisection, and for each set of dimensions that a task
//! asked for the number of fit bots that match it, which tells whether some bot could run it.
//! An entry counts anew for the one bot that it changes. Each call's documentation says its cost.
//! Of what an entry needs only `reserve` takes memory. Rows that were kept elsewhere come one after
//! the other by `load`, in the order of their numbers.
//!
//! It stands on `row_changes`. `common_rows` keeps the bots of a pool in a [`Registry`].
#![tactic(auto)]

mod demand;
mod names;
mod registry;

pub use registry::Registry;
