//! The log of a pool, over any rows.
//!
//! [`LoggedPool`] is a [`Machine`](swarm_model::Machine): it keeps the base from which its log begins,
//! the entries, what these weigh together and the weight of the one that lies ready, and its rows are
//! the replay of its log, which is legal. What it asks of the rows, beside the queries of
//! `pool_queries`, is [`PoolRows`]: to come from those of a base, to make ready what an entry adds, to
//! do what the entry does, and to keep the bytes of the blobs. So what concerns the log is written
//! once, and how rows are found is left to those that implement the trait.
#![tactic(auto)]

mod logged_pool;
mod pool_rows;

pub use logged_pool::LoggedPool;
pub use pool_rows::PoolRows;
