//! Whether a request fits a pool: whether all in it is what a checked request of its call may hold.
//!
//! [`fits`] tells it of any request and [`is_checked`] of a task, by the definitions of `swarm_model`
//! (`specs/Fits.antt`) and `task_props` (`specs/Checked.antt`). What reads a request from its body
//! gives one that fits; this is for requests from elsewhere. What rows keep of requests is asked part
//! by part: [`fits_pool`] and [`fits_session`] of what was asked for, [`fits_chunk`] and
//! [`fits_last_or_none`] of what was reported, [`is_blob_size`] of a content. None takes memory.
#![tactic(auto)]

mod checking;
mod fitting;
mod tasks;

pub use fitting::{
    fits, fits_chunk, fits_chunk_or_none, fits_last_or_none, fits_pool, fits_session, is_blob_size,
};
pub use tasks::is_checked;
