//! What posts the log of a pool that doors share.
//!
//! [`post`] copies the entries of the log that a poster has not taken in yet, in one turn at the pool,
//! and publishes them behind the turn. So what the poster has published, and then its pending entries,
//! begin the log that the pass has seen (`specs/Takes.antt`). It adds no entry to the log.
#![tactic(auto)]

mod posts;

pub use posts::post;
