//! The definitions of `swarm_model`, and of the indexes and the rows of bots over it, at work: small
//! pools, their requests and their replies.
//!
//! Each example is a function without a body, whose clauses the check computes. No crate of the
//! program stands on this one.
#![tactic(auto)]

pub mod blob_examples;
pub mod bot_examples;
pub mod end_examples;
pub mod examples;
pub mod fit_examples;
pub mod grant_examples;
pub mod index_examples;
pub mod page_examples;
pub mod registry_examples;
pub mod retry_examples;
pub mod reuse_examples;
pub mod row_examples;
pub mod summary_examples;
