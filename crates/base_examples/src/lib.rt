//! The definitions beside `swarm_model` at work: lists, tables, heads, words, fields and their rules.
//!
//! Each example is a function without a body, whose clauses the check computes: what a definition
//! says of one small case, taken from a standard or a document. A public function that answers by
//! the definition has no body that answers otherwise there. No crate of the program stands on this
//! one.
#![tactic(auto)]

pub mod bot_pair_examples;
pub mod cache_examples;
pub mod canonical_examples;
pub mod clock_examples;
pub mod content_examples;
pub mod dimension_examples;
pub mod drill_examples;
pub mod field_examples;
pub mod head_examples;
pub mod keeper_examples;
pub mod link_examples;
pub mod list_examples;
pub mod member_examples;
pub mod place_examples;
pub mod queue_examples;
pub mod request_examples;
pub mod route_examples;
pub mod runner_examples;
pub mod store_examples;
pub mod task_check_examples;
pub mod word_examples;
