//! What a pool machine keeps beside its rows, so that a query reads few of them.
//!
//! No index here sees a row: a machine calls it with what a row says, and states in its own
//! invariant what the index and the rows have to do with each other. Contracts see an index as
//! plain lists, by the definitions of `specs/`:
//!
//! - [`DeadlineTree`]: the deadline at each place; the earliest of all is at hand (`Deadlines`).
//! - [`DeadlineQueue`]: deadlines in their order, of which the earliest is at hand
//!   (`QueuedDeadlines`).
//! - [`ClaimIndex`]: the task of each bot's claim, by bot and id (`Claims`).
//! - [`UuidIndex`]: the task of each creator's uuid (`Uuids`).
//! - [`SourceIndex`]: for each hash the greatest number of a task that was noted (`Sources`).
//! - [`UseCounts`]: how many uses of each digest are counted (`Uses`).
//!
//! Keys that callers choose are sorted and found by bisection, and never hashed, so that no caller
//! can make a look-up slow. What is sorted lies in blocks, of which an addition moves one. The calls
//! named `reserve` and `cover` are the only ones that take memory: a machine makes ready what an
//! entry needs before it writes the entry to its log, and the entry's `add` or `put` after it can't
//! fail.
//! [`sooner_of`] is the order of deadlines. The crate stands on `block_list`, `swarm_model` and
//! `dimensions`.
#![tactic(auto)]

mod claim_index;
mod claim_link;
mod deadline_order;
mod deadline_queue;
mod deadline_tree;
mod digest_key;
mod link_index;
mod sorted_links;
mod source_index;
mod source_link;
mod tree_nodes;
mod use_counts;
mod use_link;
mod uuid_index;
mod uuid_link;

pub use claim_index::ClaimIndex;
pub use claim_link::ClaimLink;
pub use deadline_order::sooner_of;
pub use deadline_queue::DeadlineQueue;
pub use deadline_tree::DeadlineTree;
pub use source_index::SourceIndex;
pub use source_link::SourceLink;
pub use use_counts::UseCounts;
pub use use_link::UseLink;
pub use uuid_index::UuidIndex;
pub use uuid_link::UuidLink;
