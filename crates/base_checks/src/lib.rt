//! Whether a pool may open from rows, decided exactly.
//!
//! [`is_base`] tells whether rows that were kept are a base (`IsBase` of `swarm_model`), rule by rule:
//! true exactly where each rule holds. First come the numbers and the lengths of the lists, then the
//! rules on one row (`row_rules`, `runs`), then those on rows that name each other: numbers
//! ([`are_numbered`]), deadlines, outcomes that were taken, order ([`are_in_order`],
//! [`have_rising_numbers`]), bots and tasks that name each other ([`name_each_other`]). These take one
//! pass. Rows of one key are to be one row ([`have_own_names`], [`have_own_claims`],
//! [`have_own_uuids`], [`have_own_digests`]): their keys are listed, sorted once and compared with
//! their neighbours ([`stands_twice`]). So are the extents of blobs, no two of which may share a unit
//! ([`are_blobs_apart`], [`extents_overlap`]). What tasks need is looked up among the sorted digests
//! of the blobs ([`are_served`]). Of n rows each rule takes some n log n steps at most, and none rests
//! on a hash of what callers chose. The crate stands on `pool_laws`, `request_fits` and `row_changes`.
#![tactic(auto)]

mod agreeing;
mod apart;
mod base;
mod deadlines;
mod digest_set;
mod keys;
mod needs;
mod numbers;
mod order;
mod outcomes;
mod overlap;
mod row_rules;
mod runs;
mod twice;

pub use agreeing::name_each_other;
pub use apart::{
    are_blobs_apart, have_own_claims, have_own_digests, have_own_names, have_own_uuids,
};
pub use base::is_base;
pub use needs::are_served;
pub use numbers::are_numbered;
pub use order::{are_in_order, have_rising_numbers};
pub use overlap::extents_overlap;
pub use twice::stands_twice;
