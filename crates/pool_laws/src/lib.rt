//! What holds of every legal history of a pool.
//!
//! Each law is the contract of an empty function; its statement stands in `swarm_model`'s specs,
//! and its proof is an induction over the entries of the log. The layers above take the lemma
//! modules of this crate. `Sound`: every pool that a log leads to is sound, and an entry that may
//! follow keeps it so. `BlobChanges`: what an entry does to the blobs, case by case. `Legality`: where nothing is due, what an answer adds may follow the log, and
//! so may what is due. `EntryPreconditions`: what an entry that may follow finds in the pool.
//! `Rows`: what an entry does to the rows. `UuidLaw`: the task that a caller sent under a uuid is
//! found by both. `Decisions`: what holds of each decision, case by case, so that a law names only its
//! own cases. `Refusals`: a request that is refused adds no entry. `NamedBlobs`: the pool has each blob
//! that a reply names. `Carrying`: the bytes that an entry brings are those that came with its request.
//! `BlobLaws`: there is room for a blob that is placed, and each blob keeps its bytes. `BaseVerdicts`,
//! `BaseClaims`, `TallyLaw`, `Rests`: states, claims, runs and the tally of a log that begins from the
//! rows of a base, where `before` says which entries a row stands for, and of such a log that is cut.
//! `BaseLaws`: the rows to which a log leads from a base are a base again. `BaseOrder`: rows were
//! created in the order of their numbers. `MachineLaws`: for a pool that keeps its base and its log,
//! that results and the tally show what both tell, that a claim is right, that the parts of an output
//! are the bytes that were asked for, that what is sent again adds at most a contact, that a new task
//! takes the outcome of an earlier one that ran the same, that rows that have ended stay, and that its
//! rows may be the base of the next log. So a machine that adds only what is due and what its answers
//! say keeps a legal log, and may count on sound rows. The crate has no code that runs.
#![tactic(auto)]

mod bases;
mod from_bases;
mod laws;

pub use bases::{a_base_is_reached, bases_lead_to_bases, weight_is_bounded};
pub use from_bases::{
    a_base_is_told, bases_tell_the_same, claims_from_a_base, runs_from_a_base, states_from_a_base,
    tally_from_a_base,
};
pub use laws::{
    a_blob_is_kept, a_claim_happens, a_run_ends, a_run_is_retried, an_outcome_is_taken,
    an_output_is_reported, claims_are_right, due_is_the_earliest, finals_stay,
    named_blobs_are_there, outcomes_are_taken_over, output_is_told, refusals_add_nothing,
    repeats_act_once, runs_are_right, sources_are_the_newest, stays_sound, tally_counts_verdicts,
    verdicts_are_states,
};
