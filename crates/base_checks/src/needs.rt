//! Whether what waiting and running tasks need is held.
ghost use Rattle.std.specs.Prelude.{◌≡◌, true, IfOk, MatchBool};
ghost use Rattle.std.specs.List.{list_all};
ghost use Rattle.std.specs.Option.{option_map_or};
ghost use Rattle.base_checks.specs.Needs.{inputs_are_held, output_is_held, lost_output_is_held, needs_are_held, AreServed};

use crate::digest_set::DigestSet;
use blob_rows::BlobRow;
use std::alloc::{AllocError, Global};
use swarm_model::{Attempt, TaskRow};
use task_props::Slice;

fn inputs_are_held(held: &DigestSet, slice: &Slice) -> bool
    ensures { result ≡ inputs_are_held held.now slice.now }
{
    let inputs = slice.properties.inputs.as_slice();
    inputs.iter().all(|file| held.has(&file.digest))
}

fn all_inputs_are_held(held: &DigestSet, slices: &[Slice]) -> bool
    ensures { result ≡ list_all (inputs_are_held held.now) slices.now }
{
    slices.iter().all(|slice| inputs_are_held(held, slice))
}

fn output_is_held(held: &DigestSet, attempt: &Attempt) -> bool
    ensures { result ≡ output_is_held held.now attempt.now }
{
    let chunks = attempt.chunks.as_slice();
    chunks.iter().all(|chunk| held.has(&chunk.digest))
}

fn last_output_is_held(held: &DigestSet, task: &TaskRow) -> bool
    ensures { result ≡ option_map_or (output_is_held held.now) task.now.attempt true }
{
    match &task.attempt {
        None => true,
        Some(attempt) => output_is_held(held, attempt),
    }
}

fn lost_output_is_held(held: &DigestSet, task: &TaskRow) -> bool
    ensures { result ≡ option_map_or (lost_output_is_held held.now) task.now.retried true }
{
    match task.retried.as_ref() {
        None => true,
        Some(lost) => output_is_held(held, &lost.attempt),
    }
}

fn needs_are_held(held: &DigestSet, task: &TaskRow) -> bool
    ensures { result ≡ needs_are_held held.now task.now }
{
    task.state.is_final()
        || (all_inputs_are_held(held, task.request.task_slices.as_slice())
            && last_output_is_held(held, task)
            && lost_output_is_held(held, task))
}

fn are_all_held(held: &DigestSet, tasks: &[TaskRow]) -> bool
    ensures { result ≡ list_all (needs_are_held held.now) tasks.now }
{
    tasks.iter().all(|task| needs_are_held(held, task))
}

/// Whether each digest that a waiting or running task needs is that of a blob. Of n blobs it takes
/// some log n comparisons for each.
///
/// # Errors
///
/// Where memory is wanting for a list of the blobs' digests.
pub fn are_served(alloc: Global, tasks: &[TaskRow], blobs: &[BlobRow]) -> Result<bool, AllocError>
    ensures { IfOk result (λ served. MatchBool served (AreServed tasks.now blobs.now) (AreServed tasks.now blobs.now → ⊥)) }
{
    let held = DigestSet::of_blobs(alloc, blobs)?;
    Ok(are_all_held(&held, tasks))
}
