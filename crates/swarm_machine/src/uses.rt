//! How often the tasks of a pool use each digest.
ghost use Rattle.std.specs.Prelude.{◌≡◌, ℕ, ◌+◌, ◌<◌, ◌≤◌, ◌^◌, List, IfSome, OnOk};
ghost use Rattle.std.specs.List.{All, count_by};
ghost use Rattle.std.specs.Option.{option_map_or};
ghost use Rattle.swarm_model.specs.Uses.{is_chunk_of, is_file_of};
ghost use Rattle.pool_index.specs.Uses.{uses_of, HasUses, IsListed, SameUses, StaysListed};
ghost use Rattle.index_laws.specs.TaskUses.{chunks_with, times_named, uses_of_slices};
ghost use Rattle.index_laws.specs.TaskUses as tasks;
ghost use Rattle.swarm_machine.specs.Uses.{AreInputsListed, AreListedFor, IsChunkOf, uses_of_chunk, uses_brought, AddsUses, RemovesUses, HasRoomFor, HasUsesFor};
ghost use Rattle.common_rows.specs.Rows.{state_of};
ghost use Rattle.swarm_machine.specs.UsesBehind.{AreUses, UsesAreBehind};

use crate::indexes::Touched;
use crate::touched::row_of;
use common_rows::Rows;
use pool_index::UseCounts;
use std::alloc::AllocError;
use swarm_model::{Attempt, Chunk, Entry, EntryKind, MaybeRetried, TaskRow};
use task_props::{Digest, File, Slice};

fn list_digest(uses: &mut UseCounts, digest: &Digest) -> Result<(), AllocError>
    ensures same { SameUses uses.old uses.new }
    ensures kept { StaysListed uses.old uses.new }
    ensures ok { OnOk result (IsListed uses.new digest.now) }
{
    uses.reserve(&[*digest])
}

fn list_inputs(uses: &mut UseCounts, inputs: &[File]) -> Result<(), AllocError>
    ensures same { SameUses uses.old uses.new }
    ensures kept { StaysListed uses.old uses.new }
    ensures ok { OnOk result (All (λ file. IsListed uses.new file.digest) inputs.now) }
{
    for file in inputs {
        list_digest(uses, &file.digest)?;
    }
    Ok(())
}

fn list_slices(uses: &mut UseCounts, slices: &[Slice]) -> Result<(), AllocError>
    ensures same { SameUses uses.old uses.new }
    ensures kept { StaysListed uses.old uses.new }
    ensures ok { OnOk result (All (AreInputsListed uses.new) slices.now) }
{
    for slice in slices {
        list_inputs(uses, slice.properties.inputs.as_slice())?;
    }
    Ok(())
}

/// Lists the digests that the entry brings, so that their uses can be counted without memory.
pub(crate) fn list_uses(uses: &mut UseCounts, kind: &EntryKind) -> Result<(), AllocError>
    ensures same { SameUses uses.old uses.new }
    ensures ok { OnOk result (AreListedFor uses.new kind.now) }
{
    match kind {
        EntryKind::New { request, .. } => list_slices(uses, request.task_slices.as_slice()),
        EntryKind::Update {
            chunk: Some(chunk),
            ..
        } => list_digest(uses, &chunk.digest),
        _ => Ok(()),
    }
}

fn add_inputs(uses: &mut UseCounts, inputs: &[File])
    requires listed { All (λ file. IsListed uses.old file.digest) inputs.now }
    requires small { HasRoomFor (λ digest. count_by (is_file_of digest) inputs.now) uses.old }
    ensures gains { AddsUses (λ digest. count_by (is_file_of digest) inputs.now) uses.old uses.new }
    ensures kept { StaysListed uses.old uses.new }
{
    for file in inputs {
        uses.add(&file.digest);
    }
}

fn add_slices(uses: &mut UseCounts, slices: &[Slice])
    requires listed { All (AreInputsListed uses.old) slices.now }
    requires small { HasRoomFor (λ digest. uses_of_slices digest slices.now) uses.old }
    ensures gains { AddsUses (λ digest. uses_of_slices digest slices.now) uses.old uses.new }
{
    for slice in slices {
        add_inputs(uses, slice.properties.inputs.as_slice());
    }
}

fn add_chunk(uses: &mut UseCounts, chunk: Option<Chunk>)
    requires listed { IfSome chunk (λ c. IsListed uses.old c.digest) }
    requires small { HasRoomFor (uses_of_chunk chunk) uses.old }
    ensures gains { AddsUses (uses_of_chunk chunk) uses.old uses.new }
{
    if let Some(chunk) = chunk {
        uses.add(&chunk.digest);
    }
}

/// Counts the uses that the entry brings. `fresh` is its chunk, where that goes on from the output.
fn add_uses(uses: &mut UseCounts, kind: &EntryKind, fresh: Option<Chunk>)
    requires listed { AreListedFor uses.old kind.now }
    requires fresh { IsChunkOf kind.now fresh }
    requires small { (digest : List ℕ) → uses_of uses.old digest + uses_brought fresh kind.now digest < 2 ^ 32 }
    ensures { (digest : List ℕ) → uses_of uses.new digest ≡ uses_of uses.old digest + uses_brought fresh kind.now digest }
{
    match kind {
        EntryKind::New { request, .. } => add_slices(uses, request.task_slices.as_slice()),
        EntryKind::Update { .. } => add_chunk(uses, fresh),
        _ => {}
    }
}

fn remove_inputs(uses: &mut UseCounts, inputs: &[File])
    requires { HasUsesFor (λ digest. count_by (is_file_of digest) inputs.now) uses.old }
    ensures { RemovesUses (λ digest. count_by (is_file_of digest) inputs.now) uses.old uses.new }
{
    for file in inputs {
        uses.remove(&file.digest);
    }
}

fn remove_slices(uses: &mut UseCounts, slices: &[Slice])
    requires { HasUsesFor (λ digest. uses_of_slices digest slices.now) uses.old }
    ensures { RemovesUses (λ digest. uses_of_slices digest slices.now) uses.old uses.new }
{
    for slice in slices {
        remove_inputs(uses, slice.properties.inputs.as_slice());
    }
}

fn remove_chunks(uses: &mut UseCounts, chunks: &[Chunk])
    requires { HasUsesFor (λ digest. count_by (is_chunk_of digest) chunks.now) uses.old }
    ensures { RemovesUses (λ digest. count_by (is_chunk_of digest) chunks.now) uses.old uses.new }
{
    for chunk in chunks {
        uses.remove(&chunk.digest);
    }
}

/// Takes off the chunks of the output of a run.
fn remove_output(uses: &mut UseCounts, attempt: &Option<Attempt>)
    requires { HasUsesFor (λ digest. option_map_or (chunks_with digest) attempt.now 0) uses.old }
    ensures { RemovesUses (λ digest. option_map_or (chunks_with digest) attempt.now 0) uses.old uses.new }
{
    if let Some(attempt) = attempt {
        remove_chunks(uses, attempt.chunks.as_slice());
    }
}

/// The same for the run that was lost before, where there was one.
fn remove_lost_output(uses: &mut UseCounts, retried: &MaybeRetried)
    requires { HasUsesFor (λ digest. option_map_or (λ lost. chunks_with digest lost.attempt) retried.now 0) uses.old }
    ensures { RemovesUses (λ digest. option_map_or (λ lost. chunks_with digest lost.attempt) retried.now 0) uses.old uses.new }
{
    if let Some(lost) = retried.as_ref() {
        remove_chunks(uses, lost.attempt.chunks.as_slice());
    }
}

/// Takes off the uses of a task that has ended: its inputs, and the chunks of its output, of both
/// runs where one was tried again.
fn remove_uses(uses: &mut UseCounts, task: &TaskRow)
    requires { (digest : List ℕ) → times_named digest task.now ≤ uses_of uses.old digest }
    ensures { (digest : List ℕ) → uses_of uses.new digest + times_named digest task.now ≡ uses_of uses.old digest }
{
    remove_slices(uses, task.request.task_slices.as_slice());
    remove_output(uses, &task.attempt);
    remove_lost_output(uses, &task.retried);
}

/// Follows an entry, after which the rows are these: it counts the uses that the entry brings, and
/// takes off those of a task that has ended by it.
pub(crate) fn follow_uses(uses: &mut UseCounts, entry: &Entry, touched: Touched, rows: &Rows)
    requires { UsesAreBehind uses.old entry.now touched rows.now }
    ensures { AreUses uses.new (state_of rows.now) }
{
    add_uses(uses, &entry.kind, touched.fresh);
    match row_of(rows, touched.task) {
        None => {}
        Some(task) => {
            if task.state.is_final() {
                remove_uses(uses, task);
            }
        }
    }
}

/// Counts one use more of a digest, which may not be listed yet.
fn load_use(uses: &mut UseCounts, digest: &Digest) -> Result<(), AllocError>
    requires { uses_of uses.old digest.now + 1 < 2 ^ 32 }
    ensures { OnOk result (HasUses digest.now (uses_of uses.old digest.now + 1) uses.old uses.new) }
{
    list_digest(uses, digest)?;
    uses.add(digest);
    Ok(())
}

fn load_inputs(uses: &mut UseCounts, inputs: &[File]) -> Result<(), AllocError>
    requires { HasRoomFor (λ digest. count_by (is_file_of digest) inputs.now) uses.old }
    ensures { OnOk result (AddsUses (λ digest. count_by (is_file_of digest) inputs.now) uses.old uses.new) }
{
    for file in inputs {
        load_use(uses, &file.digest)?;
    }
    Ok(())
}

fn load_slices(uses: &mut UseCounts, slices: &[Slice]) -> Result<(), AllocError>
    requires { HasRoomFor (λ digest. uses_of_slices digest slices.now) uses.old }
    ensures { OnOk result (AddsUses (λ digest. uses_of_slices digest slices.now) uses.old uses.new) }
{
    for slice in slices {
        load_inputs(uses, slice.properties.inputs.as_slice())?;
    }
    Ok(())
}

fn load_chunks(uses: &mut UseCounts, chunks: &[Chunk]) -> Result<(), AllocError>
    requires { HasRoomFor (λ digest. count_by (is_chunk_of digest) chunks.now) uses.old }
    ensures { OnOk result (AddsUses (λ digest. count_by (is_chunk_of digest) chunks.now) uses.old uses.new) }
{
    for chunk in chunks {
        load_use(uses, &chunk.digest)?;
    }
    Ok(())
}

/// Counts the chunks of the output of a run.
fn load_output(uses: &mut UseCounts, attempt: &Option<Attempt>) -> Result<(), AllocError>
    requires { HasRoomFor (λ digest. option_map_or (chunks_with digest) attempt.now 0) uses.old }
    ensures { OnOk result (AddsUses (λ digest. option_map_or (chunks_with digest) attempt.now 0) uses.old uses.new) }
{
    match attempt {
        None => Ok(()),
        Some(attempt) => load_chunks(uses, attempt.chunks.as_slice()),
    }
}

/// The same for the run that was lost before, where there was one.
fn load_lost_output(uses: &mut UseCounts, retried: &MaybeRetried) -> Result<(), AllocError>
    requires { HasRoomFor (λ digest. option_map_or (λ lost. chunks_with digest lost.attempt) retried.now 0) uses.old }
    ensures { OnOk result (AddsUses (λ digest. option_map_or (λ lost. chunks_with digest lost.attempt) retried.now 0) uses.old uses.new) }
{
    match retried.as_ref() {
        None => Ok(()),
        Some(lost) => load_chunks(uses, lost.attempt.chunks.as_slice()),
    }
}

/// Counts what a task names: its inputs, and the output of its runs.
fn load_named(uses: &mut UseCounts, task: &TaskRow) -> Result<(), AllocError>
    requires { HasRoomFor (λ digest. times_named digest task.now) uses.old }
    ensures { OnOk result (AddsUses (λ digest. times_named digest task.now) uses.old uses.new) }
{
    load_slices(uses, task.request.task_slices.as_slice())?;
    load_output(uses, &task.attempt)?;
    load_lost_output(uses, &task.retried)
}

/// Counts the uses of a task: one that has ended uses nothing.
pub(crate) fn load_uses(uses: &mut UseCounts, task: &TaskRow) -> Result<(), AllocError>
    requires { HasRoomFor (λ digest. tasks.uses_of digest task.now) uses.old }
    ensures { OnOk result (AddsUses (λ digest. tasks.uses_of digest task.now) uses.old uses.new) }
{
    if task.state.is_final() {
        Ok(())
    } else {
        load_named(uses, task)
    }
}
