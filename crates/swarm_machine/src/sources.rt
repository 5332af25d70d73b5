//! Whose outcome a new task may take.
ghost use Rattle.std.specs.Prelude.{◌≡◌, IfOk, OnOk, None, Some, false, if◌then◌else◌};
ghost use Rattle.std.specs.Option.{option_copied, option_and_then, option_map, option_map_or};
ghost use Rattle.swarm_model.specs.Reuse.{is_young, ended_well};
ghost use Rattle.pool_index.specs.Sources.{AreWith};
ghost use Rattle.index_laws.specs.TaskSources.{hash_of_slice, slice_hash_of, source_hash_of, source_of, link_under, link_by_report, source_link_before};
ghost use Rattle.index_laws.specs.TaskSources as sources;

use common_rows::Rows;
use pool_index::SourceIndex;
use row_changes::{ended_well, is_young};
use std::alloc::{AllocError, Global};
use swarm_model::{Attempt, EntryKind, Last, TaskRow};
use task_props::{Digest, Slice};

/// The task, where there is one and it is young enough.
pub(crate) fn if_young<'a>(age: u32, moment: u64, task: Option<&'a TaskRow>) -> Option<&'a TaskRow>
    ensures { option_copied result ≡ option_and_then (λ t. if is_young age moment t then Some t else None) (option_copied task.entry) }
{
    match task {
        None => None,
        Some(task) => {
            if is_young(age, moment, task) {
                Some(task)
            } else {
                None
            }
        }
    }
}

/// Whether a run ends well by this report: it was not asked to stop, ran into no timeout, and
/// reports 0.
fn ends_well(last: &Last, attempt: &Option<Attempt>) -> bool
    ensures { result ≡ option_map_or (sources.ends_well last.now) attempt.now false }
{
    match attempt {
        None => false,
        Some(attempt) => {
            !attempt.kill && !last.hard_timeout && !last.io_timeout && last.exit_code == 0
        }
    }
}

fn hash_of_slice(alloc: Global, slice: &Slice) -> Result<Option<Digest>, AllocError>
    ensures { IfOk result (λ hash. hash ≡ hash_of_slice slice.now) }
{
    if slice.properties.idempotent {
        Ok(Some(slice.properties.hash(alloc)?))
    } else {
        Ok(None)
    }
}

/// The hash of the slice to which a task has come, where its run may stand for others.
fn slice_hash_of(alloc: Global, task: &TaskRow) -> Result<Option<Digest>, AllocError>
    ensures { IfOk result (λ hash. hash ≡ slice_hash_of task.now) }
{
    match task.current_slice() {
        None => Ok(None),
        Some(slice) => hash_of_slice(alloc, slice),
    }
}

fn prepare_hash(
    sources: &mut SourceIndex,
    hash: Option<Digest>,
    number: u32,
) -> Result<(), AllocError>
    ensures links { sources.new.links ≡ sources.old.links }
    ensures ready { OnOk result (sources.new.ready ≡ option_map (λ own. record { hash = own; task = number }) hash) }
{
    match hash {
        None => {
            sources.release();
            Ok(())
        }
        Some(hash) => sources.reserve(&hash, number),
    }
}

fn prepare_task(
    alloc: Global,
    sources: &mut SourceIndex,
    last: &Last,
    task: &TaskRow,
) -> Result<(), AllocError>
    ensures links { sources.new.links ≡ sources.old.links }
    ensures ready { OnOk result (sources.new.ready ≡ link_by_report last.now task.now) }
{
    if ends_well(last, &task.attempt) {
        let hash = slice_hash_of(alloc, task)?;
        prepare_hash(sources, hash, task.no)
    } else {
        sources.release();
        Ok(())
    }
}

/// Makes ready the source that the entry brings, if it brings one.
pub(crate) fn prepare_source(
    alloc: Global,
    sources: &mut SourceIndex,
    kind: &EntryKind,
    rows: &Rows,
) -> Result<(), AllocError>
    ensures links { sources.new.links ≡ sources.old.links }
    ensures ready { OnOk result (sources.new.ready ≡ source_link_before rows.now.tasks.rows kind.now) }
{
    if let EntryKind::Update {
        t,
        last: Some(last),
        ..
    } = kind
    {
        if let Some(task) = rows.tasks.uncounted_row(*t) {
            return prepare_task(alloc, sources, last, task);
        }
    }
    sources.release();
    Ok(())
}

/// The hash under which others may take the task's outcome, where they may.
fn source_hash_of(alloc: Global, task: &TaskRow) -> Result<Option<Digest>, AllocError>
    ensures { IfOk result (λ hash. hash ≡ source_hash_of task.now) }
{
    if ended_well(task) {
        slice_hash_of(alloc, task)
    } else {
        Ok(None)
    }
}

/// Notes the task, where others may take its outcome.
pub(crate) fn load_source(
    alloc: Global,
    sources: &mut SourceIndex,
    task: &TaskRow,
) -> Result<(), AllocError>
    ensures { OnOk result (AreWith (source_of task.now) sources.old.links sources.new.links) }
{
    let hash = source_hash_of(alloc, task)?;
    prepare_hash(sources, hash, task.no)?;
    sources.add();
    Ok(())
}
