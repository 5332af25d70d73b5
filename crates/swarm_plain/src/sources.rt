//! Whose outcome a slice may take.
ghost use Rattle.std.specs.Prelude.{◌≡◌, IfOk, None};
ghost use Rattle.std.specs.List.{fold};
ghost use Rattle.std.specs.Option.{option_copied};
ghost use Rattle.swarm_model.specs.Reuse.{ended_well, is_young, has_hash, ran_hash, is_source, newer};

use row_changes::{ended_well, is_young};
use std::alloc::{AllocError, Global};
use swarm_model::TaskRow;
use task_props::{Digest, Slice};

fn has_hash(alloc: Global, digest: &Digest, slice: &Slice) -> Result<bool, AllocError>
    ensures { IfOk result (λ has. has ≡ has_hash digest.now slice.now) }
{
    if slice.properties.idempotent {
        let hash = slice.properties.hash(alloc)?;
        Ok(hash == *digest)
    } else {
        Ok(false)
    }
}

/// Whether the task's current slice may stand for others, and its properties have this hash.
fn ran_hash(alloc: Global, digest: &Digest, task: &TaskRow) -> Result<bool, AllocError>
    ensures { IfOk result (λ ran. ran ≡ ran_hash digest.now task.now) }
{
    match task.current_slice() {
        None => Ok(false),
        Some(slice) => has_hash(alloc, digest, slice),
    }
}

/// Whether a slice with this hash may take the outcome of the task. The hash is made last.
fn is_source(
    alloc: Global,
    age: u32,
    moment: u64,
    digest: &Digest,
    task: &TaskRow,
) -> Result<bool, AllocError>
    ensures { IfOk result (λ is. is ≡ is_source age moment digest.now task.now) }
{
    if ended_well(task) && is_young(age, moment, task) {
        ran_hash(alloc, digest, task)
    } else {
        Ok(false)
    }
}

/// The newest task whose outcome a slice with this hash may take: the first one from the end.
pub(crate) fn newest_source<'a>(
    alloc: Global,
    tasks: &'a [TaskRow],
    age: u32,
    moment: u64,
    digest: &Digest,
) -> Result<Option<&'a TaskRow>, AllocError>
    ensures { IfOk result (λ found. option_copied found ≡ fold (newer (is_source age moment digest.now)) None tasks.now) }
{
    for place in (0..tasks.len()).rev() {
        let task = &tasks[place];
        if is_source(alloc, age, moment, digest, task)? {
            return Ok(Some(task));
        }
    }
    Ok(None)
}
