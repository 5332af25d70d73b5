//! What is made ready for an entry, and what is taken from it.
ghost use Rattle.std.specs.Prelude.{◌≡◌, ◌∷◌, [], OnOk, vec_capacity};
ghost use Rattle.swarm_model.specs.Numbers.{AreNumbered};
ghost use Rattle.swarm_model.specs.Effects.{no_of_task, added_tasks};
ghost use Rattle.row_changes.specs.Parts.{task_parts};
ghost use Rattle.task_rows.specs.Acting.{AddsRow, chunk_in};
ghost use Rattle.task_rows.specs.Inside.{HasRoom};

use reserved_vec::SpareBuffer;
use row_changes::{TaskParts, make_fresh_room, new_row};
use std::alloc::AllocError;
use swarm_model::{Chunk, Entry, EntryKind, TaskRow};

/// Makes the room that the entry needs.
pub(crate) fn make_room(
    rows: &mut Vec<TaskRow>,
    spare: &mut SpareBuffer<Chunk>,
    entry: &Entry,
) -> Result<(), AllocError>
    requires { AreNumbered no_of_task 1 rows.old.items }
    ensures rows { rows.new.items ≡ rows.old.items }
    ensures room { OnOk result (HasRoom rows.old.items (vec_capacity rows.new) spare.new (task_parts entry.now.kind)) }
{
    match &entry.kind {
        EntryKind::New { .. } => rows.reserve(1),
        EntryKind::Update { t, chunk, .. } => make_fresh_room(rows, spare, *t, *chunk),
        _ => Ok(()),
    }
}

/// The row that an entry adds, whose parts move into it.
pub(crate) fn row_from(no: u32, entry: &Entry, parts: TaskParts) -> TaskRow
    requires adds { AddsRow no entry.now.kind }
    requires parts { parts ≡ task_parts entry.now.kind }
    ensures no { result.no ≡ no }
    ensures row { added_tasks entry.now.moment entry.now.kind ≡ result ∷ [] }
{
    match &entry.kind {
        EntryKind::New {
            state,
            slice,
            from,
            ..
        } => match parts {
            TaskParts::New { creator, request } => new_row(
                entry.moment,
                no,
                creator,
                request,
                *state,
                *slice,
                *from,
            ),
            other => {
                drop(other);
                unreachable!()
            }
        },
        _ => unreachable!(),
    }
}

/// The chunk of an entry.
pub(crate) fn chunk_of(entry: &Entry) -> Option<Chunk>
    ensures { result ≡ chunk_in entry.now.kind }
{
    match &entry.kind {
        EntryKind::Update { chunk, .. } => *chunk,
        _ => None,
    }
}
