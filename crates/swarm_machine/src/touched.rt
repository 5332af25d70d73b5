//! Which rows an entry may change, told before it changes them.
ghost use Rattle.std.specs.Prelude.{◌≡◌};
ghost use Rattle.std.specs.Option.{option_map, option_copied};
ghost use Rattle.index_laws.specs.StateCounts.{touched_row};
ghost use Rattle.index_laws.specs.Touched.{attempt_bot_in, touched_task, touched_bot};
ghost use Rattle.common_rows.specs.Rows.{state_of};
ghost use Rattle.swarm_machine.specs.TouchedBlobs.{touched_with};

use common_rows::Rows;
use swarm_model::{Attempt, BlobRow, Chunk, EntryKind, TaskRow};

/// The bot of a run.
pub(crate) fn bot_of_run(attempt: &Option<Attempt>) -> Option<u32>
    ensures { result ≡ option_map (λ run. run.bot) attempt.now }
{
    match attempt {
        None => None,
        Some(attempt) => Some(attempt.bot),
    }
}

/// The row of a task, where there is a number and such a task.
pub(crate) fn row_of(rows: &Rows, number: Option<u32>) -> Option<&TaskRow>
    ensures { option_copied result ≡ touched_row (state_of rows.now) number }
{
    rows.tasks.uncounted_row(number?)
}

/// The bot of the run of the task of a number.
fn runner_of(rows: &Rows, number: u32) -> Option<u32>
    ensures { result ≡ attempt_bot_in rows.now.tasks.rows number }
{
    match rows.tasks.uncounted_row(number) {
        None => None,
        Some(task) => bot_of_run(&task.attempt),
    }
}

/// The task whose row or whose deadline the entry may change.
pub(crate) fn touched_task(rows: &Rows, kind: &EntryKind) -> Option<u32>
    ensures { result ≡ touched_task (state_of rows.now) kind.now }
{
    match kind {
        EntryKind::Slice { t, .. }
        | EntryKind::Silence { t }
        | EntryKind::New { t, .. }
        | EntryKind::Cancel { t }
        | EntryKind::Kill { t }
        | EntryKind::Claim { t, .. }
        | EntryKind::Update { t, .. } => Some(*t),
        EntryKind::Handshake { b, .. }
        | EntryKind::Poll { b, .. }
        | EntryKind::Contact { b }
        | EntryKind::Event { b, .. } => rows.run_of_bot(*b),
        _ => None,
    }
}

/// The bot whose row the entry may change.
pub(crate) fn touched_bot(rows: &Rows, kind: &EntryKind) -> Option<u32>
    ensures { result ≡ touched_bot (state_of rows.now) kind.now }
{
    match kind {
        EntryKind::Silence { t } => runner_of(rows, *t),
        EntryKind::Dead { b }
        | EntryKind::Handshake { b, .. }
        | EntryKind::Poll { b, .. }
        | EntryKind::Claim { b, .. }
        | EntryKind::Contact { b }
        | EntryKind::Event { b, .. }
        | EntryKind::Update { b, .. }
        | EntryKind::Terminate { b } => Some(*b),
        _ => None,
    }
}

/// The blob that an entry of this kind may change. `fresh` is its chunk, where that went on from the
/// output before the entry.
pub(crate) fn touched_blob<'a>(
    rows: &'a Rows,
    kind: &EntryKind,
    fresh: Option<Chunk>,
) -> Option<&'a BlobRow>
    ensures { option_copied result ≡ touched_with fresh kind.now rows.now.blobs.rows }
{
    match kind {
        EntryKind::Blob { n, .. } => rows.blobs.blob_numbered(*n),
        EntryKind::Put { digest, .. } => rows.blobs.blob_of(digest),
        EntryKind::Update { .. } => match fresh {
            None => None,
            Some(chunk) => rows.blobs.blob_of(&chunk.digest),
        },
        _ => None,
    }
}
