//! The earliest deadline, by a scan of the rows.
ghost use Rattle.std.specs.Prelude.{◌≡◌, map, slice_get, None};
ghost use Rattle.std.specs.List.{fold, filter_map, All};
ghost use Rattle.std.specs.Option.{option_map};
ghost use Rattle.swarm_model.specs.Soundness.{IsSound};
ghost use Rattle.swarm_model.specs.Deadlines.{slice_end, silence_end, bot_end, blob_end, sooner, next_deadline};
ghost use Rattle.row_changes.specs.Rows.{IsEarly, IsHeard};
ghost use Rattle.common_rows.specs.Rows.{state_of};

use common_rows::Rows;
use content_store::Blobs;
use pool_index::sooner_of;
use row_changes::{blob_end, silence_of, slice_end};
use swarm_model::{BotRow, Deadline, TaskRow};

fn silence_end(rows: &Rows, task: &TaskRow) -> Option<Deadline>
    requires { IsSound (state_of rows.now) }
    ensures { result ≡ silence_end (state_of rows.now) task.now }
{
    silence_of(task, rows.runner_of(task))
}

fn slices_ends(tasks: &[TaskRow]) -> Option<Deadline>
    requires { All IsEarly tasks.now }
    ensures { result ≡ fold sooner None (filter_map slice_end tasks.now) }
{
    let mut soonest = None;
    for task in tasks {
        soonest = sooner_of(soonest, slice_end(task));
    }
    soonest
}

fn silences_ends(rows: &Rows, tasks: &[TaskRow], best: Option<Deadline>) -> Option<Deadline>
    requires { IsSound (state_of rows.now) }
    ensures { result ≡ fold sooner best (filter_map (silence_end (state_of rows.now)) tasks.now) }
{
    let mut soonest = best;
    for task in tasks {
        soonest = sooner_of(soonest, silence_end(rows, task));
    }
    soonest
}

fn bots_ends(rows: &Rows, bots: &[BotRow], best: Option<Deadline>) -> Option<Deadline>
    requires { All IsHeard bots.now }
    ensures { result ≡ fold sooner best (filter_map (bot_end (state_of rows.now)) bots.now) }
{
    let mut soonest = best;
    for bot in bots {
        soonest = sooner_of(soonest, rows.bot_end(bot));
    }
    soonest
}

/// The end of the blob at a place of the rows.
fn blob_end_at(blobs: &Blobs, at: usize) -> Option<Deadline>
    ensures { result ≡ option_map blob_end (slice_get blobs.now.rows at) }
{
    match blobs.row_at(at) {
        Some(blob) => Some(blob_end(blob)),
        None => None,
    }
}

fn blobs_ends(blobs: &Blobs, best: Option<Deadline>) -> Option<Deadline>
    ensures { result ≡ fold sooner best (map blob_end blobs.now.rows) }
{
    let mut soonest = best;
    for at in 0..blobs.count() {
        soonest = sooner_of(soonest, blob_end_at(blobs, at));
    }
    soonest
}

/// The earliest of all deadlines.
pub(crate) fn next_deadline(rows: &Rows) -> Option<Deadline>
    requires { IsSound (state_of rows.now) }
    ensures { result ≡ next_deadline (state_of rows.now) }
{
    let tasks = rows.tasks.uncounted_rows();
    let slices = slices_ends(tasks);
    let silences = silences_ends(rows, tasks, slices);
    let bots = bots_ends(rows, rows.bots.as_slice(), silences);
    blobs_ends(&rows.blobs, bots)
}
