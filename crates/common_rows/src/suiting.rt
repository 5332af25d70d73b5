//! Whether the rows can take an entry of which nothing is known.
ghost use Rattle.std.specs.Prelude.{◌≡◌, ◌+◌, ◌<◌, ◌^◌, length, IsTrue, IfSome};
ghost use Rattle.row_changes.specs.Output.{run_of, StaysShort, FitsBehind};
ghost use Rattle.row_changes.specs.Rows.{HasFewSlices};
ghost use Rattle.bot_registry.specs.Acting.{IsNewBot, Follows, Greets};
ghost use Rattle.task_rows.specs.Acting.{row_of};
ghost use Rattle.common_rows.specs.Suiting.{SuitsTasks};

use bot_registry::Registry;
use dimensions::Text;
use swarm_model::{Attempt, Chunk, Entry, EntryKind};
use task_rows::TaskRows;

/// Whether a row of this number comes next behind so many.
fn is_next(number: u32, count: usize) -> bool
    ensures { IsTrue result → number ≡ count + 1 }
{
    0 < number && number as usize - 1 == count
}

fn has_few_slices(tasks: &TaskRows, number: u32) -> bool
    ensures { IsTrue result → IfSome (row_of tasks.now.rows number) HasFewSlices }
{
    match tasks.uncounted_row(number) {
        None => true,
        Some(task) => task.request.task_slices.as_slice().len() <= 8,
    }
}

fn fits_behind(attempt: &Attempt, chunk: Chunk) -> bool
    ensures { IsTrue result → FitsBehind chunk attempt.now }
{
    attempt.length.checked_add(chunk.size).is_some()
}

/// Whether the chunk fits behind the output of the task of a number, where it goes on from it.
fn stays_short(tasks: &TaskRows, number: u32, chunk: Chunk) -> bool
    ensures { IsTrue result → StaysShort (run_of tasks.now.rows number) (Some chunk) }
{
    match tasks.uncounted_row(number) {
        None => true,
        Some(task) => match &task.attempt {
            None => true,
            Some(attempt) => fits_behind(attempt, chunk),
        },
    }
}

/// Whether the rows of tasks can take the entry. Those of a pool can take each that may follow it.
pub fn suits_tasks(tasks: &TaskRows, entry: &Entry) -> bool
    ensures { IsTrue result → SuitsTasks tasks.now.rows entry.now.kind }
{
    match &entry.kind {
        EntryKind::New { t, .. } => is_next(*t, tasks.count()),
        EntryKind::Slice { t, .. } => has_few_slices(tasks, *t),
        EntryKind::Update { t, chunk, .. } => match chunk {
            None => true,
            Some(chunk) => stays_short(tasks, *t, *chunk),
        },
        _ => true,
    }
}

/// Whether a bot of this number and name can come for the first time, where so many may come.
fn is_new_bot(bots: &Registry, most: u32, number: u32, name: &Text) -> bool
    requires { bots.now.most ≡ most }
    ensures { IsTrue result → IsNewBot bots.now number name.now }
{
    is_next(number, bots.count()) && bots.named(name).is_none() && bots.count() < most as usize
}

fn greets(bots: &Registry, most: u32, number: u32, name: &Text) -> bool
    requires { bots.now.most ≡ most }
    ensures { IsTrue result → Greets bots.now number name.now }
{
    match bots.bot(number) {
        None => is_new_bot(bots, most, number, name),
        Some(bot) => bot.name == *name,
    }
}

/// Whether the rows of bots, of which there may be so many, can take the entry. Those of a pool can
/// take each that may follow it.
pub fn suits_bots(bots: &Registry, most: u32, entry: &Entry) -> bool
    requires { bots.now.most ≡ most }
    ensures { IsTrue result → Follows bots.now entry.now.kind }
{
    match &entry.kind {
        EntryKind::Handshake { b, id, .. } => greets(bots, most, *b, id),
        _ => true,
    }
}
