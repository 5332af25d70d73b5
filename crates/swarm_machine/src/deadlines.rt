//! The deadlines of rows: those of tasks and bots at the numbers of their rows, those of blobs in
//! their order.
ghost use Rattle.std.specs.Prelude.{◌≡◌, ◌<◌, ◌≤◌, None, IfSome, slice_set};
ghost use Rattle.std.specs.Option.{option_copied};
ghost use Rattle.swarm_model.specs.Finding.{task_of};
ghost use Rattle.swarm_model.specs.Soundness.{IsSound};
ghost use Rattle.row_changes.specs.Rows.{IsEarly};
ghost use Rattle.index_laws.specs.BlobDeadlines.{AreMoved};
ghost use Rattle.index_laws.specs.RowDeadlines.{task_deadline, task_deadline_of, bot_deadline_of, put_deadline};
ghost use Rattle.common_rows.specs.Rows.{state_of};
ghost use Rattle.swarm_machine.specs.TouchedBlobs.{blob_end_with};

use crate::touched::touched_blob;
use common_rows::Rows;
use pool_index::{DeadlineQueue, DeadlineTree};
use row_changes::{blob_end, silence_of, slice_end};
use swarm_model::{Chunk, Deadline, EntryKind, TaskRow, TaskState};

fn task_of(rows: &Rows, number: u32) -> Option<&TaskRow>
    requires { IsSound (state_of rows.now) }
    ensures value { option_copied result ≡ task_of (state_of rows.now) number }
    ensures early { IfSome (option_copied result) IsEarly }
{
    rows.tasks.uncounted_row(number)
}

fn task_deadline(rows: &Rows, task: &TaskRow) -> Option<Deadline>
    requires sound { IsSound (state_of rows.now) }
    requires early { IsEarly task.now }
    ensures { result ≡ task_deadline (state_of rows.now) task.now }
{
    if task.has_state(TaskState::Pending) {
        slice_end(task)
    } else {
        silence_of(task, rows.runner_of(task))
    }
}

/// The deadline of the task of a number.
fn task_deadline_of(rows: &Rows, number: u32) -> Option<Deadline>
    requires { IsSound (state_of rows.now) }
    ensures { result ≡ task_deadline_of (state_of rows.now) number }
{
    match task_of(rows, number) {
        None => None,
        Some(task) => task_deadline(rows, task),
    }
}

/// The deadline of the bot of a number.
fn bot_deadline_of(rows: &Rows, number: u32) -> Option<Deadline>
    requires { IsSound (state_of rows.now) }
    ensures { result ≡ bot_deadline_of (state_of rows.now) number }
{
    match rows.bot_of(number) {
        None => None,
        Some(bot) => rows.bot_end(bot),
    }
}

/// The deadline at a place, where there is one.
fn put(ends: &mut DeadlineTree, at: usize, end: Option<Deadline>)
    ensures { ends.new ≡ slice_set ends.old at end }
{
    if at < ends.count() {
        ends.put(at, end);
    }
}

/// The touched task has the deadline of its row from now on.
pub(crate) fn put_task_deadline(ends: &mut DeadlineTree, touched: Option<u32>, rows: &Rows)
    requires { IsSound (state_of rows.now) }
    ensures { ends.new ≡ put_deadline (task_deadline_of (state_of rows.now)) touched ends.old }
{
    if let Some(number) = touched {
        let end = task_deadline_of(rows, number);
        put(ends, number as usize, end);
    }
}

/// The touched bot has the deadline of its row from now on.
pub(crate) fn put_bot_deadline(ends: &mut DeadlineTree, touched: Option<u32>, rows: &Rows)
    requires { IsSound (state_of rows.now) }
    ensures { ends.new ≡ put_deadline (bot_deadline_of (state_of rows.now)) touched ends.old }
{
    if let Some(number) = touched {
        let end = bot_deadline_of(rows, number);
        put(ends, number as usize, end);
    }
}

/// The deadline of the blob that an entry of this kind may change. `fresh` is its chunk, where that
/// went on from the output before the entry.
pub(crate) fn blob_end_with(rows: &Rows, kind: &EntryKind, fresh: Option<Chunk>) -> Option<Deadline>
    ensures { result ≡ blob_end_with fresh kind.now rows.now.blobs.rows }
{
    match touched_blob(rows, kind, fresh) {
        None => None,
        Some(blob) => Some(blob_end(blob)),
    }
}

/// Takes out a deadline, where there is one.
fn remove_deadline(ends: &mut DeadlineQueue, gone: Option<Deadline>)
    ensures moved { AreMoved gone None ends.old.deadlines ends.new.deadlines }
    ensures room { ends.old.room ≤ ends.new.room }
{
    match gone {
        None => {}
        Some(deadline) => ends.remove(deadline),
    }
}

/// Puts in a deadline, where there is one.
fn put_in(ends: &mut DeadlineQueue, come: Option<Deadline>)
    requires { 0 < ends.old.room }
    ensures { AreMoved None come ends.old.deadlines ends.new.deadlines }
{
    match come {
        None => {}
        Some(deadline) => ends.add(deadline),
    }
}

/// One deadline goes, and another one comes in its place. It takes no memory.
pub(crate) fn move_deadline(
    ends: &mut DeadlineQueue,
    gone: Option<Deadline>,
    come: Option<Deadline>,
)
    requires { 0 < ends.old.room }
    ensures { AreMoved gone come ends.old.deadlines ends.new.deadlines }
{
    remove_deadline(ends, gone);
    put_in(ends, come);
}
