//! The queue in which a touched task waits, and the room that is made for it there.
ghost use Rattle.std.specs.Prelude.{◌≡◌, Some, None, IfSome, OnOk};
ghost use Rattle.std.specs.Option.{option_copied, option_and_then};
ghost use Rattle.dim_queue.specs.Plain.{IsAbsent, SameWaits};
ghost use Rattle.index_laws.specs.SetToCome.{set_at, set_moved, set_if_lost, set_to_come, IsReadyFor};
ghost use Rattle.index_laws.specs.TaskQueues.{IsRequeued, waiting_of, touched_place};
ghost use Rattle.common_rows.specs.Rows.{state_of};

use crate::touched::{bot_of_run, row_of};
use common_rows::Rows;
use dim_queue::Queues;
use row_changes::is_tried_again;
use std::alloc::AllocError;
use swarm_model::{EntryKind, Outcome, TaskRow, TaskState};
use task_props::Slice;

/// A task enters the queue of its current slice, where it is pending.
fn enter(queues: &mut Queues, task: &TaskRow)
    requires ready { IfSome (waiting_of task.now) (λ place. queues.old.ready ≡ Some place.1) }
    requires absent { IsAbsent task.now.no queues.old.queues }
    ensures { IsRequeued None (waiting_of task.now) queues.old.queues queues.new.queues }
{
    if task.has_state(TaskState::Pending) {
        if let Some(slice) = task.current_slice() {
            let dims = &slice.properties.dimensions;
            queues.enter(dims, task.kept_from(), task.request.priority, task.no);
        }
    }
}

fn enter_number(queues: &mut Queues, number: u32, rows: &Rows)
    requires ready { IfSome (touched_place (state_of rows.now) (Some number)) (λ place. queues.old.ready ≡ Some place.1) }
    requires absent { IsAbsent number queues.old.queues }
    ensures { IsRequeued None (touched_place (state_of rows.now) (Some number)) queues.old.queues queues.new.queues }
{
    if let Some(task) = rows.tasks.uncounted_row(number) {
        enter(queues, task);
    }
}

/// The touched task waits where its row says.
pub(crate) fn move_in_queue(queues: &mut Queues, touched: Option<u32>, rows: &Rows)
    requires ready { IfSome (touched_place (state_of rows.now) touched) (λ place. queues.old.ready ≡ Some place.1) }
    ensures { IsRequeued touched (touched_place (state_of rows.now) touched) queues.old.queues queues.new.queues }
{
    if let Some(number) = touched {
        queues.leave(number);
        enter_number(queues, number, rows);
    }
}

/// Makes ready the queue of the slice at a place, kept from a bot where one is named.
fn prepare_at(
    queues: &mut Queues,
    slices: &[Slice],
    place: u32,
    but: Option<u32>,
) -> Result<(), AllocError>
    ensures same { SameWaits queues.old.queues queues.new.queues }
    ensures ok { OnOk result (IsReadyFor queues.new.ready (set_at slices.now place but)) }
{
    match slices.get(place as usize) {
        None => Ok(()),
        Some(slice) => queues.reserve(&slice.properties.dimensions, but),
    }
}

/// Makes ready the queue of a task that comes to the slice at a place.
fn prepare_row(queues: &mut Queues, row: Option<&TaskRow>, place: u32) -> Result<(), AllocError>
    ensures same { SameWaits queues.old.queues queues.new.queues }
    ensures ok { OnOk result (IsReadyFor queues.new.ready (option_and_then (set_moved place) (option_copied row.entry))) }
{
    match row {
        None => Ok(()),
        Some(task) => {
            let slices = task.request.task_slices.as_slice();
            prepare_at(queues, slices, place, task.kept_from())
        }
    }
}

/// Makes ready the queue in which a task waits for another bot, where its run is tried again once it
/// is lost.
fn prepare_lost(queues: &mut Queues, retries: u32, row: Option<&TaskRow>) -> Result<(), AllocError>
    ensures same { SameWaits queues.old.queues queues.new.queues }
    ensures ok { OnOk result (IsReadyFor queues.new.ready (option_and_then (set_if_lost retries) (option_copied row.entry))) }
{
    match row {
        None => Ok(()),
        Some(task) => {
            if is_tried_again(retries, task) {
                let slices = task.request.task_slices.as_slice();
                prepare_at(queues, slices, task.slice, bot_of_run(&task.attempt))
            } else {
                Ok(())
            }
        }
    }
}

/// Makes ready the queue that a task will enter.
pub(crate) fn prepare_queue(
    queues: &mut Queues,
    kind: &EntryKind,
    rows: &Rows,
) -> Result<(), AllocError>
    ensures same { SameWaits queues.old.queues queues.new.queues }
    ensures ok { OnOk result (IsReadyFor queues.new.ready (set_to_come (state_of rows.now) kind.now)) }
{
    match kind {
        EntryKind::New { request, slice, .. } => {
            prepare_at(queues, request.task_slices.as_slice(), *slice, None)
        }
        EntryKind::Slice { t, to } => match to {
            Outcome::Slice(place) => prepare_row(queues, rows.tasks.uncounted_row(*t), *place),
            Outcome::Ended(_) => Ok(()),
        },
        EntryKind::Silence { t } => {
            prepare_lost(queues, rows.settings.retries, row_of(rows, Some(*t)))
        }
        EntryKind::Handshake { b, .. } => {
            let run = rows.run_of_bot(*b);
            prepare_lost(queues, rows.settings.retries, row_of(rows, run))
        }
        _ => Ok(()),
    }
}
