//! Rows that are found by their numbers and changed.
ghost use Rattle.std.specs.Prelude.{◌≡◌, map, vec_capacity};
ghost use Rattle.swarm_model.specs.Numbers.{AreNumbered};
ghost use Rattle.swarm_model.specs.Effects.{no_of_task, task_at};
ghost use Rattle.row_changes.specs.Output.{run_of, StaysShort};
ghost use Rattle.row_changes.specs.Rows.{HoldsAt};
ghost use Rattle.row_changes.specs.Parts.{task_parts};
ghost use Rattle.task_rows.specs.Acting.{chunk_in, Claims, EndsRun, IsAfter, IsAfterRun};
ghost use Rattle.task_rows.specs.Inside.{KeepsNumber, HasRoom};

use reserved_vec::{ReservedVec, SpareBuffer};
use row_changes::{Change, LoseRun, StartRun, TaskParts, change_row, record_report};
use std::alloc::Global;
use swarm_model::{Chunk, Entry, EntryKind, TaskRow};

/// Changes the row of a number, where there is one.
pub(crate) fn change<C: Change<TaskRow> + Drop>(rows: &mut Vec<TaskRow>, no: u32, by: C)
    requires numbered { AreNumbered no_of_task 1 rows.old.items }
    requires fits { HoldsAt no_of_task no C.fits rows.old.items }
    requires keeps { KeepsNumber (C.change by) }
    ensures rows { rows.new.items ≡ map (task_at no (C.change by)) rows.old.items }
    ensures numbered { AreNumbered no_of_task 1 rows.new.items }
{
    change_row(rows, no, by);
}

/// A bot begins the task of a number, under the id that the entry's parts are.
pub(crate) fn start(
    rows: &mut Vec<TaskRow>,
    alloc: Global,
    no: u32,
    entry: &Entry,
    parts: TaskParts,
)
    requires numbered { AreNumbered no_of_task 1 rows.old.items }
    requires claims { Claims no entry.now.kind }
    requires parts { parts ≡ task_parts entry.now.kind }
    ensures rows { IsAfter rows.old.items entry.now rows.new.items }
    ensures numbered { AreNumbered no_of_task 1 rows.new.items }
{
    match &entry.kind {
        EntryKind::Claim { b, .. } => match parts {
            TaskParts::Claim(claim) => {
                let run = StartRun {
                    moment: entry.moment,
                    bot: *b,
                    claim,
                    chunks: ReservedVec::new(alloc),
                };
                change(rows, no, run);
            }
            other => {
                drop(other);
                unreachable!()
            }
        },
        _ => unreachable!(),
    }
}

/// The run of the task of a number ends: with the last report that the entry's parts are, or
/// without one, in a pool that retries so often.
pub(crate) fn end_run(
    rows: &mut Vec<TaskRow>,
    retries: u32,
    no: u32,
    entry: &Entry,
    parts: TaskParts,
    spare: &mut SpareBuffer<Chunk>,
)
    requires numbered { AreNumbered no_of_task 1 rows.old.items }
    requires ends { EndsRun no entry.now.kind }
    requires parts { parts ≡ task_parts entry.now.kind }
    requires room { HasRoom rows.old.items (vec_capacity rows.old) spare.old parts }
    requires short { StaysShort (run_of rows.old.items no) (chunk_in entry.now.kind) }
    ensures rows { IsAfterRun retries rows.old.items no entry.now rows.new.items }
    ensures numbered { AreNumbered no_of_task 1 rows.new.items }
{
    let moment = entry.moment;
    match parts {
        TaskParts::Report {
            task: _,
            chunk,
            last,
        } => record_report(rows, moment, no, chunk, last, spare),
        TaskParts::Lost(room) => {
            let run = LoseRun {
                moment,
                retries,
                room,
            };
            change(rows, no, run);
        }
        other => {
            drop(other);
            unreachable!()
        }
    }
}
