//! The output that a run has reported, chunk by chunk.
ghost use Rattle.std.specs.Prelude.{◌≡◌, length, map, IfSome, OnOk};
ghost use Rattle.reserved_vec.specs.Room.{Takes};
ghost use Rattle.swarm_model.specs.Numbers.{AreNumbered};
ghost use Rattle.swarm_model.specs.Effects.{no_of_task, fresh_chunk, with_chunk, lengthened, chunk_at, ended_run_at, if_some};
ghost use Rattle.row_changes.specs.Output.{run_of, FitsBehind, StaysShort, TakesChunk, TakesFresh};

use crate::{Finish, change_row, place_of, row_of};
use reserved_vec::SpareBuffer;
use std::alloc::AllocError;
use swarm_model::{Attempt, Chunk, Last, TaskRow};

fn fresh_in(attempt: &Option<Attempt>, chunk: Option<Chunk>) -> Option<Chunk>
    ensures { result ≡ fresh_chunk attempt.now chunk }
{
    match attempt {
        None => None,
        Some(attempt) => chunk.filter(|chunk| chunk.start == attempt.length),
    }
}

/// The chunk, where it goes on from the output of the task of a number.
pub fn fresh_chunk(rows: &[TaskRow], no: u32, chunk: Option<Chunk>) -> Option<Chunk>
    requires { AreNumbered no_of_task 1 rows.now }
    ensures { result ≡ fresh_chunk (run_of rows.now no) chunk }
{
    match row_of(rows, no) {
        None => None,
        Some(row) => fresh_in(&row.attempt, chunk),
    }
}

fn lengthen_run(attempt: &mut Attempt, chunk: Chunk, spare: &mut SpareBuffer<Chunk>)
    requires room { Takes (length attempt.old.chunks) spare.old }
    requires short { FitsBehind chunk attempt.old }
    ensures { attempt.new ≡ with_chunk chunk attempt.old }
{
    attempt.length += chunk.size;
    attempt.chunks.push_reserved(chunk, spare);
}

fn lengthen(task: &mut TaskRow, chunk: Chunk, spare: &mut SpareBuffer<Chunk>)
    requires room { TakesChunk spare.old task.old.attempt }
    requires short { IfSome task.old.attempt (FitsBehind chunk) }
    ensures { task.new ≡ lengthened chunk task.old }
{
    if let Some(attempt) = &mut task.attempt {
        lengthen_run(attempt, chunk, spare);
    }
}

fn lengthen_at(rows: &mut Vec<TaskRow>, no: u32, chunk: Chunk, spare: &mut SpareBuffer<Chunk>)
    requires numbered { AreNumbered no_of_task 1 rows.old.items }
    requires room { TakesChunk spare.old (run_of rows.old.items no) }
    requires short { IfSome (run_of rows.old.items no) (FitsBehind chunk) }
    ensures rows { rows.new.items ≡ map (chunk_at no chunk) rows.old.items }
    ensures numbered { AreNumbered no_of_task 1 rows.new.items }
{
    if let Some(place) = place_of(rows, no) {
        lengthen(&mut rows[place], chunk, spare);
    }
}

/// The output of the task of a number goes on by the chunk, where that goes on from it, in room that
/// was made.
pub fn keep_chunk(
    rows: &mut Vec<TaskRow>,
    no: u32,
    chunk: Option<Chunk>,
    spare: &mut SpareBuffer<Chunk>,
)
    requires numbered { AreNumbered no_of_task 1 rows.old.items }
    requires room { TakesFresh spare.old (run_of rows.old.items no) chunk }
    requires short { StaysShort (run_of rows.old.items no) chunk }
    ensures rows { rows.new.items ≡ map (if_some (chunk_at no) (fresh_chunk (run_of rows.old.items no) chunk)) rows.old.items }
    ensures numbered { AreNumbered no_of_task 1 rows.new.items }
{
    if let Some(chunk) = fresh_chunk(rows, no, chunk) {
        lengthen_at(rows, no, chunk, spare);
    }
}

fn finish_if_some(
    rows: &mut Vec<TaskRow>,
    moment: u64,
    no: u32,
    chunk: Option<Chunk>,
    last: Option<Last>,
)
    requires { AreNumbered no_of_task 1 rows.old.items }
    ensures rows { rows.new.items ≡ map (if_some (ended_run_at moment no chunk) last) rows.old.items }
    ensures numbered { AreNumbered no_of_task 1 rows.new.items }
{
    if let Some(last) = last {
        change_row(
            rows,
            no,
            Finish {
                moment,
                chunk,
                last,
            },
        );
    }
}

/// The bot of a task reports: its chunk is kept likewise, and its run ends where the report is the
/// last one.
pub fn record_report(
    rows: &mut Vec<TaskRow>,
    moment: u64,
    no: u32,
    chunk: Option<Chunk>,
    last: Option<Last>,
    spare: &mut SpareBuffer<Chunk>,
)
    requires numbered { AreNumbered no_of_task 1 rows.old.items }
    requires room { TakesFresh spare.old (run_of rows.old.items no) chunk }
    requires short { StaysShort (run_of rows.old.items no) chunk }
    ensures rows { rows.new.items ≡ map (λ task. if_some (ended_run_at moment no chunk) last (if_some (chunk_at no) (fresh_chunk (run_of rows.old.items no) chunk) task)) rows.old.items }
    ensures numbered { AreNumbered no_of_task 1 rows.new.items }
{
    keep_chunk(rows, no, chunk, spare);
    finish_if_some(rows, moment, no, chunk, last);
}

fn make_chunk_room(task: &TaskRow, spare: &mut SpareBuffer<Chunk>) -> Result<(), AllocError>
    ensures { OnOk result (TakesChunk spare.new task.now.attempt) }
{
    match &task.attempt {
        None => Ok(()),
        Some(attempt) => attempt.chunks.make_room(spare),
    }
}

fn make_run_room(
    rows: &[TaskRow],
    spare: &mut SpareBuffer<Chunk>,
    no: u32,
) -> Result<(), AllocError>
    requires { AreNumbered no_of_task 1 rows.now }
    ensures { OnOk result (TakesChunk spare.new (run_of rows.now no)) }
{
    match row_of(rows, no) {
        None => Ok(()),
        Some(row) => make_chunk_room(row, spare),
    }
}

/// Makes room for the chunk, where it goes on from the output of the task of a number.
pub fn make_fresh_room(
    rows: &[TaskRow],
    spare: &mut SpareBuffer<Chunk>,
    no: u32,
    chunk: Option<Chunk>,
) -> Result<(), AllocError>
    requires { AreNumbered no_of_task 1 rows.now }
    ensures { OnOk result (TakesFresh spare.new (run_of rows.now no) chunk) }
{
    match fresh_chunk(rows, no, chunk) {
        None => Ok(()),
        Some(_) => make_run_room(rows, spare, no),
    }
}
