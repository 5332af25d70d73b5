ghost use Rattle.std.specs.Prelude.{◌≡◌, ◌+◌, [], ◌∷◌, ◌++◌, length, Some, None, IfSome, OnOk, OnErr};
ghost use Rattle.std.specs.Option.{option_copied};
ghost use Rattle.swarm_model.specs.Effects.{fresh_chunk};
ghost use Rattle.row_changes.specs.Output.{run_of, StaysShort};
ghost use Rattle.row_changes.specs.Rows.{HasFewSlices};
ghost use Rattle.row_changes.specs.Parts.{task_parts};
ghost use Rattle.task_rows.specs.Acting.{row_of, chunk_in, IsAfter, IsAfterRun, AddsRow, Claims, Reports, EndsRun, Cancels, Kills, EndsSlice};

use crate::in_place::{change, end_run, start};
use crate::making::{chunk_of, make_room, row_from};
use reserved_vec::SpareBuffer;
use row_changes::{Cancel, ExpireSlice, MarkKill, TaskParts, fresh_chunk, keep_chunk, row_of};
use std::alloc::{AllocError, Global};
use std::marker::Model;
use std::mem;
use std::sync::ledger::Ledger;
use swarm_model::{Chunk, Entry, EntryKind, ReadRows, Steps, TaskRow};

/// The rows of a pool's tasks. Tasks are numbered from 1 in the order of their acceptance.
///
/// Each change takes the entry that was reserved just before, and the number of the task whose row
/// it changes. None takes memory.
#[derive(Drop)]
pub struct TaskRows {
    alloc: Global,
    /// How often the pool tries a run again that is lost.
    retries: u32,
    rows: Vec<TaskRow>,
    /// A larger buffer for the run whose chunks fill their own.
    spare: SpareBuffer<Chunk>,
    /// What the entry that was reserved moves into a row.
    ready: Option<TaskParts>,
}

impl Model for TaskRows {
    ghost use Rattle.task_rows.specs.Plain.{TaskRowsState};

    ghost Value = { TaskRowsState };

    ghost use Rattle.task_rows.specs.Inside.{kept_of, IsKept};

    ghost view = { kept_of };

    ghost invariant = { IsKept };
}

impl TaskRows {
    /// No task yet, in a pool that retries so often. It takes no memory.
    pub fn new(alloc: Global, retries: u32) -> TaskRows
        ensures { result ≡ record { rows = []; ready = None; retries = retries } }
    {
        TaskRows {
            alloc,
            retries,
            rows: Vec::new(alloc),
            spare: SpareBuffer::new(alloc),
            ready: None,
        }
    }

    /// How many tasks there are.
    pub fn count(&self) -> usize
        ensures { result ≡ length self.now.rows }
    {
        self.rows.len()
    }

    /// The row of the task of a number, for what a machine keeps beside the rows when an entry is
    /// committed. What answers a request reads by `row`, which is counted.
    pub fn uncounted_row(&self, no: u32) -> Option<&TaskRow>
        ensures { option_copied result ≡ row_of self.now.rows no }
    {
        row_of(&self.rows, no)
    }

    /// All rows, in the order of their numbers, for what goes through them one after another and
    /// has no count.
    pub fn uncounted_rows(&self) -> &[TaskRow]
        ensures { result.now ≡ self.now.rows }
    {
        self.rows.as_slice()
    }

    /// The chunk, where it goes on from the output of the task of a number.
    pub fn fresh_chunk(&self, no: u32, chunk: Option<Chunk>) -> Option<Chunk>
        ensures { result ≡ fresh_chunk (run_of self.now.rows no) chunk }
    {
        fresh_chunk(&self.rows, no, chunk)
    }

    /// Makes ready all that the entry's change of a row needs.
    pub fn reserve(&mut self, entry: &Entry) -> Result<(), AllocError>
        ensures ok { OnOk result (self.new ≡ record self.old { ready = Some (task_parts entry.now.kind) }) }
        ensures err { OnErr result (self.new ≡ record self.old { ready = None }) }
    {
        drop(self.ready.take());
        make_room(&mut self.rows, &mut self.spare, entry)?;
        let parts = TaskParts::copied(self.alloc, &entry.kind)?;
        drop(mem::replace(&mut self.ready, Some(parts)));
        Ok(())
    }

    /// Adds the next row, as it was kept. What was made ready is dropped.
    ///
    /// # Errors
    ///
    /// Where memory is wanting, the rows are as they were.
    pub fn load(&mut self, row: TaskRow) -> Result<(), AllocError>
        requires next { row.no ≡ length self.old.rows + 1 }
        ensures ok { OnOk result (self.new ≡ record self.old { rows = self.old.rows ++ row ∷ []; ready = None }) }
        ensures err { OnErr result (self.new ≡ record self.old { ready = None }) }
    {
        drop(self.ready.take());
        self.rows.reserve(1)?;
        self.rows.push_reserved(row);
        Ok(())
    }

    /// Adds the row of a new task.
    pub fn add_row(&mut self, no: u32, entry: &Entry)
        requires ready { self.old.ready ≡ Some (task_parts entry.now.kind) }
        requires adds { AddsRow no entry.now.kind }
        requires next { no ≡ length self.old.rows + 1 }
        ensures rows { IsAfter self.old.rows entry.now self.new.rows }
        ensures ready { self.new.ready ≡ None }
        ensures retries { self.new.retries ≡ self.old.retries }
    {
        match self.ready.take() {
            None => unreachable!(),
            Some(parts) => {
                let row = row_from(no, entry, parts);
                self.rows.push_reserved(row);
            }
        }
    }

    /// A bot begins the task.
    pub fn claim_row(&mut self, no: u32, entry: &Entry)
        requires ready { self.old.ready ≡ Some (task_parts entry.now.kind) }
        requires claims { Claims no entry.now.kind }
        ensures rows { IsAfter self.old.rows entry.now self.new.rows }
        ensures ready { self.new.ready ≡ None }
        ensures retries { self.new.retries ≡ self.old.retries }
    {
        match self.ready.take() {
            None => unreachable!(),
            Some(parts) => start(&mut self.rows, self.alloc, no, entry, parts),
        }
    }

    /// The run goes on after a report, whose chunk is kept where it goes on from the output.
    pub fn append_chunk(&mut self, no: u32, entry: &Entry)
        requires ready { self.old.ready ≡ Some (task_parts entry.now.kind) }
        requires reports { Reports no entry.now.kind }
        requires short { StaysShort (run_of self.old.rows no) (chunk_in entry.now.kind) }
        ensures rows { IsAfter self.old.rows entry.now self.new.rows }
        ensures ready { self.new.ready ≡ None }
        ensures retries { self.new.retries ≡ self.old.retries }
    {
        drop(self.ready.take());
        keep_chunk(&mut self.rows, no, chunk_of(entry), &mut self.spare);
    }

    /// The run ends: with its last report, whose chunk is kept likewise, with its bot's silence, or
    /// with its bot's next session. The rows are those of the pools that retry so often; and as an
    /// entry with a session doesn't name the task, of those in which its bot runs the task.
    pub fn finish(&mut self, no: u32, entry: &Entry)
        requires ready { self.old.ready ≡ Some (task_parts entry.now.kind) }
        requires ends { EndsRun no entry.now.kind }
        requires short { StaysShort (run_of self.old.rows no) (chunk_in entry.now.kind) }
        ensures rows { IsAfterRun self.old.retries self.old.rows no entry.now self.new.rows }
        ensures ready { self.new.ready ≡ None }
        ensures retries { self.new.retries ≡ self.old.retries }
    {
        match self.ready.take() {
            None => unreachable!(),
            Some(parts) => {
                let retries = self.retries;
                end_run(&mut self.rows, retries, no, entry, parts, &mut self.spare);
            }
        }
    }

    /// The task, which waits, is canceled.
    pub fn cancel(&mut self, no: u32, entry: &Entry)
        requires ready { self.old.ready ≡ Some (task_parts entry.now.kind) }
        requires cancels { Cancels no entry.now.kind }
        ensures rows { IsAfter self.old.rows entry.now self.new.rows }
        ensures ready { self.new.ready ≡ None }
        ensures retries { self.new.retries ≡ self.old.retries }
    {
        drop(self.ready.take());
        let moment = entry.moment;
        change(&mut self.rows, no, Cancel { moment });
    }

    /// The run is asked to stop.
    pub fn mark_kill(&mut self, no: u32, entry: &Entry)
        requires ready { self.old.ready ≡ Some (task_parts entry.now.kind) }
        requires kills { Kills no entry.now.kind }
        ensures rows { IsAfter self.old.rows entry.now self.new.rows }
        ensures ready { self.new.ready ≡ None }
        ensures retries { self.new.retries ≡ self.old.retries }
    {
        drop(self.ready.take());
        change(&mut self.rows, no, MarkKill);
    }

    /// The task's slice ran out: it comes to another one, or ends at its last.
    pub fn next_slice(&mut self, no: u32, entry: &Entry)
        requires ready { self.old.ready ≡ Some (task_parts entry.now.kind) }
        requires slice { EndsSlice no entry.now.kind }
        requires few { IfSome (row_of self.old.rows no) HasFewSlices }
        ensures rows { IsAfter self.old.rows entry.now self.new.rows }
        ensures ready { self.new.ready ≡ None }
        ensures retries { self.new.retries ≡ self.old.retries }
    {
        drop(self.ready.take());
        let moment = entry.moment;
        match &entry.kind {
            EntryKind::Slice { to, .. } => change(
                &mut self.rows,
                no,
                ExpireSlice { moment, to: *to },
            ),
            _ => unreachable!(),
        }
    }
}

impl ReadRows for TaskRows {
    ghost rows = { λ kept. kept.rows };

    fn row<L: Ledger>(&self, no: u32, steps: &mut Steps<L>) -> Option<&TaskRow> {
        steps.tick();
        row_of(&self.rows, no)
    }
}
