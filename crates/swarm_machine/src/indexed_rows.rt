ghost use Rattle.std.specs.Prelude.{◌≡◌, ◌≤◌, ◌<◌, ◌+◌, ◌^◌, length, IsNone, OnOk};
ghost use Rattle.std.specs.Option.{option_copied, option_and_then};
ghost use Rattle.swarm_model.specs.Finding.{task_of};
ghost use Rattle.swarm_model.specs.declared.pool_state.PoolState.{PoolState};
ghost use Rattle.common_rows.specs.Rows.{state_of};
ghost use Rattle.swarm_machine.specs.Indexes.{AreIndexes, IsMadeReady};

use crate::indexes::{Indexes, touched_by};
use crate::sources;
use common_rows::Rows;
use content_store::{Filled, Held};
use dimensions::{BotDims, DimSet, Text};
use ghost_values::GhostValue;
use pool_changes::{bring_bytes, lend_bytes};
use pool_log::PoolRows;
use pool_queries::{PoolQueries, ReadQueries};
use std::alloc::{AllocError, Global};
use std::marker::Model;
use std::mem;
use std::sync::ledger::Ledger;
use swarm_model::{
    BlobRow, BotRow, Deadline, Entry, PoolSettings, PoolState, ReadRows, Steps, TaskRow, TaskState,
};
use task_props::Digest;

/// The rows of a pool, and indexes of them.
///
/// Contracts see the state that the rows stand for, the entry that is made ready and the bytes that
/// are held; the indexes stand in the invariant alone. What the queries cost is said in the first
/// lines of the crate.
#[derive(Drop)]
pub struct IndexedRows {
    alloc: Global,
    rows: Rows,
    indexes: Indexes,
    /// The entry for which all lies ready.
    ready: Option<GhostValue<Entry>>,
}

impl Model for IndexedRows {
    ghost use Rattle.pool_log.specs.Plain.{RowsState};

    ghost Value = { RowsState };

    ghost use Rattle.swarm_machine.specs.Invariant.{kept_of, IsKept};

    ghost view = { kept_of };

    ghost invariant = { IsKept };
}

/// Makes ready all that an entry adds to the rows and to the indexes.
fn make_ready(
    alloc: Global,
    rows: &mut Rows,
    indexes: &mut Indexes,
    entry: &Entry,
) -> Result<(), AllocError>
    requires few_tasks { length rows.old.tasks.rows < 2 ^ 32 }
    requires few_bots { length rows.old.bots.rows < 2 ^ 32 }
    ensures same { state_of rows.new ≡ state_of rows.old }
    ensures settings { rows.new.settings ≡ rows.old.settings }
    ensures retries { rows.new.tasks.retries ≡ rows.old.tasks.retries }
    ensures blobs { rows.new.blobs ≡ rows.old.blobs }
    ensures most { rows.new.bots.most ≡ rows.old.bots.most }
    ensures indexes { (s : PoolState) → AreIndexes indexes.old s → AreIndexes indexes.new s }
    ensures ready { OnOk result (IsMadeReady rows.new indexes.new entry.now) }
{
    rows.reserve(entry)?;
    indexes.reserve(alloc, entry, rows)
}

impl IndexedRows {
    /// The row of the task of a number, which is read for one step where there is one.
    fn row<L: Ledger>(&self, number: u32, steps: &mut Steps<L>) -> Option<&TaskRow>
        ensures value { option_copied result ≡ task_of self.now.pool number }
        ensures cost { steps.new ≤ steps.old + 1 }
        ensures free { IsNone result → steps.new ≡ steps.old }
    {
        common_rows::task_of(&self.rows.tasks, number, steps)
    }

    /// The row of a task that an index found.
    fn found_row<L: Ledger>(&self, number: Option<u32>, steps: &mut Steps<L>) -> Option<&TaskRow>
        ensures value { option_copied result ≡ option_and_then (task_of self.now.pool) number }
        ensures cost { steps.new ≤ steps.old + 1 }
        ensures free { IsNone result → steps.new ≡ steps.old }
    {
        self.row(number?, steps)
    }
}

impl ReadQueries for IndexedRows {
    ghost state = { λ rows. rows.pool };

    fn sound(&self) {
        // For the proof: the invariant of the rows.
        let _rows = &self.rows;
    }

    fn settings(&self) -> &PoolSettings {
        &self.rows.settings
    }

    fn task_count(&self) -> usize {
        self.rows.tasks.count()
    }

    fn count(&self, wanted: Option<TaskState>) -> u64 {
        match wanted {
            None => self.rows.tasks.count() as u64,
            Some(state) => self.indexes.counts[state.place() as usize],
        }
    }

    fn task_of<L: Ledger>(&self, number: u32, steps: &mut Steps<L>) -> Option<&TaskRow> {
        self.row(number, steps)
    }

    /// It reads the tasks from the number down to the one that it finds: only a page of a state in
    /// which few tasks are reads many.
    fn newest_below<L: Ledger>(
        &self,
        wanted: Option<TaskState>,
        below: Option<u32>,
        steps: &mut Steps<L>,
    ) -> Option<&TaskRow> {
        common_rows::newest_below(&self.rows.tasks, wanted, below, steps)
    }

    fn bot_count(&self) -> usize {
        self.rows.bots.count()
    }

    fn bot_of(&self, number: u32) -> Option<&BotRow> {
        self.rows.bots.bot(number)
    }

    fn bot_named<'a>(&'a self, name: &Text) -> Option<&'a BotRow> {
        self.rows.bots.named(name)
    }

    fn next_bot<'a>(&'a self, name: &Text) -> Option<&'a BotRow> {
        self.rows.bots.next_after(name)
    }
}

impl PoolQueries for IndexedRows {
    fn sent<'a, L: Ledger>(
        &'a self,
        who: &Text,
        uuid: &Text,
        steps: &mut Steps<L>,
    ) -> Option<&'a TaskRow> {
        self.found_row(self.indexes.uuids.find(who, uuid), steps)
    }

    fn newest_source<'a, L: Ledger>(
        &'a self,
        _alloc: Global,
        moment: u64,
        digest: &Digest,
        steps: &mut Steps<L>,
    ) -> Result<Option<&'a TaskRow>, AllocError> {
        let age = self.rows.settings.reuse_age_secs;
        let newest = self.found_row(self.indexes.sources.newest(digest), steps);
        Ok(sources::if_young(age, moment, newest))
    }

    fn by_claim<'a, L: Ledger>(
        &'a self,
        bot: u32,
        claim: &Text,
        steps: &mut Steps<L>,
    ) -> Option<&'a TaskRow> {
        self.found_row(self.indexes.claims.find(bot, claim), steps)
    }

    fn first_for<'a, L: Ledger>(
        &'a self,
        no: u32,
        dims: &BotDims,
        steps: &mut Steps<L>,
    ) -> Option<&'a TaskRow> {
        match self.indexes.queues.first_for(no, dims) {
            None => None,
            Some(waiting) => self.row(waiting.number, steps),
        }
    }

    fn capable(&self, dims: &DimSet) -> bool {
        self.rows.bots.capable(dims)
    }

    fn blob_count(&self) -> usize {
        self.rows.blobs.count()
    }

    fn blob_of<'a>(&'a self, digest: &Digest) -> Option<&'a BlobRow> {
        self.rows.blobs.blob_of(digest)
    }

    fn blob_numbered(&self, number: u32) -> Option<&BlobRow> {
        self.rows.blobs.blob_numbered(number)
    }

    fn probe(&self, digest: &Digest, size: u32) -> Held {
        self.rows.blobs.probe(digest, size)
    }

    fn is_used(&self, digest: &Digest) -> bool {
        self.indexes.uses.count(digest) > 0
    }

    fn next_deadline(&self) -> Option<Deadline> {
        self.indexes.next_deadline()
    }
}

impl PoolRows for IndexedRows {
    ghost ready = { λ rows. rows.ready };

    ghost held = { λ rows. rows.held };

    fn of_rows(alloc: Global, base: &PoolState) -> Result<IndexedRows, AllocError> {
        Ok(IndexedRows {
            alloc,
            rows: Rows::of_base(alloc, base)?,
            indexes: Indexes::of_base(alloc, base)?,
            ready: None,
        })
    }

    fn release(&mut self) {
        drop(self.ready.take());
    }

    fn reserve(&mut self, entry: &Entry) -> Result<(), AllocError> {
        drop(self.ready.take());
        make_ready(self.alloc, &mut self.rows, &mut self.indexes, entry)?;
        drop(mem::replace(&mut self.ready, Some(GhostValue::of(entry))));
        Ok(())
    }

    fn apply(&mut self, entry: &Entry, bytes: Option<&[u8]>) {
        drop(self.ready.take());
        let touched = touched_by(&self.rows, entry);
        self.rows.apply(entry, bytes);
        self.indexes.update_from(entry, touched, &self.rows);
    }

    fn fill(&mut self, digest: &Digest, bytes: &[u8]) -> Filled {
        drop(self.ready.take());
        bring_bytes(&mut self.rows.blobs, digest, bytes)
    }

    fn bytes(&self, digest: &Digest) -> Option<&[u8]> {
        lend_bytes(&self.rows.blobs, digest)
    }

    fn tally(&self) -> [u64; 9] {
        self.indexes.counts
    }

    fn last(&self) -> u64 {
        self.rows.last
    }

    fn placed(&self) -> u32 {
        self.rows.blobs.placed()
    }

    fn blob_at(&self, at: u32) -> Option<&BlobRow> {
        self.rows.blobs.row_at(at as usize)
    }
}
