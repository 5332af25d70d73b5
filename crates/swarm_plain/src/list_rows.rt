use crate::deadlines::next_deadline;
use crate::{pages, scans, sources};
use common_rows::Rows;
use content_store::{Filled, Held};
use dimensions::{BotDims, DimSet, Text};
use ghost_values::GhostValue;
use pool_changes::{bring_bytes, lend_bytes};
use pool_log::PoolRows;
use pool_queries::{PoolQueries, ReadQueries};
use row_changes::is_capable;
use std::alloc::{AllocError, Global};
use std::marker::Model;
use std::mem;
use std::sync::ledger::Ledger;
use swarm_model::{
    BlobRow, BotRow, Deadline, Entry, PoolSettings, PoolState, Steps, TaskRow, TaskState,
};
use task_props::Digest;

/// Rows of a pool that are scanned.
#[derive(Drop)]
pub struct ListRows {
    rows: Rows,
    /// The entry for which all lies ready.
    ready: Option<GhostValue<Entry>>,
}

impl Model for ListRows {
    ghost use Rattle.pool_log.specs.Plain.{RowsState};

    ghost Value = { RowsState };

    ghost use Rattle.swarm_plain.specs.Invariant.{kept_of, IsKept};

    ghost view = { kept_of };

    ghost invariant = { IsKept };
}

impl ReadQueries for ListRows {
    ghost state = { λ rows. rows.pool };

    fn sound(&self) {
        // For the proof: the invariant of the rows.
        let _rows = &self.rows;
    }

    fn settings(&self) -> &PoolSettings {
        &self.rows.settings
    }

    fn task_count(&self) -> usize {
        self.rows.tasks.count()
    }

    fn count(&self, wanted: Option<TaskState>) -> u64 {
        scans::count_wanted(self.rows.tasks.uncounted_rows(), wanted)
    }

    fn task_of<L: Ledger>(&self, number: u32, steps: &mut Steps<L>) -> Option<&TaskRow> {
        let row = self.rows.tasks.uncounted_row(number)?;
        steps.tick();
        Some(row)
    }

    fn newest_below<L: Ledger>(
        &self,
        wanted: Option<TaskState>,
        below: Option<u32>,
        _steps: &mut Steps<L>,
    ) -> Option<&TaskRow> {
        pages::newest_below(self.rows.tasks.uncounted_rows(), wanted, below)
    }

    fn bot_count(&self) -> usize {
        self.rows.bots.count()
    }

    fn bot_of(&self, number: u32) -> Option<&BotRow> {
        self.rows.bots.bot(number)
    }

    fn bot_named<'a>(&'a self, name: &Text) -> Option<&'a BotRow> {
        scans::bot_named(self.rows.bots.as_slice(), name)
    }

    fn next_bot<'a>(&'a self, name: &Text) -> Option<&'a BotRow> {
        pages::next_bot(self.rows.bots.as_slice(), name)
    }
}

impl PoolQueries for ListRows {
    fn sent<'a, L: Ledger>(
        &'a self,
        who: &Text,
        uuid: &Text,
        _steps: &mut Steps<L>,
    ) -> Option<&'a TaskRow> {
        scans::sent(self.rows.tasks.uncounted_rows(), who, uuid)
    }

    fn newest_source<'a, L: Ledger>(
        &'a self,
        alloc: Global,
        moment: u64,
        digest: &Digest,
        _steps: &mut Steps<L>,
    ) -> Result<Option<&'a TaskRow>, AllocError> {
        let age = self.rows.settings.reuse_age_secs;
        sources::newest_source(alloc, self.rows.tasks.uncounted_rows(), age, moment, digest)
    }

    fn by_claim<'a, L: Ledger>(
        &'a self,
        bot: u32,
        claim: &Text,
        _steps: &mut Steps<L>,
    ) -> Option<&'a TaskRow> {
        scans::claimed(self.rows.tasks.uncounted_rows(), bot, claim)
    }

    fn first_for<'a, L: Ledger>(
        &'a self,
        no: u32,
        dims: &BotDims,
        _steps: &mut Steps<L>,
    ) -> Option<&'a TaskRow> {
        scans::first(self.rows.tasks.uncounted_rows(), no, dims)
    }

    fn capable(&self, dims: &DimSet) -> bool {
        is_capable(self.rows.bots.as_slice(), dims)
    }

    fn blob_count(&self) -> usize {
        self.rows.blobs.count()
    }

    fn blob_of<'a>(&'a self, digest: &Digest) -> Option<&'a BlobRow> {
        self.rows.blobs.blob_of(digest)
    }

    fn blob_numbered(&self, number: u32) -> Option<&BlobRow> {
        self.rows.blobs.blob_numbered(number)
    }

    fn probe(&self, digest: &Digest, size: u32) -> Held {
        self.rows.blobs.probe(digest, size)
    }

    fn is_used(&self, digest: &Digest) -> bool {
        scans::is_used(self.rows.tasks.uncounted_rows(), digest)
    }

    fn next_deadline(&self) -> Option<Deadline> {
        next_deadline(&self.rows)
    }
}

impl PoolRows for ListRows {
    ghost ready = { λ rows. rows.ready };

    ghost held = { λ rows. rows.held };

    fn of_rows(alloc: Global, base: &PoolState) -> Result<ListRows, AllocError> {
        Ok(ListRows {
            rows: Rows::of_base(alloc, base)?,
            ready: None,
        })
    }

    fn release(&mut self) {
        drop(self.ready.take());
    }

    fn reserve(&mut self, entry: &Entry) -> Result<(), AllocError> {
        drop(self.ready.take());
        self.rows.reserve(entry)?;
        drop(mem::replace(&mut self.ready, Some(GhostValue::of(entry))));
        Ok(())
    }

    fn apply(&mut self, entry: &Entry, bytes: Option<&[u8]>) {
        drop(self.ready.take());
        self.rows.apply(entry, bytes);
    }

    fn fill(&mut self, digest: &Digest, bytes: &[u8]) -> Filled {
        drop(self.ready.take());
        bring_bytes(&mut self.rows.blobs, digest, bytes)
    }

    fn bytes(&self, digest: &Digest) -> Option<&[u8]> {
        lend_bytes(&self.rows.blobs, digest)
    }

    fn tally(&self) -> [u64; 9] {
        scans::tally(self.rows.tasks.uncounted_rows())
    }

    fn last(&self) -> u64 {
        self.rows.last
    }

    fn placed(&self) -> u32 {
        self.rows.blobs.placed()
    }

    fn blob_at(&self, at: u32) -> Option<&BlobRow> {
        self.rows.blobs.row_at(at as usize)
    }
}
