//! What a pool keeps beside its rows, so that a request finds the rows that it needs at once.
ghost use Rattle.std.specs.Prelude.{◌≡◌, ◌<◌, ◌^◌, [], length, OnOk};
ghost use Rattle.swarm_model.specs.declared.pool_state.PoolState.{PoolState};
ghost use Rattle.swarm_model.specs.Deadlines.{next_deadline};
ghost use Rattle.swarm_model.specs.Soundness.{IsSound};
ghost use Rattle.index_laws.specs.TaskClaims.{claim_link_to_come};
ghost use Rattle.index_laws.specs.TaskUuids.{uuid_link_to_come};
ghost use Rattle.common_rows.specs.Rows.{state_of};
ghost use Rattle.swarm_machine.specs.Indexes.{AreIndexes, AreReadyFor, IsTouchedBy, AreBehind};
ghost use Rattle.swarm_machine.specs.Loading.{with_bots};

use crate::counting::{shift_counts, state_in};
use crate::deadlines::{blob_end_with, move_deadline, put_bot_deadline, put_task_deadline};
use crate::queueing::{move_in_queue, prepare_queue};
use crate::sources::prepare_source;
use crate::touched::{touched_bot, touched_task};
use crate::uses::{follow_uses, list_uses};
use common_rows::Rows;
use dim_queue::Queues;
use pool_index::{
    ClaimIndex, DeadlineQueue, DeadlineTree, SourceIndex, UseCounts, UuidIndex, sooner_of,
};
use std::alloc::{AllocError, Global};
use swarm_model::{Chunk, Deadline, Entry, EntryKind, TaskState};

/// The queues of the tasks that wait, the deadlines, the look-ups by claim, by uuid and by the hash of
/// what ran, and how many tasks are in each state.
#[derive(Drop)]
pub(crate) struct Indexes {
    pub queues: Queues,
    /// At the number of each task.
    pub task_ends: DeadlineTree,
    /// At the number of each bot.
    pub bot_ends: DeadlineTree,
    /// Of the blobs, in their order.
    pub blob_ends: DeadlineQueue,
    pub claims: ClaimIndex,
    pub uuids: UuidIndex,
    pub sources: SourceIndex,
    pub uses: UseCounts,
    pub counts: [u64; 9],
}

/// The rows that an entry may change, told before it changes them.
#[derive(Clone, Copy)]
pub(crate) struct Touched {
    pub task: Option<u32>,
    pub bot: Option<u32>,
    /// The deadline of the blob that it may change.
    pub blob_end: Option<Deadline>,
    /// The chunk of the entry, where it goes on from the output that is kept.
    pub fresh: Option<Chunk>,
    /// The state of the task, where it is there.
    pub state: Option<TaskState>,
}

fn prepare_claim(claims: &mut ClaimIndex, kind: &EntryKind) -> Result<(), AllocError>
    ensures links { claims.new.links ≡ claims.old.links }
    ensures ready { OnOk result (claims.new.ready ≡ claim_link_to_come kind.now) }
{
    match kind {
        EntryKind::Claim { b, t, claim } => claims.reserve(*b, claim, *t),
        _ => {
            claims.release();
            Ok(())
        }
    }
}

fn prepare_uuid(uuids: &mut UuidIndex, kind: &EntryKind) -> Result<(), AllocError>
    ensures links { uuids.new.links ≡ uuids.old.links }
    ensures ready { OnOk result (uuids.new.ready ≡ uuid_link_to_come kind.now) }
{
    match kind {
        EntryKind::New {
            t,
            who,
            request,
            ..
        } if !request.request_uuid.as_str().is_empty() => {
            uuids.reserve(who, &request.request_uuid, *t)
        }
        _ => {
            uuids.release();
            Ok(())
        }
    }
}

/// Tells the rows that the entry may change.
pub(crate) fn touched_by(rows: &Rows, entry: &Entry) -> Touched
    ensures { IsTouchedBy (state_of rows.now) entry.now result }
{
    let task = touched_task(rows, &entry.kind);
    let fresh = rows.fresh_in(&entry.kind);
    Touched {
        task,
        bot: touched_bot(rows, &entry.kind),
        blob_end: blob_end_with(rows, &entry.kind, fresh),
        fresh,
        state: state_in(rows, task),
    }
}

impl Indexes {
    /// Those of a pool without a row. It takes no memory.
    pub fn new(alloc: Global) -> Indexes
        ensures { (s : PoolState) → AreIndexes result (with_bots s []) }
    {
        Indexes {
            queues: Queues::new(alloc),
            task_ends: DeadlineTree::new(alloc),
            bot_ends: DeadlineTree::new(alloc),
            blob_ends: DeadlineQueue::new(alloc),
            claims: ClaimIndex::new(alloc),
            uuids: UuidIndex::new(alloc),
            sources: SourceIndex::new(alloc),
            uses: UseCounts::new(alloc),
            counts: [0; 9],
        }
    }

    /// The earliest of all deadlines.
    pub fn next_deadline(&self) -> Option<Deadline>
        ensures { (s : PoolState) → IsSound s → AreIndexes self.now s → result ≡ next_deadline s }
    {
        let soonest = sooner_of(self.task_ends.first(), self.bot_ends.first());
        sooner_of(soonest, self.blob_ends.first())
    }

    /// Makes ready all that an entry adds.
    pub fn reserve(&mut self, alloc: Global, entry: &Entry, rows: &Rows) -> Result<(), AllocError>
        requires few_tasks { length rows.now.tasks.rows < 2 ^ 32 }
        requires few_bots { length rows.now.bots.rows < 2 ^ 32 }
        ensures same { (s : PoolState) → AreIndexes self.old s → AreIndexes self.new s }
        ensures ready { OnOk result (AreReadyFor self.new (state_of rows.now) entry.now.kind) }
    {
        self.task_ends.cover(rows.tasks.count().saturating_add(2))?;
        self.bot_ends.cover(rows.bots.count().saturating_add(2))?;
        self.blob_ends.reserve()?;
        prepare_queue(&mut self.queues, &entry.kind, rows)?;
        prepare_claim(&mut self.claims, &entry.kind)?;
        prepare_uuid(&mut self.uuids, &entry.kind)?;
        prepare_source(alloc, &mut self.sources, &entry.kind, rows)?;
        list_uses(&mut self.uses, &entry.kind)
    }

    /// Follows an entry, after which the rows are these. It takes no memory.
    pub fn update_from(&mut self, entry: &Entry, touched: Touched, rows: &Rows)
        requires sound { IsSound (state_of rows.now) }
        requires behind { AreBehind self.old entry.now touched rows.now }
        ensures { AreIndexes self.new (state_of rows.now) }
    {
        put_task_deadline(&mut self.task_ends, touched.task, rows);
        put_bot_deadline(&mut self.bot_ends, touched.bot, rows);
        let blob_end = blob_end_with(rows, &entry.kind, touched.fresh);
        move_deadline(&mut self.blob_ends, touched.blob_end, blob_end);
        move_in_queue(&mut self.queues, touched.task, rows);
        self.claims.add();
        self.uuids.add();
        self.sources.add();
        follow_uses(&mut self.uses, entry, touched, rows);
        self.counts = shift_counts(&self.counts, touched.state, state_in(rows, touched.task));
    }
}
