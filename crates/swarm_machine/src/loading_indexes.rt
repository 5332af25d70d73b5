//! What the indexes hold of rows that are kept, loaded row by row: first the bots, then the tasks,
//! then the blobs.
ghost use Rattle.std.specs.Prelude.{◌≡◌, ◌+◌, ◌<◌, ◌^◌, [], take, length, IsTrue, IfSome, IfOk, OnOk};
ghost use Rattle.std.specs.Option.{option_map, option_copied};
ghost use Rattle.dim_queue.specs.Plain.{IsAbsent};
ghost use Rattle.pool_index.specs.Claims as claims;
ghost use Rattle.pool_index.specs.Uuids as uuids;
ghost use Rattle.pool_index.specs.Links.{links_with};
ghost use Rattle.pool_index.specs.QueuedDeadlines.{Adds};
ghost use Rattle.swarm_model.specs.BaseRules.{IsBase};
ghost use Rattle.swarm_model.specs.Deadlines.{runner_of, bot_end, blob_end};
ghost use Rattle.swarm_model.specs.Settings.{keeps_rules};
ghost use Rattle.swarm_model.specs.Soundness.{IsSound};
ghost use Rattle.row_changes.specs.Rows.{IsEarly, IsHeard};
ghost use Rattle.index_laws.specs.Loads.{last_claim_link, lost_claim_link};
ghost use Rattle.index_laws.specs.RowDeadlines.{task_deadline};
ghost use Rattle.index_laws.specs.TaskQueues.{waiting_of};
ghost use Rattle.index_laws.specs.TaskUuids.{sent_of, uuid_link};
ghost use Rattle.swarm_machine.specs.Indexes.{AreIndexes};
ghost use Rattle.swarm_machine.specs.Loading.{with_bots, with_tasks, with_blobs, IsEntered, IsEndSet, MayLoad};

use crate::counting::shift_counts;
use crate::indexes::Indexes;
use crate::sources::load_source;
use crate::uses::load_uses;
use dim_queue::Queues;
use pool_index::{ClaimIndex, DeadlineQueue, DeadlineTree, UuidIndex};
use row_changes::{blob_end, death_of, row_of, silence_of, slice_end};
use std::alloc::{AllocError, Global};
use swarm_model::{BlobRow, BotRow, Deadline, PoolState, TaskRow, TaskState};

/// A task that waits enters the queue of its current slice.
fn load_queue(queues: &mut Queues, task: &TaskRow) -> Result<(), AllocError>
    requires { IsAbsent task.now.no queues.old.queues }
    ensures { OnOk result (IsEntered (waiting_of task.now) queues.old.queues queues.new.queues) }
{
    if task.has_state(TaskState::Pending) {
        if let Some(slice) = task.current_slice() {
            let dims = &slice.properties.dimensions;
            let but = task.kept_from();
            queues.reserve(dims, but)?;
            queues.enter(dims, but, task.request.priority, task.no);
        }
    }
    Ok(())
}

/// The claim of the task's last run is one more.
fn load_claim(index: &mut ClaimIndex, task: &TaskRow) -> Result<(), AllocError>
    requires { IfSome (last_claim_link task.now) (λ link. claims.HasNone index.old.links (claims.key_of link)) }
    ensures { OnOk result (index.new.links ≡ links_with (last_claim_link task.now) index.old.links) }
{
    if let Some(attempt) = &task.attempt {
        index.reserve(attempt.bot, &attempt.claim, task.no)?;
        index.add();
    }
    Ok(())
}

/// So is the claim of the run that was lost before and tried again.
fn load_lost_claim(index: &mut ClaimIndex, task: &TaskRow) -> Result<(), AllocError>
    requires { IfSome (lost_claim_link task.now) (λ link. claims.HasNone index.old.links (claims.key_of link)) }
    ensures { OnOk result (index.new.links ≡ links_with (lost_claim_link task.now) index.old.links) }
{
    if let Some(lost) = task.retried.as_ref() {
        index.reserve(lost.attempt.bot, &lost.attempt.claim, task.no)?;
        index.add();
    }
    Ok(())
}

/// The uuid under which the task was sent is one more.
fn load_uuid(index: &mut UuidIndex, task: &TaskRow) -> Result<(), AllocError>
    requires { IfSome (option_map uuid_link (sent_of task.now)) (λ link. uuids.HasNone index.old.links (uuids.key_of link)) }
    ensures { OnOk result (index.new.links ≡ links_with (option_map uuid_link (sent_of task.now)) index.old.links) }
{
    if !task.request.request_uuid.as_str().is_empty() {
        index.reserve(&task.creator, &task.request.request_uuid, task.no)?;
        index.add();
    }
    Ok(())
}

/// The deadline of a row stands at the place of its number.
fn load_end(ends: &mut DeadlineTree, number: u32, end: Option<Deadline>) -> Result<(), AllocError>
    ensures { OnOk result (IsEndSet number end ends.old ends.new) }
{
    let at = number as usize;
    ends.cover(at + 1)?;
    ends.put(at, end);
    Ok(())
}

/// The deadline of a blob is one more.
fn load_blob_end(ends: &mut DeadlineQueue, blob: &BlobRow) -> Result<(), AllocError>
    ensures { OnOk result (Adds (blob_end blob.now) ends.old.deadlines ends.new.deadlines) }
{
    ends.reserve()?;
    ends.add(blob_end(blob));
    Ok(())
}

fn bot_end(base: &PoolState, bot: &BotRow) -> Option<Deadline>
    requires { IsHeard bot.now }
    ensures { result ≡ bot_end base.now bot.now }
{
    death_of(base.settings.death_timeout_secs, bot)
}

/// The bot of a run.
fn runner_of<'a>(base: &'a PoolState, task: &TaskRow) -> Option<&'a BotRow>
    requires { IsSound base.now }
    ensures value { option_copied result ≡ runner_of base.now task.now }
    ensures heard { IfSome (option_copied result) IsHeard }
{
    row_of(base.bots.as_slice(), task.attempt.as_ref()?.bot)
}

fn task_end(base: &PoolState, task: &TaskRow) -> Option<Deadline>
    requires sound { IsSound base.now }
    requires early { IsEarly task.now }
    ensures { result ≡ task_deadline base.now task.now }
{
    if task.has_state(TaskState::Pending) {
        slice_end(task)
    } else {
        silence_of(task, runner_of(base, task))
    }
}

impl Indexes {
    /// Adds what the bot at a place of the rows says, behind those before it.
    fn load_bot(&mut self, base: &PoolState, place: usize) -> Result<(), AllocError>
        requires may { MayLoad base.now }
        requires low { place < length base.now.bots }
        requires before { AreIndexes self.old (with_bots base.now (take place base.now.bots)) }
        ensures { OnOk result (AreIndexes self.new (with_bots base.now (take (place + 1) base.now.bots))) }
    {
        let bot = &base.bots.as_slice()[place];
        load_end(&mut self.bot_ends, bot.no, bot_end(base, bot))
    }

    /// Adds what all bots say.
    fn load_bots(&mut self, base: &PoolState) -> Result<(), AllocError>
        requires may { MayLoad base.now }
        requires before { AreIndexes self.old (with_bots base.now []) }
        ensures { OnOk result (AreIndexes self.new (with_bots base.now base.now.bots)) }
    {
        for place in 0..base.bots.as_slice().len() {
            self.load_bot(base, place)?;
        }
        Ok(())
    }

    /// Adds what the task at a place of the rows says, behind those before it.
    fn load_task(&mut self, alloc: Global, base: &PoolState, place: usize) -> Result<(), AllocError>
        requires may { MayLoad base.now }
        requires low { place < length base.now.tasks }
        requires before { AreIndexes self.old (with_tasks base.now (take place base.now.tasks)) }
        ensures { OnOk result (AreIndexes self.new (with_tasks base.now (take (place + 1) base.now.tasks))) }
    {
        let task = &base.tasks.as_slice()[place];
        load_queue(&mut self.queues, task)?;
        load_end(&mut self.task_ends, task.no, task_end(base, task))?;
        load_claim(&mut self.claims, task)?;
        load_lost_claim(&mut self.claims, task)?;
        load_uuid(&mut self.uuids, task)?;
        load_source(alloc, &mut self.sources, task)?;
        load_uses(&mut self.uses, task)?;
        self.counts = shift_counts(&self.counts, None, Some(task.state));
        Ok(())
    }

    /// Adds what all tasks say.
    fn load_tasks(&mut self, alloc: Global, base: &PoolState) -> Result<(), AllocError>
        requires may { MayLoad base.now }
        requires before { AreIndexes self.old (with_tasks base.now []) }
        ensures { OnOk result (AreIndexes self.new (with_tasks base.now base.now.tasks)) }
    {
        for place in 0..base.tasks.as_slice().len() {
            self.load_task(alloc, base, place)?;
        }
        Ok(())
    }

    /// Adds what the blob at a place of the rows says, behind those before it.
    fn load_blob(&mut self, base: &PoolState, place: usize) -> Result<(), AllocError>
        requires low { place < length base.now.blobs }
        requires before { AreIndexes self.old (with_blobs base.now (take place base.now.blobs)) }
        ensures { OnOk result (AreIndexes self.new (with_blobs base.now (take (place + 1) base.now.blobs))) }
    {
        let blob = &base.blobs.as_slice()[place];
        load_blob_end(&mut self.blob_ends, blob)
    }

    /// Adds what all blobs say.
    fn load_blobs(&mut self, base: &PoolState) -> Result<(), AllocError>
        requires { AreIndexes self.old (with_blobs base.now []) }
        ensures { OnOk result (AreIndexes self.new base.now) }
    {
        for place in 0..base.blobs.as_slice().len() {
            self.load_blob(base, place)?;
        }
        Ok(())
    }

    /// Those of the rows of a base.
    pub fn of_base(alloc: Global, base: &PoolState) -> Result<Indexes, AllocError>
        requires rules { IsTrue (keeps_rules base.now.settings) }
        requires base { IsBase base.now.settings (2 ^ 31) base.now }
        ensures { IfOk result (λ indexes. AreIndexes indexes base.now) }
    {
        let mut indexes = Indexes::new(alloc);
        indexes.load_bots(base)?;
        indexes.load_tasks(alloc, base)?;
        indexes.load_blobs(base)?;
        Ok(indexes)
    }
}
