use crate::{Attempt, Last, MaybeRetried, TaskState};
use dimensions::{Text, TryCopy};
use std::alloc::{AllocError, Global};
use task_props::{SharedTask, Slice};

/// What a pool knows of a task. Tasks are numbered from 1 in the order of their acceptance.
#[derive(Drop)]
pub struct TaskRow {
    pub no: u32,
    pub creator: Text,
    pub request: SharedTask,
    pub created: u64,
    pub state: TaskState,
    /// The place of the slice that the task has come to, from 0.
    pub slice: u32,
    /// The moment at which the task came to that slice.
    pub since: u64,
    /// The run that a bot claimed.
    pub attempt: Option<Attempt>,
    /// The run that was lost before, and is tried once more.
    pub retried: MaybeRetried,
    /// The task whose outcome this one took.
    pub source: Option<u32>,
    /// The moment at which the task ended.
    pub ended: Option<u64>,
}

impl TaskRow {
    ghost use Rattle.std.specs.Prelude.{◌≡◌};
    ghost use Rattle.std.specs.Option.{option_copied};
    ghost use Rattle.swarm_model.specs.Finding.{has_state};
    ghost use Rattle.swarm_model.specs.Slices.{current_slice, kept_from, is_kept_from};
    ghost use Rattle.swarm_model.specs.Effects.{next_try};
    ghost use Rattle.swarm_model.specs.Views.{last_of};
    ghost use Rattle.swarm_model.specs.Answers.{is_claimed, has_try, try_of};
    ghost use Rattle.swarm_model.specs.Soundness.{runner};

    pub fn has_state(&self, state: TaskState) -> bool
        ensures { result ≡ has_state state self.now }
    {
        self.state.is(state)
    }

    /// The slice that the task has come to.
    pub fn current_slice(&self) -> Option<&Slice>
        ensures { option_copied result ≡ current_slice self.now }
    {
        self.request.task_slices.as_slice().get(self.slice as usize)
    }

    /// The last report of the task's run.
    pub fn last_report(&self) -> Option<&Last>
        ensures { option_copied result ≡ last_of self.now }
    {
        match &self.attempt {
            None => None,
            Some(attempt) => attempt.last.as_ref(),
        }
    }

    /// The number of the task's try, or 0 where it has none.
    pub fn try_no(&self) -> u32
        ensures { result ≡ try_of self.now }
    {
        match &self.attempt {
            None => 0,
            Some(attempt) => attempt.try_no,
        }
    }

    pub fn has_try(&self, try_no: u32) -> bool
        ensures { result ≡ has_try try_no self.now.attempt }
    {
        match &self.attempt {
            None => false,
            Some(attempt) => attempt.try_no == try_no,
        }
    }

    /// The number of the task's next run.
    pub fn next_try(&self) -> u32
        ensures { result ≡ next_try self.now }
    {
        match self.retried.as_ref() {
            None => 1,
            Some(_) => 2,
        }
    }

    /// Whether the bot of this number claimed the task's run under this id.
    pub fn is_claimed(&self, bot: u32, claim: &Text) -> bool
        ensures { result ≡ is_claimed bot claim.now self.now }
    {
        match &self.attempt {
            None => false,
            Some(attempt) => attempt.is_claim(bot, claim),
        }
    }

    /// The bot that runs the task.
    pub fn runner(&self) -> Option<u32>
        ensures { result ≡ runner self.now }
    {
        if !self.has_state(TaskState::Running) {
            return None;
        }
        match &self.attempt {
            None => None,
            Some(attempt) => Some(attempt.bot),
        }
    }

    /// The bot that ran the task before, which doesn't get it again.
    pub fn kept_from(&self) -> Option<u32>
        ensures { result ≡ kept_from self.now }
    {
        match self.retried.as_ref() {
            None => None,
            Some(lost) => Some(lost.attempt.bot),
        }
    }

    /// Whether that is the bot of this number.
    pub fn is_kept_from(&self, bot: u32) -> bool
        ensures { result ≡ is_kept_from bot self.now }
    {
        match self.kept_from() {
            None => false,
            Some(other) => other == bot,
        }
    }
}

/// The copy shares the request.
impl TryCopy for TaskRow {
    fn try_copy(&self, alloc: Global) -> Result<TaskRow, AllocError> {
        Ok(TaskRow {
            no: self.no,
            creator: self.creator.try_copy(alloc)?,
            request: self.request.try_copy(alloc)?,
            created: self.created,
            state: self.state,
            slice: self.slice,
            since: self.since,
            attempt: self.attempt.try_copy(alloc)?,
            retried: self.retried.try_copy(alloc)?,
            source: self.source,
            ended: self.ended,
        })
    }
}
