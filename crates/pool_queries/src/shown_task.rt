ghost use Rattle.std.specs.Prelude.{◌≡◌};
ghost use Rattle.std.specs.Option.{option_copied};
ghost use Rattle.swarm_model.specs.Answers.{lost_row, as_claimed, try_of};
ghost use Rattle.swarm_model.specs.Slices.{current_slice};
ghost use Rattle.swarm_model.specs.Views.{last_of};

use dimensions::Text;
use std::marker::Model;
use swarm_model::{Attempt, Last, Retried, TaskRow, TaskState};
use task_props::Slice;

/// A task as the number of one of its tries shows it. Contracts see a `TaskRow`: the task's row, or
/// for a run that was tried again the row as it would stand, had that run been the task's last.
#[derive(Drop)]
pub struct ShownTask<'a> {
    task: &'a TaskRow,
    /// The run that was tried again, where that is the one that is shown.
    lost: Option<&'a Retried>,
}

impl<'a> Model for ShownTask<'a> {
    ghost use Rattle.std.specs.Option.{option_copied};
    ghost use Rattle.swarm_model.specs.declared.task_row.TaskRow.{TaskRow};
    ghost use Rattle.pool_queries.specs.Shown.{row_shown};

    ghost Value = { TaskRow };

    ghost view = { λ shown. row_shown shown.task.now (option_copied shown.lost) };
}

impl<'a> ShownTask<'a> {
    /// The task with its own run.
    pub fn whole(task: &'a TaskRow) -> ShownTask<'a>
        ensures { result ≡ task.now }
    {
        ShownTask { task, lost: None }
    }

    /// The task as the run that was tried again shows it.
    pub(crate) fn lost(task: &'a TaskRow, lost: &'a Retried) -> ShownTask<'a>
        ensures { result ≡ lost_row task.now lost.now }
    {
        ShownTask {
            task,
            lost: Some(lost),
        }
    }

    /// The task as the run of this claim shows it.
    pub fn as_claimed(bot: u32, claim: &Text, task: &'a TaskRow) -> ShownTask<'a>
        ensures { result ≡ as_claimed bot claim.now task.now }
    {
        if task.is_claimed(bot, claim) {
            ShownTask::whole(task)
        } else {
            ShownTask {
                task,
                lost: task.retried.as_ref(),
            }
        }
    }

    /// The row of the task, for what is the same whichever run is shown.
    pub fn row(&self) -> &'a TaskRow
        ensures no { result.now.no ≡ self.now.no }
        ensures creator { result.now.creator ≡ self.now.creator }
        ensures request { result.now.request ≡ self.now.request }
        ensures created { result.now.created ≡ self.now.created }
        ensures source { result.now.source ≡ self.now.source }
    {
        self.task
    }

    pub fn state(&self) -> TaskState
        ensures { result ≡ self.now.state }
    {
        match self.lost {
            None => self.task.state,
            Some(_) => TaskState::BotDied,
        }
    }

    /// The place of the slice that is shown, from 0.
    pub fn slice(&self) -> u32
        ensures { result ≡ self.now.slice }
    {
        match self.lost {
            None => self.task.slice,
            Some(lost) => lost.slice,
        }
    }

    pub fn current_slice(&self) -> Option<&'a Slice>
        ensures { option_copied result ≡ current_slice self.now }
    {
        let place = self.slice() as usize;
        self.row().request.task_slices.as_slice().get(place)
    }

    /// The run that is shown.
    pub fn attempt(&self) -> Option<&'a Attempt>
        ensures { option_copied result ≡ self.now.attempt }
    {
        match self.lost {
            None => self.task.attempt.as_ref(),
            Some(lost) => Some(&lost.attempt),
        }
    }

    /// The moment at which the run that is shown ended, or the task.
    pub fn ended(&self) -> Option<u64>
        ensures { result ≡ self.now.ended }
    {
        match self.lost {
            None => self.task.ended,
            Some(lost) => Some(lost.over),
        }
    }

    /// The last report of the run.
    pub fn last_report(&self) -> Option<&'a Last>
        ensures { option_copied result ≡ last_of self.now }
    {
        match self.attempt() {
            None => None,
            Some(attempt) => attempt.last.as_ref(),
        }
    }

    /// The number of the run's try, or 0 where there is none.
    pub fn try_no(&self) -> u32
        ensures { result ≡ try_of self.now }
    {
        match self.attempt() {
            None => 0,
            Some(attempt) => attempt.try_no,
        }
    }
}
