ghost use Rattle.std.specs.Prelude.{◌≡◌, ◌<◌, ◌^◌, length};
ghost use Rattle.swarm_model.specs.Effects.{no_of_task};
ghost use Rattle.swarm_model.specs.Numbers.{AreNumbered};
ghost use Rattle.swarm_model.specs.Soundness.{IsSound};
ghost use Rattle.row_copies.specs.Kept.{now_of};

use crate::RowCopy;
use common_rows::{count_in_state, newest_below, task_of};
use dimensions::Text;
use pool_queries::ReadQueries;
use std::marker::Model;
use std::sync::ledger::Ledger;
use swarm_model::{BotRow, PoolSettings, Steps, TaskRow, TaskState};
use task_rows::TaskRows;

/// A copy of the rows to which a log has led, for the queries of those who read tasks and bots.
/// Contracts see the pool, without its blobs, for which the rows stand.
#[derive(Drop)]
pub(crate) struct SoundCopy<'a> {
    copy: &'a RowCopy,
}

impl<'a> Model for SoundCopy<'a> {
    ghost use Rattle.swarm_model.specs.declared.pool_state.PoolState.{PoolState};
    ghost use Rattle.swarm_model.specs.Soundness.{IsSound};
    ghost use Rattle.row_copies.specs.Kept.{now_of};

    ghost Value = { PoolState };

    ghost view = { λ sound. now_of sound.copy.now };

    ghost invariant = { λ sound. IsSound (now_of sound.copy.now) };
}

impl<'a> SoundCopy<'a> {
    pub(crate) fn of(copy: &'a RowCopy) -> SoundCopy<'a>
        requires { IsSound (now_of copy.now) }
        ensures { result ≡ now_of copy.now }
    {
        SoundCopy { copy }
    }

    /// The rows of the tasks, which are numbered by their places, and are few.
    fn tasks(&self) -> &TaskRows
        ensures rows { result.now.rows ≡ self.now.tasks }
        ensures numbered { AreNumbered no_of_task 1 result.now.rows }
        ensures few { length result.now.rows < 2 ^ 32 }
    {
        // For the proof: there are at most so many tasks.
        let _most = self.copy.settings.most_tasks;
        &self.copy.tasks
    }
}

impl<'a> ReadQueries for SoundCopy<'a> {
    ghost state = { λ copy. copy };

    fn sound(&self) {
        // For the proof: the rows are sound.
        let _copy = self.copy;
    }

    fn settings(&self) -> &PoolSettings {
        &self.copy.settings
    }

    fn task_count(&self) -> usize {
        self.copy.tasks.count()
    }

    fn bot_count(&self) -> usize {
        self.copy.bots.count()
    }

    /// It reads all tasks where a state is named.
    fn count(&self, wanted: Option<TaskState>) -> u64 {
        match wanted {
            None => self.copy.tasks.count() as u64,
            Some(state) => count_in_state(self.copy.tasks.uncounted_rows(), state),
        }
    }

    fn task_of<L: Ledger>(&self, number: u32, steps: &mut Steps<L>) -> Option<&TaskRow> {
        task_of(self.tasks(), number, steps)
    }

    /// It reads the tasks from the number down to the one that it finds.
    fn newest_below<L: Ledger>(
        &self,
        wanted: Option<TaskState>,
        below: Option<u32>,
        steps: &mut Steps<L>,
    ) -> Option<&TaskRow> {
        newest_below(self.tasks(), wanted, below, steps)
    }

    fn bot_of(&self, number: u32) -> Option<&BotRow> {
        self.copy.bots.bot(number)
    }

    fn bot_named<'b>(&'b self, name: &Text) -> Option<&'b BotRow> {
        self.copy.bots.named(name)
    }

    fn next_bot<'b>(&'b self, name: &Text) -> Option<&'b BotRow> {
        self.copy.bots.next_after(name)
    }
}
