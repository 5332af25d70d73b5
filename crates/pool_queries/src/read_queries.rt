ghost use Rattle.std.specs.Prelude.{◌≡◌, ◌≤◌, ◌+◌, length, slice_get, IsNone};
ghost use Rattle.std.specs.List.{count_by};
ghost use Rattle.std.specs.Option.{option_copied};
ghost use Rattle.swarm_model.specs.Finding.{task_of, bot_of, bot_named, is_wanted};
ghost use Rattle.swarm_model.specs.Pages.{listed_tasks, listed_bots};
ghost use Rattle.swarm_model.specs.Soundness.{IsSound};

use dimensions::Text;
use std::sync::ledger::Ledger;
use swarm_model::{BotRow, PoolSettings, Steps, TaskRow, TaskState};

/// What a reader of a pool's tasks and bots asks of the rows. Rows without blobs and without indexes
/// can answer it.
pub trait ReadQueries {
    ghost use Rattle.swarm_model.specs.declared.pool_state.PoolState.{PoolState};

    /// The state that the rows stand for.
    ghost state: { Self → PoolState };

    /// For the proof: the rows are those that a log leads to. It does nothing at run time.
    fn sound(&self)
        ensures { IsSound (state self.now) };

    fn settings(&self) -> &PoolSettings
        ensures { result.now ≡ (state self.now).settings };

    fn task_count(&self) -> usize
        ensures { result ≡ length (state self.now).tasks };

    fn bot_count(&self) -> usize
        ensures { result ≡ length (state self.now).bots };

    /// How many tasks are in the state, or in any where none is named.
    fn count(&self, wanted: Option<TaskState>) -> u64
        ensures { result ≡ count_by (is_wanted wanted) (state self.now).tasks };

    fn task_of<L: Ledger>(&self, number: u32, steps: &mut Steps<L>) -> Option<&TaskRow>
        ensures value { option_copied result ≡ task_of (state self.now) number }
        ensures cost { steps.new ≤ steps.old + 1 }
        ensures free { IsNone result → steps.new ≡ steps.old };

    /// The newest task in the state, or in any where none is named, with a number below the one
    /// that is given, where one is.
    fn newest_below<L: Ledger>(
        &self,
        wanted: Option<TaskState>,
        below: Option<u32>,
        steps: &mut Steps<L>,
    ) -> Option<&TaskRow>
        ensures { option_copied result ≡ slice_get (listed_tasks (state self.now) wanted below) 0 };

    fn bot_of(&self, number: u32) -> Option<&BotRow>
        ensures { option_copied result ≡ bot_of (state self.now) number };

    fn bot_named<'a>(&'a self, name: &Text) -> Option<&'a BotRow>
        ensures { option_copied result ≡ bot_named (state self.now) name.now };

    /// The bot whose name comes next after this one, in the order of their bytes.
    fn next_bot<'a>(&'a self, name: &Text) -> Option<&'a BotRow>
        ensures { option_copied result ≡ slice_get (listed_bots (state self.now) name.now) 0 };
}
