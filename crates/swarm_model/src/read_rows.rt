ghost use Rattle.std.specs.Prelude.{◌≡◌, ◌+◌};
ghost use Rattle.std.specs.List.{find};
ghost use Rattle.std.specs.Option.{option_copied};
ghost use Rattle.swarm_model.specs.Finding.{is_task};

use crate::{Steps, TaskRow};
use std::sync::ledger::Ledger;

/// The rows of a pool's tasks, which are read one at a time and counted.
pub trait ReadRows {
    ghost use Rattle.std.specs.Prelude.{List};
    ghost use Rattle.swarm_model.specs.declared.task_row.TaskRow.{TaskRow};

    ghost rows: { Self → List TaskRow };

    /// The row of the task of a number, for one step.
    fn row<L: Ledger>(&self, no: u32, steps: &mut Steps<L>) -> Option<&TaskRow>
        ensures row { option_copied result ≡ find (is_task no) (rows self.now) }
        ensures cost { steps.new ≡ steps.old + 1 };
}
