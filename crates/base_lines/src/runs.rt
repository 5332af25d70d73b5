//! The tasks that bots run, out of the rows of the tasks.
ghost use Rattle.std.specs.Prelude.{◌≡◌, None, map};
ghost use Rattle.std.specs.List.{All};
ghost use Rattle.swarm_model.specs.Numbers.{AreNumbered};
ghost use Rattle.swarm_model.specs.Effects.{no_of_bot};
ghost use Rattle.swarm_model.specs.Soundness.{runner};
ghost use Rattle.base_lines.specs.Computed.{with_run};
ghost use Rattle.base_lines.specs.Runs.{note_run};

use row_changes::{Change, change_row};
use swarm_model::{BotRow, TaskRow};

/// A task for a bot that has none.
#[derive(Clone, Copy)]
struct GiveTask {
    task: u32,
}

impl Change<BotRow> for GiveTask {
    ghost use Rattle.std.specs.Prelude.{⊤};
    ghost use Rattle.base_lines.specs.Runs.{given_task};

    ghost change = { λ by bot. given_task by.task bot };

    ghost fits = { λ bot. ⊤ };

    fn apply(self, bot: &mut BotRow) {
        if bot.task.is_none() {
            bot.task = Some(self.task);
        }
    }
}

fn give_run(bots: &mut Vec<BotRow>, task: &TaskRow)
    requires { AreNumbered no_of_bot 1 bots.old.items }
    ensures { bots.new.items ≡ note_run (runner task.now) task.now.no bots.old.items }
{
    match task.runner() {
        None => {}
        Some(bot) => change_row(bots, bot, GiveTask { task: task.no }),
    }
}

/// Gives each bot the task that runs on it.
pub(crate) fn give_runs(bots: &mut Vec<BotRow>, tasks: &[TaskRow])
    requires numbered { AreNumbered no_of_bot 1 bots.old.items }
    requires idle { All (λ bot. bot.task ≡ None) bots.old.items }
    ensures { bots.new.items ≡ map (with_run tasks.now) bots.old.items }
{
    for task in tasks {
        give_run(bots, task);
    }
}
