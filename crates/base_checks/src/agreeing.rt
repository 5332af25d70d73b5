//! Bots and the tasks that they run, which name each other.
ghost use Rattle.std.specs.Prelude.{◌≡◌, MatchBool};
ghost use Rattle.std.specs.List.{AllPass};
ghost use Rattle.swarm_model.specs.Numbers.{AreNumbered};
ghost use Rattle.swarm_model.specs.Effects.{no_of_task, no_of_bot};
ghost use Rattle.base_checks.specs.Agreeing.{bot_agrees, task_agrees, NameEachOther};

use row_changes::row_of;
use swarm_model::{BotRow, TaskRow};

/// Whether the task that the bot names, where it is there, runs on the bot.
fn bot_agrees(tasks: &[TaskRow], bot: &BotRow) -> bool
    requires { AreNumbered no_of_task 1 tasks.now }
    ensures { result ≡ bot_agrees tasks.now bot.now }
{
    let Some(number) = bot.task else {
        return true;
    };
    match row_of(tasks, number) {
        None => true,
        Some(task) => task.runner() == Some(bot.no),
    }
}

/// Whether the bot that runs the task, where it is there, names the task.
fn task_agrees(bots: &[BotRow], task: &TaskRow) -> bool
    requires { AreNumbered no_of_bot 1 bots.now }
    ensures { result ≡ task_agrees bots.now task.now }
{
    let Some(number) = task.runner() else {
        return true;
    };
    match row_of(bots, number) {
        None => true,
        Some(bot) => bot.task == Some(task.no),
    }
}

/// Whether each bot's task, where it is there, runs on the bot.
fn bots_agree(bots: &[BotRow], tasks: &[TaskRow]) -> bool
    requires { AreNumbered no_of_task 1 tasks.now }
    ensures { MatchBool result (AllPass (bot_agrees tasks.now) bots.now) (AllPass (bot_agrees tasks.now) bots.now → ⊥) }
{
    for bot in bots {
        if !bot_agrees(tasks, bot) {
            return false;
        }
    }
    true
}

/// Whether each task's bot, where it is there, names the task.
fn tasks_agree(bots: &[BotRow], tasks: &[TaskRow]) -> bool
    requires { AreNumbered no_of_bot 1 bots.now }
    ensures { MatchBool result (AllPass (task_agrees bots.now) tasks.now) (AllPass (task_agrees bots.now) tasks.now → ⊥) }
{
    for task in tasks {
        if !task_agrees(bots, task) {
            return false;
        }
    }
    true
}

/// Whether each bot names just the task that runs on it. Of bots and tasks that are numbered by their
/// places it takes a look-up for each.
pub fn name_each_other(bots: &[BotRow], tasks: &[TaskRow]) -> bool
    requires bots { AreNumbered no_of_bot 1 bots.now }
    requires tasks { AreNumbered no_of_task 1 tasks.now }
    ensures { MatchBool result (NameEachOther bots.now tasks.now) (NameEachOther bots.now tasks.now → ⊥) }
{
    if !bots_agree(bots, tasks) {
        return false;
    }
    tasks_agree(bots, tasks)
}
