//! The rows of tasks and bots that are kept, loaded one after another.
ghost use Rattle.std.specs.Prelude.{◌≡◌, ◌≤◌, length, IfOk};
ghost use Rattle.std.specs.List.{All};
ghost use Rattle.swarm_model.specs.Numbers.{AreNumbered};
ghost use Rattle.swarm_model.specs.Effects.{no_of_task, no_of_bot};
ghost use Rattle.swarm_model.specs.Soundness.{AreNamedApart};

use bot_registry::Registry;
use dimensions::TryCopy;
use std::alloc::{AllocError, Global};
use swarm_model::{BotRow, TaskRow};
use task_rows::TaskRows;

/// The rows of these tasks, in a pool that retries so often.
pub fn load_tasks(alloc: Global, retries: u32, tasks: &[TaskRow]) -> Result<TaskRows, AllocError>
    requires { AreNumbered no_of_task 1 tasks.now }
    ensures rows { IfOk result (λ loaded. loaded.rows ≡ tasks.now) }
    ensures retries { IfOk result (λ loaded. loaded.retries ≡ retries) }
{
    let mut loaded = TaskRows::new(alloc, retries);
    for task in tasks {
        loaded.load(task.try_copy(alloc)?)?;
    }
    Ok(loaded)
}

/// The rows of these bots, of which there may be so many.
pub fn load_bots(alloc: Global, most: u32, bots: &[BotRow]) -> Result<Registry, AllocError>
    requires numbered { AreNumbered no_of_bot 1 bots.now }
    requires few { length bots.now ≤ most }
    requires named { All (λ bot. All (AreNamedApart bot) bots.now) bots.now }
    ensures rows { IfOk result (λ loaded. loaded.rows ≡ bots.now) }
    ensures most { IfOk result (λ loaded. loaded.most ≡ most) }
{
    let mut loaded = Registry::new(alloc, most);
    for bot in bots {
        loaded.load(bot.try_copy(alloc)?)?;
    }
    Ok(loaded)
}
