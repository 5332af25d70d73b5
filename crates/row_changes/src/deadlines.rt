//! The deadlines of rows.
ghost use Rattle.std.specs.Prelude.{◌≡◌, IfSome};
ghost use Rattle.std.specs.Option.{option_copied, option_map};
ghost use Rattle.swarm_model.specs.Deadlines.{slice_limit, slice_end, silence_limit, blob_end};
ghost use Rattle.row_changes.specs.Rows.{IsEarly, IsHeard};
ghost use Rattle.row_changes.specs.Bots.{death_of, silence_of};

use swarm_model::{BlobRow, BotRow, Cause, Deadline, TaskRow, TaskState};
use task_props::Slice;

fn slice_limit(task: &TaskRow, slice: &Slice) -> Deadline
    requires { IsEarly task.now }
    ensures { result ≡ slice_limit task.now slice.now }
{
    Deadline {
        moment: task.since + u64::from(slice.expiration_secs),
        cause: Cause::Slice,
        number: task.no,
    }
}

fn limit_of(task: &TaskRow, slice: Option<&Slice>) -> Option<Deadline>
    requires { IsEarly task.now }
    ensures { result ≡ option_map (slice_limit task.now) (option_copied slice.entry) }
{
    match slice {
        None => None,
        Some(slice) => Some(slice_limit(task, slice)),
    }
}

/// When the slice of a task that waits expires.
pub fn slice_end(task: &TaskRow) -> Option<Deadline>
    requires { IsEarly task.now }
    ensures { result ≡ slice_end task.now }
{
    if task.has_state(TaskState::Pending) {
        limit_of(task, task.current_slice())
    } else {
        None
    }
}

/// When the bot that runs a task has been silent for longer than the task tolerates.
fn silence_limit(task: &TaskRow, bot: &BotRow) -> Deadline
    requires { IsHeard bot.now }
    ensures { result ≡ silence_limit task.now bot.now }
{
    Deadline {
        moment: bot.contact + u64::from(task.request.bot_ping_tolerance_secs),
        cause: Cause::Silence,
        number: task.no,
    }
}

/// When a task that runs loses its run, since its bot, which is given, keeps silent.
pub fn silence_of(task: &TaskRow, runner: Option<&BotRow>) -> Option<Deadline>
    requires { IfSome (option_copied runner) IsHeard }
    ensures { result ≡ silence_of task.now (option_copied runner.entry) }
{
    if !task.has_state(TaskState::Running) {
        return None;
    }
    match runner {
        Some(bot) => Some(silence_limit(task, bot)),
        None => None,
    }
}

/// When a bot that isn't dead counts as dead, if it stays silent for so many seconds.
pub fn death_of(timeout: u32, bot: &BotRow) -> Option<Deadline>
    requires { IsHeard bot.now }
    ensures { result ≡ death_of timeout bot.now }
{
    if bot.dead {
        return None;
    }
    Some(Deadline {
        moment: bot.contact + u64::from(timeout),
        cause: Cause::Bot,
        number: bot.no,
    })
}

/// When a blob's life ends.
pub fn blob_end(blob: &BlobRow) -> Deadline
    ensures { result ≡ blob_end blob.now }
{
    Deadline {
        moment: blob.deadline,
        cause: Cause::Blob,
        number: blob.no,
    }
}
