ghost use Rattle.std.specs.Prelude.{◌≡◌, map, None, if◌then◌else◌};
ghost use Rattle.swarm_model.specs.History.{states};
ghost use Rattle.std.specs.List.{find, filter, fold, count_by, list_any};
ghost use Rattle.std.specs.Option.{option_copied};
ghost use Rattle.swarm_model.specs.Finding.{is_task, is_bot, is_called, has_state, is_wanted};
ghost use Rattle.swarm_model.specs.Slices.{waits_for, goes_before, foremost};
ghost use Rattle.swarm_model.specs.Answers.{has_claim};
ghost use Rattle.swarm_model.specs.Reuse.{is_sent};
ghost use Rattle.swarm_model.specs.Uses.{needs};
ghost use Rattle.dimensions.specs.Rules.{is_empty};

use common_rows::{count_in_state, is_wanted};
use dimensions::{BotDims, Text};
use row_changes::{has_claim, is_sent, needs, waits_for};
use swarm_model::{BotRow, TaskRow, TaskState};
use task_props::Digest;

/// How many tasks are in the state, or in any where none is named.
pub(crate) fn count_wanted(tasks: &[TaskRow], wanted: Option<TaskState>) -> u64
    ensures { result ≡ count_by (is_wanted wanted) tasks.now }
{
    tasks.iter().filter(|task| is_wanted(wanted, task)).count() as u64
}

/// How many tasks are in each state, in the order of the states.
pub(crate) fn tally(tasks: &[TaskRow]) -> [u64; 9]
    ensures { result ≡ map (λ state. count_by (has_state state) tasks.now) states }
{
    [
        count_in_state(tasks, TaskState::Pending),
        count_in_state(tasks, TaskState::Running),
        count_in_state(tasks, TaskState::Expired),
        count_in_state(tasks, TaskState::TimedOut),
        count_in_state(tasks, TaskState::BotDied),
        count_in_state(tasks, TaskState::Canceled),
        count_in_state(tasks, TaskState::Completed),
        count_in_state(tasks, TaskState::Killed),
        count_in_state(tasks, TaskState::NoResource),
    ]
}

fn is_called(name: &Text, bot: &BotRow) -> bool
    ensures { result ≡ is_called name.now bot.now }
{
    bot.name == *name
}

/// The row of the bot of this name.
pub(crate) fn bot_named<'a>(bots: &'a [BotRow], name: &Text) -> Option<&'a BotRow>
    ensures { option_copied result ≡ find (is_called name.now) bots.now }
{
    bots.iter().find(|bot| is_called(name, bot))
}

/// The task that the bot claimed under this id.
pub(crate) fn claimed<'a>(tasks: &'a [TaskRow], bot: u32, claim: &Text) -> Option<&'a TaskRow>
    ensures { option_copied result ≡ find (has_claim bot claim.now) tasks.now }
{
    tasks.iter().find(|task| has_claim(bot, claim, task))
}

/// The first task with this caller and this uuid.
fn first_sent<'a>(tasks: &'a [TaskRow], who: &Text, uuid: &Text) -> Option<&'a TaskRow>
    ensures { option_copied result ≡ find (is_sent who.now uuid.now) tasks.now }
{
    tasks.iter().find(|task| is_sent(who, uuid, task))
}

/// The task that the caller sent under this uuid.
pub(crate) fn sent<'a>(tasks: &'a [TaskRow], who: &Text, uuid: &Text) -> Option<&'a TaskRow>
    ensures { option_copied result ≡ (if is_empty uuid.now then None else find (is_sent who.now uuid.now) tasks.now) }
{
    if uuid.as_str().is_empty() {
        None
    } else {
        first_sent(tasks, who, uuid)
    }
}

fn goes_before(one: &TaskRow, other: &TaskRow) -> bool
    ensures { result ≡ goes_before one.now other.now }
{
    one.request.priority < other.request.priority
        || (one.request.priority == other.request.priority && one.no < other.no)
}

fn foremost<'a>(best: Option<&'a TaskRow>, task: &'a TaskRow) -> Option<&'a TaskRow>
    ensures { option_copied result ≡ foremost (option_copied best.entry) task.now }
{
    match best {
        None => Some(task),
        Some(best) => {
            if goes_before(task, best) {
                Some(task)
            } else {
                Some(best)
            }
        }
    }
}

/// The pending task that the bot of this number gets, with these dimensions.
pub(crate) fn first<'a>(tasks: &'a [TaskRow], bot: u32, dims: &BotDims) -> Option<&'a TaskRow>
    ensures { option_copied result ≡ fold foremost None (filter (waits_for bot dims.now) tasks.now) }
{
    let mut best = None;
    for task in tasks {
        if waits_for(bot, dims, task) {
            best = foremost(best, task);
        }
    }
    best
}

/// Whether a task needs the blob of a digest.
pub(crate) fn is_used(tasks: &[TaskRow], digest: &Digest) -> bool
    ensures { result ≡ list_any (needs digest.now) tasks.now }
{
    tasks.iter().any(|task| needs(digest, task))
}
