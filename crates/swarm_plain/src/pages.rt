//! The row that a page shows next.
ghost use Rattle.std.specs.Prelude.{◌≡◌, ◌≤◌, length, take, reverse, slice_get};
ghost use Rattle.std.specs.List.{find, filter};
ghost use Rattle.std.specs.Option.{option_copied};
ghost use Rattle.dimensions.specs.Order.{sorted_by};
ghost use Rattle.swarm_model.specs.Numbers.{AreNumbered};
ghost use Rattle.swarm_model.specs.Effects.{no_of_task};
ghost use Rattle.swarm_model.specs.Finding.{is_wanted};
ghost use Rattle.swarm_model.specs.Pages.{is_listed, is_named_before, is_after};
ghost use Rattle.swarm_plain.specs.Lowest.{lower};

use common_rows::is_wanted;
use dimensions::Text;
use swarm_model::{BotRow, TaskRow, TaskState};

/// How many of the tasks, the first ones, have numbers below the one that is given, where one is.
fn count_below(tasks: &[TaskRow], below: Option<u32>) -> usize
    requires numbered { AreNumbered no_of_task 1 tasks.now }
    ensures within { result ≤ length tasks.now }
    ensures first { (wanted : _) → filter (is_listed wanted below) tasks.now ≡ filter (is_wanted wanted) (take result tasks.now) }
{
    match below {
        None => tasks.len(),
        Some(below) => (below as usize).saturating_sub(1).min(tasks.len()),
    }
}

/// The last of the tasks in the state, or of all where none is named.
fn newest(tasks: &[TaskRow], wanted: Option<TaskState>) -> Option<&TaskRow>
    ensures { option_copied result ≡ find (is_wanted wanted) (reverse tasks.now) }
{
    tasks.iter().rev().find(|task| is_wanted(wanted, task))
}

/// The newest task in the state, or in any where none is named, below a number, where one is given.
pub(crate) fn newest_below(
    tasks: &[TaskRow],
    wanted: Option<TaskState>,
    below: Option<u32>,
) -> Option<&TaskRow>
    requires { AreNumbered no_of_task 1 tasks.now }
    ensures { option_copied result ≡ slice_get (reverse (filter (is_listed wanted below) tasks.now)) 0 }
{
    let count = count_below(tasks, below);
    newest(&tasks[..count], wanted)
}

fn is_after(name: &Text, bot: &BotRow) -> bool
    ensures { result ≡ is_after name.now bot.now }
{
    *name < bot.name
}

/// The one of two bots whose name comes first.
fn lower<'a>(lowest: Option<&'a BotRow>, bot: &'a BotRow) -> Option<&'a BotRow>
    ensures { option_copied result ≡ lower is_named_before (option_copied lowest.entry) bot.now }
{
    match lowest {
        None => Some(bot),
        Some(lowest) => {
            if lowest.name < bot.name {
                Some(lowest)
            } else {
                Some(bot)
            }
        }
    }
}

/// The bot whose name comes next after this one.
pub(crate) fn next_bot<'a>(bots: &'a [BotRow], name: &Text) -> Option<&'a BotRow>
    ensures { option_copied result ≡ slice_get (filter (is_after name.now) (sorted_by is_named_before bots.now)) 0 }
{
    let mut lowest = None;
    for bot in bots {
        if is_after(name, bot) {
            lowest = lower(lowest, bot);
        }
    }
    lowest
}
