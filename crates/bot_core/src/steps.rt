ghost use Rattle.std.specs.Prelude.{◌≡◌, ◌+◌, ◌<◌, ◌≤◌, ◌^◌, ◌*◌, IsTrue};
ghost use Rattle.bot_core.specs.Bounds.{InBounds};
ghost use Rattle.bot_core.specs.Table.{phase_action, action_of, record_action, count_step, issue_action};

use crate::run_changes::{MOST_PENDING, end_of};
use crate::table::enter_stop;
use crate::{Action, Awaited, BotState, Phase, Run, StopWhy};

/// The action of a phase.
fn phase_action(bot: &BotState) -> Action
    ensures { result ≡ phase_action bot.now bot.now.phase }
{
    let run = &bot.run;
    match bot.phase {
        Phase::Handshake => Action::Handshake {
            first: bot.first,
            session: bot.session,
        },
        Phase::Poll => Action::Poll,
        Phase::Claim => Action::Claim {
            first: bot.first,
            session: bot.session,
            claim: bot.claim,
        },
        Phase::Prepare => Action::Prepare,
        Phase::Start => Action::Start,
        Phase::Look => Action::Look {
            room: MOST_PENDING.saturating_sub(run.pending),
        },
        Phase::Signal { signal } => Action::Signal { signal },
        Phase::Send => Action::Send {
            start: run.sent,
            size: run.pending,
            last: None,
        },
        Phase::LastSend => Action::Send {
            start: run.sent,
            size: run.pending,
            last: Some(end_of(run)),
        },
        Phase::Upload => Action::Upload,
        Phase::CleanUp => Action::CleanUp,
        Phase::Stop { why } => Action::Stop {
            why,
            tasks: bot.tasks,
        },
    }
}

/// The action that the bot is to do: that of its phase, or the sleep before it.
pub(crate) fn action_of(bot: &BotState) -> Action
    ensures { result ≡ action_of bot.now }
{
    match bot.awaited {
        Awaited::Slept { secs } => Action::Sleep { secs },
        Awaited::Begin | Awaited::Answer => phase_action(bot),
    }
}

/// A Poll counts, where its limit isn't reached, and an update keeps its moment.
fn record_action(bot: BotState, moment: u64) -> BotState
    ensures { result ≡ record_action (action_of bot) moment bot }
{
    match action_of(&bot) {
        Action::Poll if bot.polls >= bot.limits.polls => enter_stop(bot, StopWhy::Polls),
        Action::Poll => BotState {
            polls: bot.polls + 1,
            ..bot
        },
        Action::Send { .. } => {
            let run = Run {
                last_send: moment,
                ..bot.run
            };
            BotState { run, ..bot }
        }
        _ => bot,
    }
}

/// The action counts, where the limit of steps isn't reached.
fn count_step(bot: BotState) -> BotState
    ensures { result ≡ count_step bot }
{
    if bot.steps >= bot.limits.steps {
        enter_stop(bot, StopWhy::Steps)
    } else {
        BotState {
            steps: bot.steps + 1,
            ..bot
        }
    }
}

/// The bot as it answers its action at a moment: the limit of polls is looked at, then that of steps.
pub(crate) fn issue_action(bot: BotState, moment: u64) -> BotState
    ensures { result ≡ issue_action moment bot }
{
    count_step(record_action(bot, moment))
}
