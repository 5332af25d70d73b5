ghost use Rattle.std.specs.Prelude.{◌≡◌, ◌+◌, ◌<◌, ◌≤◌, ◌^◌, ◌*◌};
ghost use Rattle.bot_core.specs.Bounds.{Bounds};
ghost use Rattle.bot_core.specs.RunChanges.{has_passed, is_reached, is_grace_over};
ghost use Rattle.bot_core.specs.Table.{end_command, send_or_sleep, continue_run, after_look, signal_kill, signal_term};

use crate::run_changes::{MOST_PENDING, add_output, end_run};
use crate::table::{enter, enter_sleep};
use crate::{BotEvent, BotState, Phase, Run, Signal};

/// So many seconds have passed since a moment. At a moment before it none have.
fn has_passed(since: u64, secs: u32, moment: u64) -> bool
    ensures { result ≡ has_passed since secs moment }
{
    since
        .checked_add(secs as u64)
        .is_some_and(|end| end <= moment)
}

/// A limit that isn't 0 has been reached.
fn is_reached(since: u64, limit: u32, moment: u64) -> bool
    ensures { result ≡ is_reached since limit moment }
{
    limit != 0 && has_passed(since, limit, moment)
}

/// Term is sent at this moment.
fn signal_term(bot: BotState, run: Run, moment: u64) -> BotState
    ensures { result ≡ signal_term (λ _. run) moment bot }
{
    let run = Run {
        term: Some(moment),
        ..run
    };
    enter(
        BotState { run, ..bot },
        Phase::Signal {
            signal: Signal::Term,
        },
    )
}

/// Kill is sent.
fn signal_kill(bot: BotState) -> BotState
    ensures { result ≡ signal_kill bot }
{
    let run = Run {
        killed: true,
        ..bot.run
    };
    enter(
        BotState { run, ..bot },
        Phase::Signal {
            signal: Signal::Kill,
        },
    )
}

/// An update, where output is pending or the server waits for one; else a sleep before the next Look.
fn send_or_sleep(bot: BotState, moment: u64) -> BotState
    ensures { result ≡ send_or_sleep moment bot }
{
    let run = &bot.run;
    if !run.abandoned && (run.pending > 0 || has_passed(run.last_send, run.tolerance / 4, moment)) {
        enter(bot, Phase::Send)
    } else {
        enter_sleep(bot, 1, Phase::Look)
    }
}

/// The command runs on: the first that holds.
fn continue_run(bot: BotState, moment: u64) -> BotState
    ensures { result ≡ continue_run moment bot }
{
    let run = bot.run;
    if let Some(term) = run.term {
        if !run.killed && has_passed(term, run.grace, moment) {
            signal_kill(bot)
        } else {
            send_or_sleep(bot, moment)
        }
    } else if run.stop {
        signal_term(bot, run, moment)
    } else if is_reached(run.started, run.execution, moment) {
        let run = Run {
            hard_timeout: true,
            ..run
        };
        signal_term(bot, run, moment)
    } else if is_reached(run.last_output, run.io, moment) {
        let run = Run {
            io_timeout: true,
            ..run
        };
        signal_term(bot, run, moment)
    } else {
        send_or_sleep(bot, moment)
    }
}

/// The command has ended.
fn end_command(bot: BotState, code: i32, moment: u64) -> BotState
    ensures { result ≡ end_command code moment bot }
{
    let phase = if bot.run.abandoned {
        Phase::CleanUp
    } else {
        Phase::Upload
    };
    let run = end_run(bot.run, code, moment);
    enter(BotState { run, ..bot }, phase)
}

/// What follows a look.
pub(crate) fn after_look(bot: BotState, event: BotEvent, moment: u64) -> Option<BotState>
    requires { Bounds bot }
    ensures { result ≡ after_look bot event moment }
{
    match event {
        BotEvent::Output { size } => {
            if size < 1 || size > MOST_PENDING - bot.run.pending {
                return None;
            }
            let run = add_output(bot.run, size, moment);
            Some(continue_run(BotState { run, ..bot }, moment))
        }
        BotEvent::Quiet => Some(continue_run(bot, moment)),
        BotEvent::Ended { code } => Some(end_command(bot, code, moment)),
        BotEvent::RunnerFailed => Some(end_command(bot, -1, moment)),
        _ => None,
    }
}
