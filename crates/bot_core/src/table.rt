ghost use Rattle.std.specs.Prelude.{◌≡◌, ◌+◌, ◌<◌, ◌≤◌, ◌^◌, ◌*◌, IsTrue};
ghost use Rattle.bot_core.specs.Bounds.{Bounds, InBounds};
ghost use Rattle.bot_core.specs.Table.{enter, enter_stop, enter_sleep, next_session, next_claim, is_transient, needs_new_session, abandons_run, sends_request, is_stop, after_handshake, after_poll, after_claim, fail_start, after_prepare, after_start, after_signal, after_send, after_upload, after_refused_end, after_last_send, end_task, after_clean_up, after_answer, after_begin, after_sleep, next_state, opening};

use crate::looks::after_look;
use crate::run_changes::{abandon_run, apply_refusal, count_sent, drop_output, new_run, start_run};
use crate::{Awaited, BotEvent, BotLimits, BotState, Phase, Run, StopWhy};
use refusal_codes::RefusalCode;

/// The bot at a phase, whose action is done next.
pub(crate) fn enter(bot: BotState, phase: Phase) -> BotState
    ensures { result ≡ enter phase bot }
{
    BotState {
        phase,
        awaited: Awaited::Answer,
        ..bot
    }
}

/// The bot stops.
pub(crate) fn enter_stop(bot: BotState, why: StopWhy) -> BotState
    ensures { result ≡ enter_stop why bot }
{
    enter(bot, Phase::Stop { why })
}

/// The bot sleeps, and does the action of the phase then.
pub(crate) fn enter_sleep(bot: BotState, secs: u64, phase: Phase) -> BotState
    ensures { result ≡ enter_sleep secs phase bot }
{
    BotState {
        phase,
        awaited: Awaited::Slept { secs },
        ..bot
    }
}

/// A Handshake with the next session.
fn next_session(bot: BotState) -> BotState
    requires { bot.session + 1 < 2 ^ 64 }
    ensures { result ≡ next_session bot }
{
    let next = BotState {
        session: bot.session + 1,
        claim: 0,
        ..bot
    };
    enter(next, Phase::Handshake)
}

/// A Claim with the next id.
fn next_claim(bot: BotState) -> BotState
    requires { bot.claim + 1 < 2 ^ 64 }
    ensures { result ≡ next_claim bot }
{
    let next = BotState {
        claim: bot.claim + 1,
        ..bot
    };
    enter(next, Phase::Claim)
}

/// The answer is lost, or the pool can't act on the request now.
fn is_transient(event: BotEvent) -> bool
    ensures { result ≡ is_transient event }
{
    match event {
        BotEvent::Lost => true,
        BotEvent::Refused { number } => match RefusalCode::from_number(number) {
            Some(code) => code.is_transient(),
            None => false,
        },
        _ => false,
    }
}

/// Phases whose action sends requests.
fn sends_request(phase: Phase) -> bool
    ensures { result ≡ sends_request phase }
{
    match phase {
        Phase::Handshake
        | Phase::Poll
        | Phase::Claim
        | Phase::Prepare
        | Phase::Send
        | Phase::LastSend
        | Phase::Upload => true,
        _ => false,
    }
}

fn is_stop(phase: Phase) -> bool
    ensures { result ≡ is_stop phase }
{
    matches!(phase, Phase::Stop { .. })
}

fn after_handshake(bot: BotState, event: BotEvent) -> Option<BotState>
    ensures { result ≡ after_handshake bot event }
{
    match event {
        BotEvent::HandshakeOk => Some(enter(bot, Phase::Poll)),
        BotEvent::Refused { .. } => Some(enter_stop(bot, StopWhy::Refused)),
        _ => None,
    }
}

fn after_poll(bot: BotState, event: BotEvent) -> Option<BotState>
    requires { Bounds bot }
    ensures { result ≡ after_poll bot event }
{
    match event {
        BotEvent::PollSleep { secs } => Some(enter_sleep(bot, secs, Phase::Poll)),
        BotEvent::PollClaim => Some(next_claim(bot)),
        BotEvent::PollTerminate => Some(enter_stop(bot, StopWhy::Terminated)),
        BotEvent::Refused { number } => match RefusalCode::from_number(number) {
            Some(RefusalCode::NoBot | RefusalCode::BotUnfit) => Some(next_session(bot)),
            _ => Some(enter_stop(bot, StopWhy::Refused)),
        },
        _ => None,
    }
}

fn after_claim(bot: BotState, event: BotEvent) -> Option<BotState>
    requires { Bounds bot }
    ensures { result ≡ after_claim bot event }
{
    match event {
        BotEvent::ClaimRun {
            execution,
            io,
            grace,
            tolerance,
        } => {
            let run = new_run(execution, io, grace, tolerance);
            Some(enter(BotState { run, ..bot }, Phase::Prepare))
        }
        BotEvent::ClaimSkip => Some(enter(bot, Phase::Poll)),
        BotEvent::Refused { number } => match RefusalCode::from_number(number) {
            Some(RefusalCode::NoBot | RefusalCode::BotUnfit) => Some(next_session(bot)),
            Some(RefusalCode::ClaimOver) => Some(enter(bot, Phase::Poll)),
            _ => Some(enter_stop(bot, StopWhy::Refused)),
        },
        _ => None,
    }
}

/// Nothing was started: the end is reported at once.
fn fail_start(bot: BotState) -> BotState
    ensures { result ≡ fail_start bot }
{
    let run = Run {
        exit_code: -1,
        duration_ms: 0,
        ..bot.run
    };
    enter(BotState { run, ..bot }, Phase::LastSend)
}

fn after_prepare(bot: BotState, event: BotEvent) -> Option<BotState>
    ensures { result ≡ after_prepare bot event }
{
    match event {
        BotEvent::Prepared => Some(enter(bot, Phase::Start)),
        BotEvent::RunnerFailed => Some(fail_start(bot)),
        _ => None,
    }
}

fn after_start(bot: BotState, event: BotEvent, moment: u64) -> Option<BotState>
    ensures { result ≡ after_start bot event moment }
{
    match event {
        BotEvent::Started => {
            let run = start_run(bot.run, moment);
            Some(enter(BotState { run, ..bot }, Phase::Look))
        }
        BotEvent::RunnerFailed => Some(fail_start(bot)),
        _ => None,
    }
}

fn after_signal(bot: BotState, event: BotEvent) -> Option<BotState>
    ensures { result ≡ after_signal bot event }
{
    match event {
        BotEvent::Signalled | BotEvent::RunnerFailed => Some(enter(bot, Phase::Look)),
        _ => None,
    }
}

fn after_send(bot: BotState, event: BotEvent) -> Option<BotState>
    requires { Bounds bot }
    ensures { result ≡ after_send bot event }
{
    let run = match event {
        BotEvent::SendOk { must_stop } => count_sent(bot.run, must_stop),
        BotEvent::Refused { number } => apply_refusal(bot.run, RefusalCode::from_number(number)),
        _ => return None,
    };
    Some(enter(BotState { run, ..bot }, Phase::Look))
}

fn after_upload(bot: BotState, event: BotEvent) -> Option<BotState>
    ensures { result ≡ after_upload bot event }
{
    match event {
        BotEvent::Uploaded => Some(enter(bot, Phase::LastSend)),
        BotEvent::Refused { number } => match RefusalCode::from_number(number) {
            Some(RefusalCode::StoreFull) => Some(enter(bot, Phase::LastSend)),
            _ => Some(enter_stop(bot, StopWhy::Refused)),
        },
        _ => None,
    }
}

/// The last update was refused.
fn after_refused_end(bot: BotState, code: Option<RefusalCode>) -> BotState
    requires { Bounds bot }
    ensures { result ≡ after_refused_end bot code }
{
    match code {
        Some(RefusalCode::StoreFull) => {
            let run = drop_output(bot.run);
            enter(BotState { run, ..bot }, Phase::LastSend)
        }
        Some(
            RefusalCode::NoTask
            | RefusalCode::NoBot
            | RefusalCode::NotClaimant
            | RefusalCode::AttemptOver,
        ) => {
            let run = abandon_run(bot.run);
            enter(BotState { run, ..bot }, Phase::CleanUp)
        }
        _ => enter_stop(bot, StopWhy::Refused),
    }
}

fn after_last_send(bot: BotState, event: BotEvent) -> Option<BotState>
    requires { Bounds bot }
    ensures { result ≡ after_last_send bot event }
{
    match event {
        BotEvent::SendOk { .. } => Some(enter(bot, Phase::CleanUp)),
        BotEvent::Refused { number } => {
            Some(after_refused_end(bot, RefusalCode::from_number(number)))
        }
        _ => None,
    }
}

/// The run is over, and counts as a task.
fn end_task(bot: BotState) -> BotState
    requires { Bounds bot }
    ensures { result ≡ end_task bot }
{
    let done = BotState {
        tasks: bot.tasks + 1,
        ..bot
    };
    if done.run.refused {
        enter_stop(done, StopWhy::Refused)
    } else if done.tasks >= done.limits.tasks {
        enter_stop(done, StopWhy::Tasks)
    } else if done.run.abandoned {
        next_session(done)
    } else {
        enter(done, Phase::Poll)
    }
}

fn after_clean_up(bot: BotState, event: BotEvent) -> Option<BotState>
    requires { Bounds bot }
    ensures { result ≡ after_clean_up bot event }
{
    match event {
        BotEvent::Cleaned | BotEvent::RunnerFailed => Some(end_task(bot)),
        _ => None,
    }
}

/// What follows what came of the action of the phase.
fn after_answer(bot: BotState, event: BotEvent, moment: u64) -> Option<BotState>
    requires { Bounds bot }
    ensures { result ≡ after_answer bot bot.phase event moment }
{
    match bot.phase {
        Phase::Handshake => after_handshake(bot, event),
        Phase::Poll => after_poll(bot, event),
        Phase::Claim => after_claim(bot, event),
        Phase::Prepare => after_prepare(bot, event),
        Phase::Start => after_start(bot, event, moment),
        Phase::Look => after_look(bot, event, moment),
        Phase::Signal { .. } => after_signal(bot, event),
        Phase::Send => after_send(bot, event),
        Phase::LastSend => after_last_send(bot, event),
        Phase::Upload => after_upload(bot, event),
        Phase::CleanUp => after_clean_up(bot, event),
        Phase::Stop { .. } => None,
    }
}

/// The first session, named by the moment.
fn after_begin(bot: BotState, event: BotEvent, moment: u64) -> Option<BotState>
    requires { Bounds bot }
    ensures { result ≡ after_begin bot event moment }
{
    match event {
        BotEvent::Begin => Some(next_session(BotState {
            first: moment,
            ..bot
        })),
        _ => None,
    }
}

/// The action before which the bot slept.
fn after_sleep(bot: BotState, event: BotEvent) -> Option<BotState>
    ensures { result ≡ after_sleep bot event }
{
    match event {
        BotEvent::Slept => Some(enter(bot, bot.phase)),
        _ => None,
    }
}

/// What the bot keeps after the event, before its limits are looked at; None where the event can't
/// come.
pub(crate) fn next_state(bot: BotState, event: BotEvent, moment: u64) -> Option<BotState>
    requires { InBounds bot }
    ensures { result ≡ next_state bot event moment }
{
    if is_stop(bot.phase) {
        return None;
    }
    match bot.awaited {
        Awaited::Begin => after_begin(bot, event, moment),
        Awaited::Slept { .. } => after_sleep(bot, event),
        Awaited::Answer => {
            if sends_request(bot.phase) && is_transient(event) {
                Some(enter_sleep(bot, 5, bot.phase))
            } else {
                after_answer(bot, event, moment)
            }
        }
    }
}

/// What a bot keeps before its begin.
pub(crate) fn new_bot(limits: BotLimits) -> BotState
    ensures { result ≡ opening limits }
{
    BotState {
        limits,
        first: 0,
        session: 0,
        claim: 0,
        polls: 0,
        tasks: 0,
        steps: 0,
        phase: Phase::Handshake,
        awaited: Awaited::Begin,
        run: new_run(0, 0, 0, 0),
    }
}
