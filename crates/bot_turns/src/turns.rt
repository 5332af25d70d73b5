//! One turn of a bot.
ghost use Rattle.std.specs.Prelude.{◌≡◌, IfOk, true};
ghost use Rattle.bot_turns.specs.Ends.{StillTells};
ghost use Rattle.bot_turns.specs.Events.{is_event_of};
ghost use Rattle.bot_turns.specs.Turns.{bot_world, CanAct, IsTurnOf};

use crate::caches::clean_up;
use crate::child::{look_at_child, signal_child, start_child};
use crate::claiming::send_claim;
use crate::inputs::prepare_run;
use crate::outputs::upload_outputs;
use crate::requests::{send_handshake, send_poll, send_report};
use bot_core::{Action, BotEvent};
use bot_requests::Hands;
use runners::Runner;
use std::alloc::{AllocError, Global};
use sw_base::{Clock, Dialer};

/// Carries out one action of a bot, and answers its event. An action that is carried out again after
/// `Lost` sends the same bytes.
///
/// # Errors
///
/// Only want of memory. It may come after any part of the action, so nothing is said of the hands then,
/// nor of what was asked or called.
pub fn bot_turn<C: Clock, W: Dialer, R: Runner>(
    alloc: Global,
    hands: &mut Hands,
    clock: &mut C,
    dialer: &mut W,
    runner: &mut R,
    action: &Action,
) -> Result<BotEvent, AllocError>
    requires { CanAct action.now hands.old }
    ensures turn { IfOk result (λ e. IsTurnOf action.now e (bot_world hands.old (W.state dialer.old) (R.state runner.old) (C.ahead clock.old) (C.waited clock.old)) (bot_world hands.new (W.state dialer.new) (R.state runner.new) (C.ahead clock.new) (C.waited clock.new))) }
    ensures event { IfOk result (λ e. is_event_of action.now e ≡ true) }
    ensures tells { StillTells (R.state runner.old) (R.state runner.new) }
{
    match action {
        Action::Handshake { first, session } => {
            send_handshake(alloc, hands, dialer, *first, *session)
        }
        Action::Poll => send_poll(alloc, hands, dialer),
        Action::Claim {
            first,
            session,
            claim,
        } => send_claim(alloc, hands, dialer, *first, *session, *claim),
        Action::Prepare => prepare_run(alloc, hands, dialer, runner),
        Action::Start => start_child(hands, runner),
        Action::Look { room } => look_at_child(&mut hands.pending, runner, *room),
        Action::Sleep { secs } => {
            clock.wait(*secs);
            Ok(BotEvent::Slept)
        }
        Action::Signal { signal } => Ok(signal_child(runner, *signal)),
        Action::Send { start, size, last } => {
            send_report(alloc, hands, dialer, *start, *size, last)
        }
        Action::Upload => upload_outputs(alloc, hands, dialer, runner),
        Action::CleanUp => clean_up(alloc, hands, runner),
        Action::Stop { .. } => unreachable!(),
    }
}
