//! The run of a bot.
ghost use Rattle.std.specs.Prelude.{◌≡◌, ℕ, IfOk, OnOk, OnErr, false};
ghost use Rattle.bot_core.specs.declared.bot_event.BotEvent.{BotEvent as SpecEvent};
ghost use Rattle.bot_core.specs.Table.{action_of};
ghost use Rattle.bot_turns.specs.Ends.{EndsClean, StillTells};
ghost use Rattle.bot_turns.specs.Turns.{bot_world};
ghost use Rattle.bot_turns.specs.Runs.{TakesTurn, RunsBot, HandsFit, is_stop_action};

use crate::Stopped;
use crate::turns::bot_turn;
use bot_core::{Action, Bot, BotEvent, BotLimits};
use bot_requests::Hands;
use runners::Runner;
use std::alloc::{AllocError, Global};
use sw_base::{Clock, Dialer};

/// Carries out one action, and answers the next.
#[tactic(auto, using(crate::proofs::RunLemmas::can_act_on))]
fn take_turn<C: Clock, W: Dialer, R: Runner>(
    alloc: Global,
    hands: &mut Hands,
    clock: &mut C,
    dialer: &mut W,
    runner: &mut R,
    bot: &mut Bot,
    action: &Action,
) -> Result<Action, AllocError>
    requires ready { HandsFit bot.old hands.old }
    requires action { action.now ≡ action_of bot.old }
    requires going { is_stop_action action.now ≡ false }
    ensures turn { OnOk result ((e : SpecEvent) × (m : ℕ) × TakesTurn bot.old (bot_world hands.old (W.state dialer.old) (R.state runner.old) (C.ahead clock.old) (C.waited clock.old)) e m bot.new (bot_world hands.new (W.state dialer.new) (R.state runner.new) (C.ahead clock.new) (C.waited clock.new))) }
    ensures ready { OnOk result (HandsFit bot.new hands.new) }
    ensures action { IfOk result (λ next. next ≡ action_of bot.new) }
    ensures tells { StillTells (R.state runner.old) (R.state runner.new) }
{
    let event = bot_turn(alloc, hands, clock, dialer, runner, action)?;
    let moment = clock.now();
    Ok(bot.step(event, moment))
}

/// Lets a bot act until it stops.
#[tactic(auto, using(crate::proofs::RunLemmas::fewer_steps_left))]
fn take_turns<C: Clock, W: Dialer, R: Runner>(
    alloc: Global,
    hands: &mut Hands,
    clock: &mut C,
    dialer: &mut W,
    runner: &mut R,
    limits: BotLimits,
) -> Result<Stopped, AllocError>
    ensures runs { IfOk result (λ stopped. RunsBot limits (bot_world hands.old (W.state dialer.old) (R.state runner.old) (C.ahead clock.old) (C.waited clock.old)) (bot_world hands.new (W.state dialer.new) (R.state runner.new) (C.ahead clock.new) (C.waited clock.new)) stopped) }
    ensures tells { StillTells (R.state runner.old) (R.state runner.new) }
{
    let mut bot = Bot::new(limits);
    let moment = clock.now();
    let mut action = bot.step(BotEvent::Begin, moment);
    loop {
        if let Action::Stop { why, tasks } = action {
            return Ok(Stopped { why, tasks });
        }
        action = take_turn(alloc, hands, clock, dialer, runner, &mut bot, &action)?;
    }
}

/// Lets a bot act until it stops. The hands hold no run yet, or one that has been cleaned up.
///
/// # Errors
///
/// Only want of memory. The runner has been told to clean then, so that no command runs on, as far as
/// there was memory for that; the hands are as the last turn left them.
pub fn run_bot<C: Clock, W: Dialer, R: Runner>(
    alloc: Global,
    hands: &mut Hands,
    clock: &mut C,
    dialer: &mut W,
    runner: &mut R,
    limits: BotLimits,
) -> Result<Stopped, AllocError>
    ensures runs { IfOk result (λ stopped. RunsBot limits (bot_world hands.old (W.state dialer.old) (R.state runner.old) (C.ahead clock.old) (C.waited clock.old)) (bot_world hands.new (W.state dialer.new) (R.state runner.new) (C.ahead clock.new) (C.waited clock.new)) stopped) }
    ensures cleans { OnErr result (EndsClean (R.state runner.old) (R.state runner.new)) }
{
    match take_turns(alloc, hands, clock, dialer, runner, limits) {
        Ok(stopped) => Ok(stopped),
        Err(error) => {
            // Nothing more can be done where this fails too.
            let _cleaned = runner.clean(&[]);
            Err(error)
        }
    }
}
