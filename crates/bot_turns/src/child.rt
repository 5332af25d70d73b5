//! Start, Look and Signal: the calls on the child of a run.
ghost use Rattle.std.specs.Prelude.{◌≤◌, IfOk, IsSome};
ghost use Rattle.bot_turns.specs.ChildTurns.{IsStartTurn, IsLookTurn, IsSignalTurn};
ghost use Rattle.bot_turns.specs.Ends.{StillTells};

use bot_core::{BotEvent, Signal};
use bot_requests::Hands;
use runners::{Look, Runner};
use std::alloc::AllocError;
use sw_base::StartFault;

/// How many bytes may be pending.
const MOST_PENDING: u32 = 16_384;

#[tactic(auto, using(crate::proofs::TellLemmas::performs_tells))]
pub(crate) fn start_child<R: Runner>(hands: &Hands, runner: &mut R) -> Result<BotEvent, AllocError>
    requires { IsSome hands.now.run }
    ensures turn { IfOk result (λ e. IsStartTurn hands.now e (R.state runner.old) (R.state runner.new)) }
    ensures tells { StillTells (R.state runner.old) (R.state runner.new) }
{
    let Some((_, properties)) = &hands.run else {
        unreachable!()
    };
    match runner.start(properties.command.as_slice(), properties.env.as_slice()) {
        Ok(()) => Ok(BotEvent::Started),
        Err(StartFault::Failed) => Ok(BotEvent::RunnerFailed),
        Err(StartFault::Memory) => Err(AllocError),
    }
}

#[tactic(auto, using(crate::proofs::TellLemmas::looks_tells))]
pub(crate) fn look_at_child<R: Runner>(
    pending: &mut Vec<u8>,
    runner: &mut R,
    room: u32,
) -> Result<BotEvent, AllocError>
    requires { room ≤ 16384 }
    ensures turn { IfOk result (λ e. IsLookTurn room e pending.old.items pending.new.items (R.state runner.old) (R.state runner.new)) }
    ensures tells { StillTells (R.state runner.old) (R.state runner.new) }
{
    pending.truncate((MOST_PENDING - room) as usize);
    let mut buffer = [0u8; 16_384];
    let into = &mut buffer[..room as usize];
    match runner.look(into) {
        Ok(Look::Output(n)) => {
            pending.extend_from_slice(&into[..n])?;
            Ok(BotEvent::Output { size: n as u32 })
        }
        Ok(Look::Quiet) => Ok(BotEvent::Quiet),
        Ok(Look::Ended(code)) => Ok(BotEvent::Ended { code }),
        Err(_) => Ok(BotEvent::RunnerFailed),
    }
}

#[tactic(auto, using(crate::proofs::TellLemmas::signals_tells))]
pub(crate) fn signal_child<R: Runner>(runner: &mut R, signal: Signal) -> BotEvent
    ensures turn { IsSignalTurn signal result (R.state runner.old) (R.state runner.new) }
    ensures tells { StillTells (R.state runner.old) (R.state runner.new) }
{
    match runner.signal(signal) {
        Ok(()) => BotEvent::Signalled,
        Err(_) => BotEvent::RunnerFailed,
    }
}
