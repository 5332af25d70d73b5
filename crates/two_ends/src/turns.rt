//! The turns of a world, one function each.
ghost use Rattle.std.specs.Prelude.{◌≡◌, ◌≤◌, IfSome, OnOk, OnErr};
ghost use Rattle.bot_core.specs.Table.{action_of};
ghost use Rattle.swarm_model.specs.History.{IsLegal};
ghost use Rattle.pool_loading.specs.Records.{AreFilled};
ghost use Rattle.bot_worlds.specs.Turns.{AsksAsOther, Delivers, IsSettledFrom, Turned};
ghost use Rattle.bot_worlds.specs.World.{newest};
ghost use Rattle.two_ends.specs.Ends.{world_of};

use crate::asking::{ask, is_of_bot, may_ask};
use crate::bot_end::BotEnd;
use bot_worlds::{Got, Turn};
use dimensions::Text;
use std::alloc::{AllocError, Global};
use swarm_model::{Machine, Request};

/// A request that the bot sent comes to the pool.
fn deliver<M: Machine>(
    alloc: Global,
    machine: &mut M,
    end: &mut BotEnd,
    place: u32,
    moment: u64,
) -> Result<(), AllocError>
    requires filled { AreFilled (M.kept machine.old) }
    requires action { end.old.action ≡ action_of end.old.bot }
    requires legal { IsLegal (M.kept machine.old).start.rows (M.kept machine.old).log }
    ensures filled { AreFilled (M.kept machine.new) }
    ensures action { end.new.action ≡ action_of end.new.bot }
    ensures turned { OnOk result (Delivers (world_of (M.kept machine.old) end.old) place moment (world_of (M.kept machine.new) end.new)) }
    ensures part { OnErr result (IsSettledFrom (world_of (M.kept machine.old) end.old) (world_of (M.kept machine.new) end.new)) }
{
    let Some(sent) = end.sent.get(place as usize) else {
        return Ok(());
    };
    if !may_ask(machine, &sent.request, sent.bytes.as_slice()) {
        return Ok(());
    }
    end.got.reserve(1)?;
    let bytes = sent.bytes.as_slice();
    let reply = ask(alloc, machine, moment, &end.name, &sent.request, bytes)?;
    end.got.push_reserved(Got { sent: place, reply });
    Ok(())
}

/// A request of another caller comes to the pool. Its reply is not kept.
fn ask_as_other<M: Machine>(
    alloc: Global,
    machine: &mut M,
    end: &BotEnd,
    who: &Text,
    request: &Request,
    bytes: &[u8],
    moment: u64,
) -> Result<(), AllocError>
    requires filled { AreFilled (M.kept machine.old) }
    requires legal { IsLegal (M.kept machine.old).start.rows (M.kept machine.old).log }
    ensures filled { AreFilled (M.kept machine.new) }
    ensures turned { OnOk result (AsksAsOther (world_of (M.kept machine.old) end.now) who.now request.now bytes.now moment (world_of (M.kept machine.new) end.now)) }
    ensures part { OnErr result (IsSettledFrom (world_of (M.kept machine.old) end.now) (world_of (M.kept machine.new) end.now)) }
{
    if !may_ask(machine, request, bytes) || is_of_bot(&end.name, request) {
        return Ok(());
    }
    ask(alloc, machine, moment, who, request, bytes)?;
    Ok(())
}

/// Does one turn.
///
/// # Errors
///
/// Only want of memory. Then at most deadlines that had come were settled.
pub(crate) fn take_turn<M: Machine>(
    alloc: Global,
    machine: &mut M,
    end: &mut BotEnd,
    turn: &Turn,
) -> Result<(), AllocError>
    requires filled { AreFilled (M.kept machine.old) }
    requires action { end.old.action ≡ action_of end.old.bot }
    requires once { IfSome (newest end.old.runs.items) (λ run. run.started ≤ 1) }
    requires legal { IsLegal (M.kept machine.old).start.rows (M.kept machine.old).log }
    ensures filled { AreFilled (M.kept machine.new) }
    ensures action { end.new.action ≡ action_of end.new.bot }
    ensures turned { OnOk result (Turned (world_of (M.kept machine.old) end.old) turn.now (world_of (M.kept machine.new) end.new)) }
    ensures part { OnErr result (IsSettledFrom (world_of (M.kept machine.old) end.old) (world_of (M.kept machine.new) end.new)) }
{
    match turn {
        Turn::Deliver { sent, moment } => deliver(alloc, machine, end, *sent, *moment),
        Turn::Answer { got, moment } => end.take_reply(alloc, *got, *moment),
        Turn::Lose { moment } => end.lose(alloc, *moment),
        Turn::Wake { moment } => end.wake(alloc, *moment),
        Turn::Child { turn, moment } => end.hear_child(alloc, turn, *moment),
        Turn::Other {
            who,
            request,
            bytes,
            moment,
        } => ask_as_other(alloc, machine, end, who, request, bytes.as_slice(), *moment),
    }
}
