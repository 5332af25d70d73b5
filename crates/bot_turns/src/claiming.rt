//! Claim: the request, and what the hands take of its reply.
ghost use Rattle.std.specs.Prelude.{◌≡◌, IfOk};
ghost use Rattle.json_fields.specs.Ids.{run_id as spec_run_id};
ghost use Rattle.bot_turns.specs.ServerTurns.{IsClaimTurn, TakesClaim};

use crate::events::refusal_event;
use bot_core::BotEvent;
use bot_requests::{Hands, claim_request};
use dimensions::{Seq, Text};
use routes::Route;
use server_calls::{Exchanged, Told, exchange};
use std::alloc::{AllocError, Global};
use sw_base::Dialer;
use swarm_model::Reply;

#[tactic(auto, unfolding(json_fields::specs::Ids::run_id))]
fn run_id(alloc: Global, place: u32, task: u32, try_no: u32) -> Result<Text, AllocError>
    ensures { IfOk result (λ id. id ≡ spec_run_id place (task, try_no)) }
{
    let number = u64::from(place) * 262_144 + u64::from(task);
    Ok(Text::from_string(format!(in alloc; "{number:x}{try_no:x}")?))
}

/// The run that the pool gives goes into the hands.
fn take_claim(
    alloc: Global,
    hands: &mut Hands,
    exchanged: Exchanged,
) -> Result<BotEvent, AllocError>
    ensures { IfOk result (λ e. TakesClaim exchanged e hands.old hands.new) }
{
    match exchanged {
        Exchanged::Told(Told::Good { place, reply, .. }) => match reply {
            Reply::Run {
                task,
                try_no,
                tolerance,
                properties,
                ..
            } => {
                let event = BotEvent::ClaimRun {
                    execution: properties.execution_timeout_secs,
                    io: properties.io_timeout_secs,
                    grace: properties.grace_period_secs,
                    tolerance,
                };
                hands.run = Some((run_id(alloc, place, task, try_no)?, properties));
                hands.files = Seq::new(alloc);
                Ok(event)
            }
            Reply::Skip => Ok(BotEvent::ClaimSkip),
            _ => Ok(BotEvent::Lost),
        },
        Exchanged::Told(Told::No { code, .. }) => Ok(refusal_event(code)),
        Exchanged::NoReply | Exchanged::Lost => Ok(BotEvent::Lost),
        Exchanged::Memory => Err(AllocError),
    }
}

pub(crate) fn send_claim<W: Dialer>(
    alloc: Global,
    hands: &mut Hands,
    dialer: &mut W,
    first: u64,
    session: u64,
    claim: u64,
) -> Result<BotEvent, AllocError>
    ensures { IfOk result (λ e. IsClaimTurn first session claim hands.old e (W.state dialer.old) (W.state dialer.new) hands.new) }
{
    let request = claim_request(alloc, hands, first, session, claim)?;
    let address = hands.address.as_str();
    let exchanged = exchange(alloc, dialer, address, request.as_slice(), Route::Claim);
    take_claim(alloc, hands, exchanged)
}
