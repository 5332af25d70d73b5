//! The events of a bot.
ghost use Rattle.std.specs.Prelude.{◌≡◌, ℕ, IfOk, IfNone, IfSome, None, length};
ghost use Rattle.bot_core.specs.Table.{is_transient as spec_is_transient, stepped};
ghost use Rattle.bot_core.specs.declared.bot_state.BotState.{BotState};
ghost use Rattle.bot_worlds.specs.Turns.{asked_again as spec_asked_again, child_bytes as spec_child_bytes, child_event as spec_child_event, reply_event as spec_reply_event, told_run as spec_told_run};

use bot_core::BotEvent;
use bot_worlds::{ChildRun, ChildTurn};
use dimensions::{Seq, TryCopy};
use refusal_codes::RefusalCode;
use reply_bodies::code_of;
use std::alloc::{AllocError, Global};
use swarm_model::{Reply, Request};

/// The event that a reply to a bot is; none where no bot is replied so.
pub(crate) fn reply_event(reply: &Reply) -> Option<BotEvent>
    ensures { result ≡ spec_reply_event reply.now }
{
    match reply {
        Reply::Shaken { .. } => Some(BotEvent::HandshakeOk),
        Reply::Sleep { secs } => Some(BotEvent::PollSleep { secs: *secs }),
        Reply::ClaimHint => Some(BotEvent::PollClaim),
        Reply::Terminate => Some(BotEvent::PollTerminate),
        Reply::Run {
            tolerance,
            properties,
            ..
        } => Some(BotEvent::ClaimRun {
            execution: properties.execution_timeout_secs,
            io: properties.io_timeout_secs,
            grace: properties.grace_period_secs,
            tolerance: *tolerance,
        }),
        Reply::Skip => Some(BotEvent::ClaimSkip),
        Reply::Updated { must_stop } => Some(BotEvent::SendOk {
            must_stop: *must_stop,
        }),
        Reply::No(why) => Some(BotEvent::Refused {
            number: code_of(why).number(),
        }),
        Reply::New { .. }
        | Reply::Canceled { .. }
        | Reply::Result(_)
        | Reply::Stdout { .. }
        | Reply::Tasks { .. }
        | Reply::Count { .. }
        | Reply::Noted
        | Reply::Terminating
        | Reply::Bots { .. }
        | Reply::Bot(_)
        | Reply::Put { .. }
        | Reply::Blob { .. }
        | Reply::Missing { .. } => None,
    }
}

/// The run that a claim is answered with.
pub(crate) fn told_run(
    alloc: Global,
    request: &Request,
    reply: &Reply,
) -> Result<Option<ChildRun>, AllocError>
    ensures { IfOk result (λ run. run ≡ spec_told_run request.now reply.now) }
{
    let Request::Claim { claim, .. } = request else {
        return Ok(None);
    };
    let Reply::Run { task, try_no, .. } = reply else {
        return Ok(None);
    };
    Ok(Some(ChildRun {
        claim: claim.try_copy(alloc)?,
        task: *task,
        try_no: *try_no,
        started: 0,
        wrote: Seq::new(alloc),
    }))
}

/// The answer is lost, or the pool can't act now.
#[tactic(auto, unfolding(refusal_codes::specs::Codes::code_numbered))]
fn is_transient(event: &BotEvent) -> bool
    ensures { result ≡ spec_is_transient event.now }
{
    match event {
        BotEvent::Lost => true,
        BotEvent::Refused { number } => match RefusalCode::from_number(*number) {
            None => false,
            Some(code) => code.is_transient(),
        },
        _ => false,
    }
}

/// The place of the present request, where it is to be sent again after the event.
pub(crate) fn asked_again(event: &BotEvent, asking: Option<usize>) -> Option<usize>
    ensures { result ≡ spec_asked_again event.now asking }
{
    if is_transient(event) { asking } else { None }
}

/// The event that a runner's turn is. A runner's output of 2^32 bytes or more is none that a bot takes.
pub(crate) fn child_event(turn: &ChildTurn) -> Option<BotEvent>
    ensures event { IfSome result (λ e. e ≡ spec_child_event turn.now) }
    ensures too_long { IfNone result ((s : BotState) (m : ℕ) → stepped s (spec_child_event turn.now) m ≡ None) }
{
    match turn {
        ChildTurn::Prepared => Some(BotEvent::Prepared),
        ChildTurn::Started => Some(BotEvent::Started),
        ChildTurn::Output(bytes) => output_event(bytes.as_slice()),
        ChildTurn::Quiet => Some(BotEvent::Quiet),
        ChildTurn::Ended(code) => Some(BotEvent::Ended { code: *code }),
        ChildTurn::Signalled => Some(BotEvent::Signalled),
        ChildTurn::Uploaded => Some(BotEvent::Uploaded),
        ChildTurn::Cleaned => Some(BotEvent::Cleaned),
        ChildTurn::Failed => Some(BotEvent::RunnerFailed),
    }
}

fn output_event(bytes: &[u8]) -> Option<BotEvent>
    ensures event { IfSome result (λ e. e ≡ BotEvent.Output (length bytes.now)) }
    ensures too_long { IfNone result ((s : BotState) (m : ℕ) → stepped s (BotEvent.Output (length bytes.now)) m ≡ None) }
{
    match u32::try_from(bytes.len()) {
        Ok(size) => Some(BotEvent::Output { size }),
        Err(_) => None,
    }
}

/// The bytes that come with a runner's turn.
pub(crate) fn child_bytes(turn: &ChildTurn) -> &[u8]
    ensures { result.now ≡ spec_child_bytes turn.now }
{
    match turn {
        ChildTurn::Output(bytes) => bytes.as_slice(),
        _ => &[],
    }
}
