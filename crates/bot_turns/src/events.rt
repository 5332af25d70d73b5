//! The events that exchanges come to. None: there was no memory.
ghost use Rattle.std.specs.Prelude.{◌≡◌};
ghost use Rattle.bot_turns.specs.Events.{refusal_event as spec_refusal_event, exchange_event, handshake_event as spec_handshake_event, poll_event as spec_poll_event, update_event as spec_update_event};

use bot_core::BotEvent;
use refusal_codes::RefusalCode;
use server_calls::{Exchanged, Told};
use swarm_model::Reply;

/// The event of a refusal, which holds the number of its code.
pub(crate) fn refusal_event(code: RefusalCode) -> BotEvent
    ensures { result ≡ spec_refusal_event code }
{
    BotEvent::Refused {
        number: code.number(),
    }
}

fn handshake_event(reply: &Reply) -> BotEvent
    ensures { result ≡ spec_handshake_event reply.now }
{
    match reply {
        Reply::Shaken { .. } => BotEvent::HandshakeOk,
        _ => BotEvent::Lost,
    }
}

fn poll_event(reply: &Reply) -> BotEvent
    ensures { result ≡ spec_poll_event reply.now }
{
    match reply {
        Reply::Sleep { secs } => BotEvent::PollSleep { secs: *secs },
        Reply::ClaimHint => BotEvent::PollClaim,
        Reply::Terminate => BotEvent::PollTerminate,
        _ => BotEvent::Lost,
    }
}

fn update_event(reply: &Reply) -> BotEvent
    ensures { result ≡ spec_update_event reply.now }
{
    match reply {
        Reply::Updated { must_stop } => BotEvent::SendOk {
            must_stop: *must_stop,
        },
        _ => BotEvent::Lost,
    }
}

pub(crate) fn event_of_handshake(exchanged: &Exchanged) -> Option<BotEvent>
    ensures { result ≡ exchange_event spec_handshake_event exchanged.now }
{
    match exchanged {
        Exchanged::Told(Told::Good { reply, .. }) => Some(handshake_event(reply)),
        Exchanged::Told(Told::No { code, .. }) => Some(refusal_event(*code)),
        Exchanged::NoReply | Exchanged::Lost => Some(BotEvent::Lost),
        Exchanged::Memory => None,
    }
}

pub(crate) fn event_of_poll(exchanged: &Exchanged) -> Option<BotEvent>
    ensures { result ≡ exchange_event spec_poll_event exchanged.now }
{
    match exchanged {
        Exchanged::Told(Told::Good { reply, .. }) => Some(poll_event(reply)),
        Exchanged::Told(Told::No { code, .. }) => Some(refusal_event(*code)),
        Exchanged::NoReply | Exchanged::Lost => Some(BotEvent::Lost),
        Exchanged::Memory => None,
    }
}

pub(crate) fn event_of_update(exchanged: &Exchanged) -> Option<BotEvent>
    ensures { result ≡ exchange_event spec_update_event exchanged.now }
{
    match exchanged {
        Exchanged::Told(Told::Good { reply, .. }) => Some(update_event(reply)),
        Exchanged::Told(Told::No { code, .. }) => Some(refusal_event(*code)),
        Exchanged::NoReply | Exchanged::Lost => Some(BotEvent::Lost),
        Exchanged::Memory => None,
    }
}
