//! Handshake, Poll and Send: one request each, and its event.
ghost use Rattle.std.specs.Prelude.{◌≡◌, ◌≤◌, IfOk, IsSome, length};
ghost use Rattle.bot_turns.specs.ServerTurns.{IsHandshakeTurn, IsPollTurn, IsSendTurn};

use crate::events::{event_of_handshake, event_of_poll, event_of_update};
use bot_core::{BotEvent, End};
use bot_requests::{Hands, handshake_request, poll_request, update_request};
use routes::Route;
use server_calls::exchange;
use std::alloc::{AllocError, Global};
use sw_base::Dialer;

pub(crate) fn send_handshake<W: Dialer>(
    alloc: Global,
    hands: &Hands,
    dialer: &mut W,
    first: u64,
    session: u64,
) -> Result<BotEvent, AllocError>
    ensures { IfOk result (λ e. IsHandshakeTurn first session hands.now e (W.state dialer.old) (W.state dialer.new)) }
{
    let caches = hands.caches.names()?;
    let request = handshake_request(alloc, hands, &caches, first, session)?;
    let address = hands.address.as_str();
    let exchanged = exchange(alloc, dialer, address, request.as_slice(), Route::Handshake);
    event_of_handshake(&exchanged).ok_or(AllocError)
}

pub(crate) fn send_poll<W: Dialer>(
    alloc: Global,
    hands: &Hands,
    dialer: &mut W,
) -> Result<BotEvent, AllocError>
    ensures { IfOk result (λ e. IsPollTurn hands.now e (W.state dialer.old) (W.state dialer.new)) }
{
    let caches = hands.caches.names()?;
    let request = poll_request(alloc, hands, &caches)?;
    let address = hands.address.as_str();
    let exchanged = exchange(alloc, dialer, address, request.as_slice(), Route::Poll);
    event_of_poll(&exchanged).ok_or(AllocError)
}

pub(crate) fn send_report<W: Dialer>(
    alloc: Global,
    hands: &Hands,
    dialer: &mut W,
    start: u32,
    size: u32,
    last: &Option<End>,
) -> Result<BotEvent, AllocError>
    requires run { IsSome hands.now.run }
    requires size { size ≤ length hands.now.pending.items }
    ensures { IfOk result (λ e. IsSendTurn start size last.now hands.now e (W.state dialer.old) (W.state dialer.new)) }
{
    let Some((run, _)) = &hands.run else {
        unreachable!()
    };
    let request = update_request(alloc, hands, run, start, size, last)?;
    let address = hands.address.as_str();
    let exchanged = exchange(
        alloc,
        dialer,
        address,
        request.as_slice(),
        Route::TaskUpdate,
    );
    event_of_update(&exchanged).ok_or(AllocError)
}
