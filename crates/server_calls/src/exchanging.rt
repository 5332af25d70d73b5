//! One exchange over a link that is dialed for it.
ghost use Rattle.server_calls.specs.Exchanges.{ExchangesOver, IsExchanged};

use crate::{Exchanged, read_reply};
use link_writer::send_flushed;
use reply_reader::{Received, receive_reply};
use routes::Route;
use std::alloc::Global;
use sw_base::{Dialer, Link, StartFault};

/// Writes the request and reads the reply.
fn exchange_over<L: Link>(alloc: Global, link: &mut L, request: &[u8], route: Route) -> Exchanged
    ensures { ExchangesOver route (L.state link.old) (L.state link.new) request.now result }
{
    if send_flushed(link, request).is_err() {
        return Exchanged::Lost;
    }
    match receive_reply(alloc, link) {
        Ok(Received::Reply { code, body }) => match read_reply(alloc, route, code, &body) {
            Ok(Some(told)) => Exchanged::Told(told),
            Ok(None) => Exchanged::NoReply,
            Err(_) => Exchanged::Memory,
        },
        Ok(Received::NoReply) => Exchanged::NoReply,
        Ok(Received::Memory) => Exchanged::Memory,
        Err(_) => Exchanged::Lost,
    }
}

/// Dials, writes the request, reads one reply, and ends the link. The request is one of the call of
/// the route.
pub fn exchange<W: Dialer>(
    alloc: Global,
    dialer: &mut W,
    address: &str,
    request: &[u8],
    route: Route,
) -> Exchanged
    ensures { IsExchanged (W.state dialer.old) (W.state dialer.new) address.now request.now route result }
{
    match dialer.dial(address) {
        Ok(mut link) => {
            let exchanged = exchange_over(alloc, &mut link, request, route);
            dialer.end(link);
            exchanged
        }
        Err(StartFault::Memory) => Exchanged::Memory,
        Err(StartFault::Failed) => Exchanged::Lost,
    }
}
