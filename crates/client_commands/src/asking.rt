//! One exchange of a command.
ghost use Rattle.std.specs.Prelude.{ℕ};
ghost use Rattle.sw_base.specs.Link.{LinkState};
ghost use Rattle.server_calls.specs.declared.told.Told.{Told as SpecTold};
ghost use Rattle.client_commands.specs.Plans.{Plan, ask as plan_ask, once_told};
ghost use Rattle.client_commands.specs.Requests.{Call, Posts};
ghost use Rattle.client_commands.specs.Steps.{world, Aside, Asks, Carries};

use crate::post::Post;
use crate::printing::print_code;
use crate::server::Server;
use client_requests::request_text;
use dimensions::Seq;
use server_calls::{Exchanged, Told, exchange};
use std::alloc::Global;
use sw_base::{Dialer, Link};
use swarm_model::Reply;

/// A reply that is no refusal, of the pool at a place, and the bytes that come with it.
#[derive(Drop)]
pub(crate) struct Answer {
    pub place: u32,
    pub reply: Reply,
    pub bytes: Seq<u8>,
}

/// Sends a request of a call, and answers what the reply to it tells. Where there is none, it answers
/// the status of the command.
pub(crate) fn send<W: Dialer>(
    alloc: Global,
    dialer: &mut W,
    server: &Server,
    post: &Post,
) -> Result<Told, u8>
    ensures { (call : Call) → Posts call post.now → (next : SpecTold → Plan) (console : LinkState) (aside : Aside) →
        Carries server.now (plan_ask call (once_told next)) (world (W.state dialer.old) console aside) next (world (W.state dialer.new) console aside) result }
{
    let body = post.body.as_slice();
    let Ok(request) = request_text(alloc, "POST", post.path, server.host, server.caller, body)
    else {
        return Err(5);
    };
    match exchange(alloc, dialer, server.address, &request, post.route) {
        Exchanged::Told(told) => Ok(told),
        Exchanged::NoReply => Err(9),
        Exchanged::Lost => Err(4),
        Exchanged::Memory => Err(5),
    }
}

/// Sends a request of a call, and answers the reply to it. Where there is none, or a
/// refusal, it tells that, and answers the status of the command.
pub(crate) fn ask<W: Dialer, L: Link>(
    alloc: Global,
    dialer: &mut W,
    console: &mut L,
    server: &Server,
    post: &Post,
) -> Result<Answer, u8>
    ensures { (call : Call) (aside : Aside) → Posts call post.now →
        Asks server.now call (world (W.state dialer.old) (L.state console.old) aside) (world (W.state dialer.new) (L.state console.new) aside) result }
{
    match send(alloc, dialer, server, post) {
        Ok(
            Told::Good {
                place,
                reply,
                bytes,
            },
        ) => Ok(Answer {
            place,
            reply,
            bytes,
        }),
        Ok(Told::No { code, .. }) => Err(print_code(alloc, console, code.name())),
        Err(status) => Err(status),
    }
}
