//! Commands of one exchange, whose reply is printed.
ghost use Rattle.std.specs.Prelude.{ℕ, IfOk, Option};
ghost use Rattle.sw_base.specs.Dialers.{DialerState};
ghost use Rattle.client_commands.specs.declared.server.Server.{Server as SpecServer};
ghost use Rattle.client_commands.specs.Commands.{printed, once as spec_once};
ghost use Rattle.client_commands.specs.Plans.{Follows};
ghost use Rattle.client_commands.specs.Requests.{Call, Posts};
ghost use Rattle.client_commands.specs.Steps.{world, Aside};

use crate::asking::ask;
use crate::post::Post;
use crate::printing::print_last;
use crate::server::Server;
use std::alloc::{AllocError, Global};
use sw_base::{Dialer, Link};
use swarm_model::Reply;

/// How the reply to a command is shown.
pub(crate) trait ShowReply {
    ghost use Rattle.std.specs.Prelude.{◌≡◌, ℕ, List, Option, IfOk, option_map, vec_items};
    ghost use Rattle.swarm_model.specs.declared.reply.Reply.{Reply};

    // The text of a reply of the pool at a place, where it is one to this command.
    ghost text: { Self → ℕ → Reply → Option (List ℕ) };

    fn show(&self, alloc: Global, place: u32, reply: &Reply) -> Result<Option<Vec<u8>>, AllocError>
        ensures { IfOk result (λ shown. option_map vec_items shown ≡ text self.now place reply.now) };
}

fn print_reply<L: Link, S: ShowReply>(
    alloc: Global,
    console: &mut L,
    place: u32,
    reply: &Reply,
    shown: &S,
) -> u8
    ensures { (server : SpecServer) (dialer : DialerState) (aside : Aside) →
        Follows server (printed (S.text shown.now place reply.now)) (world dialer (L.state console.old) aside) (world dialer (L.state console.new) aside) result }
{
    match shown.show(alloc, place, reply) {
        Ok(Some(text)) => print_last(console, &text, 0),
        Ok(None) => 9,
        Err(_) => 5,
    }
}

/// Sends a request, prints its reply, and answers the status.
pub(crate) fn print_answer<W: Dialer, L: Link, S: ShowReply>(
    alloc: Global,
    dialer: &mut W,
    console: &mut L,
    server: &Server,
    post: Result<Post, AllocError>,
    shown: &S,
) -> u8
    ensures { (call : Call) (aside : Aside) → IfOk post (Posts call) →
        Follows server.now (spec_once call (S.text shown.now)) (world (W.state dialer.old) (L.state console.old) aside) (world (W.state dialer.new) (L.state console.new) aside) result }
{
    let Ok(post) = post else {
        return 5;
    };
    match ask(alloc, dialer, console, server, &post) {
        Ok(answer) => print_reply(alloc, console, answer.place, &answer.reply, shown),
        Err(status) => status,
    }
}
