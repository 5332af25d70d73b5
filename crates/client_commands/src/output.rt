//! The output of a task, piece by piece.
ghost use Rattle.std.specs.Prelude.{◌≡◌, ◌≤◌, ◌+◌, ◌*◌, ℕ, IfOk, Option};
ghost use Rattle.sw_base.specs.Dialers.{DialerState};
ghost use Rattle.serde_json.specs.View.{view};
ghost use Rattle.client_commands.specs.declared.server.Server.{Server as SpecServer};
ghost use Rattle.client_commands.specs.Commands.{fetched, fetching, is_output as spec_is_output, pieces_of as spec_pieces_of};
ghost use Rattle.client_commands.specs.Plans.{Plan, Follows, ask as plan_ask, after};
ghost use Rattle.client_commands.specs.Requests.{Posts, stdout_call, stdout_data};
ghost use Rattle.client_commands.specs.Steps.{world, Aside, Carries};

use crate::asking::ask;
use crate::post::{Post, post_of};
use crate::printing::print_part;
use crate::server::Server;
use json_values::{with_text, with_whole};
use routes::{Route, targets};
use serde_json::{Map, Value};
use std::alloc::{AllocError, Global};
use sw_base::{Dialer, Link};
use swarm_model::Reply;

/// The most bytes of one piece.
const PIECE: u32 = 65536;

/// The most bytes of an output.
const OUTPUT_LIMIT: u32 = 67_108_864;

/// How many pieces an output of this length has.
pub(crate) fn pieces_of(length: u32) -> u32
    ensures number { result ≡ spec_pieces_of length }
    ensures few { result ≤ 1024 }
{
    length.min(OUTPUT_LIMIT).div_ceil(PIECE)
}

/// Whether a reply is output.
fn is_output(reply: &Reply) -> bool
    ensures { result ≡ spec_is_output reply.now }
{
    match reply {
        Reply::Stdout { .. } => true,
        _ => false,
    }
}

/// Prints the bytes that come with a reply.
fn print_bytes<L: Link>(console: &mut L, reply: &Reply, bytes: &[u8]) -> Result<(), u8>
    ensures { (server : SpecServer) (place : ℕ) (next : Plan) (dialer : DialerState) (aside : Aside) →
        Carries server (fetched next place reply.now bytes.now) (world dialer (L.state console.old) aside) (λ _. next) (world dialer (L.state console.new) aside) result }
{
    if is_output(reply) {
        print_part(console, bytes)
    } else {
        Err(9)
    }
}

#[tactic(auto, unfolding(crate::specs::Requests::stdout_data))]
fn stdout_value(alloc: Global, id: &str, offset: u32) -> Result<Value, AllocError>
    ensures { IfOk result (λ value. view value ≡ stdout_data id.now offset) }
{
    let members = with_text(alloc, Map::new(alloc), "task_id", id)?;
    let members = with_whole(alloc, members, "offset", u64::from(offset))?;
    Ok(Value::Object(members))
}

/// The request for a piece of the output.
#[tactic(auto, using(crate::proofs::Meanings::stdout_is_meant), unfolding(crate::specs::Requests::stdout_data))]
fn stdout_post(alloc: Global, id: &str, offset: u32) -> Result<Post, AllocError>
    requires { offset ≤ 67108864 }
    ensures { IfOk result (Posts (stdout_call id.now offset)) }
{
    let value = stdout_value(alloc, id, offset)?;
    post_of(alloc, Route::GetStdout, targets::GET_STDOUT, &value)
}

/// Asks a piece of the output, and prints it.
fn print_piece<W: Dialer, L: Link>(
    alloc: Global,
    dialer: &mut W,
    console: &mut L,
    server: &Server,
    id: &str,
    offset: u32,
) -> Result<(), u8>
    requires { offset ≤ 67108864 }
    ensures { (aside : Aside) (next : Plan) →
        Carries server.now (plan_ask (stdout_call id.now offset) (after (fetched next))) (world (W.state dialer.old) (L.state console.old) aside) (λ _. next)
        (world (W.state dialer.new) (L.state console.new) aside) result }
{
    let Ok(post) = stdout_post(alloc, id, offset) else {
        return Err(5);
    };
    match ask(alloc, dialer, console, server, &post) {
        Ok(answer) => print_bytes(console, &answer.reply, answer.bytes.as_slice()),
        Err(status) => Err(status),
    }
}

/// Asks the pieces of the output in their order, and prints each as it comes.
pub(crate) fn print_output<W: Dialer, L: Link>(
    alloc: Global,
    dialer: &mut W,
    console: &mut L,
    server: &Server,
    id: &str,
    pieces: u32,
) -> u8
    requires { pieces ≤ 1024 }
    ensures { (aside : Aside) → Follows server.now (fetching id.now pieces 0)
        (world (W.state dialer.old) (L.state console.old) aside) (world (W.state dialer.new) (L.state console.new) aside) result }
{
    let mut left = pieces;
    let mut offset = 0;
    'pieces: while left > 0 {
        match print_piece(alloc, dialer, console, server, id, offset) {
            Ok(()) => {}
            Err(status) => return status,
        }
        left -= 1;
        offset += PIECE;
    }
    0
}
