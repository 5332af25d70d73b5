//! The status and the body of a reply.
ghost use Rattle.std.specs.Prelude.{◌≡◌, ◌<◌, IfOk, codes};
ghost use Rattle.http.specs.StatusCode.{IsStatusCode};
ghost use Rattle.serde_json.specs.Data.{boolean, string, object};
ghost use Rattle.serde_json.specs.View.{view, members_view};
ghost use Rattle.serde_json.specs.Written.{compact_text};
ghost use Rattle.json_values.specs.Values.{whole, list_data};
ghost use Rattle.swarm_model.specs.States.{state_name};
ghost use Rattle.json_fields.specs.Ids.{task_id as spec_task_id};
ghost use Rattle.reply_bodies.specs.Refusals.{one, two};
ghost use Rattle.reply_bodies.specs.Items.{blob_data};
ghost use Rattle.reply_bodies.specs.Bodies.{status_of as spec_status_of, reply_members as spec_reply_members, first_piece, body_of, content_type_of};

use crate::commands::run_members;
use crate::items::Blobs;
use crate::output::stdout_members;
use crate::pages::{bots_members, tasks_members};
use crate::refusals::{code_of, one_text, one_whole, refusal_members};
use crate::views::{bot_members, task_members, with_task_id};
use dimensions::Seq;
use json_values::{with_flag, with_list, with_text};
use serde_json::{Map, Value};
use std::alloc::{AllocError, Global};
use swarm_model::{Reply, TaskState};
use task_props::Digest;

/// The status of a reply.
pub fn status_of(reply: &Reply) -> u16
    ensures status { result ≡ spec_status_of reply.now }
    ensures is_status { IsStatusCode result }
{
    match reply {
        Reply::No(why) => code_of(why).status(),
        _ => 200,
    }
}

fn new_members(
    alloc: Global,
    place: u32,
    task: u32,
    state: TaskState,
) -> Result<Map<String, Value>, AllocError>
    requires { place < 4 }
    ensures { IfOk result (λ members. members_view members.entries ≡ two (codes "state") (string (state_name state)) (codes "task_id") (string (spec_task_id place task))) }
{
    let members = with_task_id(alloc, Map::new(alloc), "task_id", place, task)?;
    with_text(alloc, members, "state", state.name())
}

fn canceled_members(
    alloc: Global,
    canceled: bool,
    was_running: bool,
) -> Result<Map<String, Value>, AllocError>
    ensures { IfOk result (λ members. members_view members.entries ≡ two (codes "canceled") (boolean canceled) (codes "was_running") (boolean was_running)) }
{
    let members = with_flag(alloc, Map::new(alloc), "was_running", was_running)?;
    with_flag(alloc, members, "canceled", canceled)
}

fn sleep_members(alloc: Global, secs: u64) -> Result<Map<String, Value>, AllocError>
    ensures { IfOk result (λ members. members_view members.entries ≡ two (codes "cmd") (string (codes "sleep")) (codes "duration") (whole secs)) }
{
    let members = one_whole(alloc, "duration", secs)?;
    with_text(alloc, members, "cmd", "sleep")
}

fn missing_members(alloc: Global, blobs: &[(Digest, u32)]) -> Result<Map<String, Value>, AllocError>
    ensures { IfOk result (λ members. members_view members.entries ≡ one (codes "blobs") (list_data blob_data blobs.now)) }
{
    with_list(alloc, Map::new(alloc), "blobs", &Blobs, blobs)
}

fn reply_members(
    alloc: Global,
    place: u32,
    reply: &Reply,
    pieces: &[Seq<u8>],
) -> Result<Map<String, Value>, AllocError>
    requires { place < 4 }
    ensures { IfOk result (λ members. members_view members.entries ≡ spec_reply_members place reply.now pieces.now) }
{
    match reply {
        Reply::New { task, state } => new_members(alloc, place, *task, *state),
        Reply::Canceled {
            canceled,
            was_running,
        } => canceled_members(alloc, *canceled, *was_running),
        Reply::Result(task) => task_members(alloc, place, task),
        Reply::Stdout { state, parts } => stdout_members(alloc, *state, parts.as_slice(), pieces),
        Reply::Tasks { items, cursor } => tasks_members(alloc, place, items.as_slice(), *cursor),
        Reply::Count { count } => one_whole(alloc, "count", *count),
        Reply::Shaken { bot } => one_text(alloc, "bot_id", bot.as_str()),
        Reply::Sleep { secs } => sleep_members(alloc, *secs),
        Reply::ClaimHint => one_text(alloc, "cmd", "claim"),
        Reply::Terminate => one_text(alloc, "cmd", "terminate"),
        Reply::Run {
            task,
            try_no,
            slice,
            tolerance,
            properties,
        } => run_members(
            alloc,
            place,
            (*task, *try_no),
            *slice,
            *tolerance,
            properties,
        ),
        Reply::Skip => one_text(alloc, "cmd", "skip"),
        Reply::Updated { must_stop } => with_flag(alloc, Map::new(alloc), "must_stop", *must_stop),
        Reply::Noted | Reply::Terminating | Reply::Blob { .. } => Ok(Map::new(alloc)),
        Reply::Bots { items, cursor } => bots_members(alloc, place, items.as_slice(), cursor),
        Reply::Bot(bot) => bot_members(alloc, place, bot),
        Reply::Put { fresh } => with_flag(alloc, Map::new(alloc), "fresh", *fresh),
        Reply::Missing { blobs } => missing_members(alloc, blobs.as_slice()),
        Reply::No(why) => refusal_members(alloc, place, why),
    }
}

fn reply_value(
    alloc: Global,
    place: u32,
    reply: &Reply,
    pieces: &[Seq<u8>],
) -> Result<Value, AllocError>
    requires { place < 4 }
    ensures { IfOk result (λ value. view value ≡ object (spec_reply_members place reply.now pieces.now)) }
{
    Ok(Value::Object(reply_members(alloc, place, reply, pieces)?))
}

#[tactic(auto, using(crate::proofs::NoFloats::reply_is_plain))]
fn reply_text(
    alloc: Global,
    place: u32,
    reply: &Reply,
    pieces: &[Seq<u8>],
) -> Result<Vec<u8>, AllocError>
    requires { place < 4 }
    ensures { IfOk result (λ bytes. bytes.items ≡ compact_text (object (spec_reply_members place reply.now pieces.now))) }
{
    reply_value(alloc, place, reply, pieces)?.to_vec(alloc)
}

fn copy_first(alloc: Global, pieces: &[Seq<u8>]) -> Result<Seq<u8>, AllocError>
    ensures { IfOk result (λ bytes. bytes ≡ first_piece pieces.now) }
{
    match pieces.first() {
        Some(piece) => Ok(Seq::from_vec(piece.as_slice().to_vec(alloc)?)),
        None => Ok(Seq::new(alloc)),
    }
}

/// The body of a reply from the pool at a place. `pieces` are the bytes of the blobs that the
/// reply names. The body of a blob is a copy of its piece: who has the piece need not ask for it.
#[tactic(auto, unfolding(crate::specs::Bodies::body_of))]
pub fn show_reply(
    alloc: Global,
    place: u32,
    reply: &Reply,
    pieces: &Seq<Seq<u8>>,
) -> Result<Seq<u8>, AllocError>
    requires { place < 4 }
    ensures { IfOk result (λ bytes. bytes ≡ body_of place reply.now pieces.now) }
{
    match reply {
        Reply::Blob { .. } => copy_first(alloc, pieces.as_slice()),
        _ => Ok(Seq::from_vec(reply_text(alloc, place, reply, pieces.as_slice())?)),
    }
}

/// How the body of a reply is to be read: its media type (RFC 9110, section 8.3).
pub fn content_type(reply: &Reply) -> &'static str
    ensures { result.now ≡ content_type_of reply.now }
{
    match reply {
        Reply::Blob { .. } => "application/octet-stream",
        _ => "application/json",
    }
}
