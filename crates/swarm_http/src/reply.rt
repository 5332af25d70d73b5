//! The bytes of a reply.
ghost use Rattle.std.specs.Prelude.{◌≡◌, ◌==◌, ◌<◌, ◌++◌, [], Err, None, Some, IfOk, OnOk, get_or, string_bytes};
ghost use Rattle.http.specs.StatusCode.{IsStatusCode};
ghost use Rattle.reply_bodies.specs.Bodies.{status_of as spec_status_of};
ghost use Rattle.swarm_wire.specs.declared.asked.Asked.{Asked};
ghost use Rattle.swarm_http.specs.Replies.{phrase_of as spec_phrase_of, head_with, reply_with, shown};
ghost use Rattle.swarm_http.specs.Sends.{status_in, shown_in};
ghost use Rattle.swarm_http.specs.Steps.{IsRejection};

use dimensions::Seq;
use http::StatusCode;
use reply_bodies::{content_type, show_reply, status_of};
use std::alloc::{AllocError, Global};
use swarm_model::{Reply, Rule};

/// A refusal whose reply takes no memory.
#[derive(Clone, Copy, Debug, PartialEq, Eq)]
pub enum Refusal {
    BadHead,
    LengthRequired,
    /// The body is above 65536 bytes.
    BodyTooLarge,
    /// The body of a blob is above 16777216 bytes.
    BlobTooLarge,
    NoRoute,
    BadMethod,
    BadJson,
    /// X-Swarming-After is no number.
    FrontBroken,
    NoCaller,
    NoPool,
    NoTask,
    LogFull,
    /// What keeps the pool's records failed.
    KeeperFault,
    WantOfMemory,
}

/// A reply that is ready to be written.
#[derive(Drop)]
pub enum ReplyBytes {
    Refused(Refusal),
    /// Its status, and its head of so many bytes with its body behind it.
    Whole {
        status: u16,
        head_size: usize,
        text: Vec<u8>,
    },
    /// Its status, its head, and the content of the blob that is its body.
    Blob(u16, Vec<u8>, Seq<u8>),
    /// Its call answered with this front, and there was no memory for the reply.
    WantOfMemoryAt(u64),
}

impl ReplyBytes {
    /// Whether its status is 200.
    #[tactic(auto, using(crate::proofs::Texts::no_refusal_is_accepted))]
    pub fn is_accepted(&self) -> bool
        ensures { result ≡ (status_in self.now == 200) }
    {
        match self {
            ReplyBytes::Whole { status, .. } | ReplyBytes::Blob(status, _, _) => *status == 200,
            ReplyBytes::Refused(_) | ReplyBytes::WantOfMemoryAt(_) => false,
        }
    }
}

/// The phrase that stands beside a status.
fn phrase_of(status: u16) -> &'static str
    requires { IsStatusCode status }
    ensures { result.now ≡ spec_phrase_of status }
{
    match StatusCode::from_u16(status) {
        Ok(code) => code.canonical_reason().unwrap_or(""),
        Err(_) => "",
    }
}

// Room for the head of any reply. A longer one would only have the buffer grow.
const HEAD_ROOM: usize = 256;

#[tactic(auto, unfolding(crate::specs::Replies::head_with))]
fn write_head_with_front(
    text: &mut String,
    status: u16,
    phrase: &str,
    size: usize,
    media_type: &str,
    front: u64,
) -> Result<(), AllocError>
    ensures { OnOk result (string_bytes text.new ≡ string_bytes text.old ++ head_with status phrase.now size media_type.now (Some front)) }
{
    write!(
        text,
        "HTTP/1.1 {status} {phrase}\r\nContent-Length: {size}\r\nContent-Type: {media_type}\r\nX-Swarming-Front: {front}\r\n\r\n"
    )
}

#[tactic(auto, unfolding(crate::specs::Replies::head_with))]
fn write_head_alone(
    text: &mut String,
    status: u16,
    phrase: &str,
    size: usize,
    media_type: &str,
) -> Result<(), AllocError>
    ensures { OnOk result (string_bytes text.new ≡ string_bytes text.old ++ head_with status phrase.now size media_type.now None) }
{
    write!(
        text,
        "HTTP/1.1 {status} {phrase}\r\nContent-Length: {size}\r\nContent-Type: {media_type}\r\n\r\n"
    )
}

fn write_head(
    text: &mut String,
    status: u16,
    phrase: &str,
    size: usize,
    media_type: &str,
    front: Option<u64>,
) -> Result<(), AllocError>
    ensures { OnOk result (string_bytes text.new ≡ string_bytes text.old ++ head_with status phrase.now size media_type.now front) }
{
    match front {
        None => write_head_alone(text, status, phrase, size, media_type),
        Some(front) => write_head_with_front(text, status, phrase, size, media_type, front),
    }
}

/// The head of a reply whose body has a size, in a buffer of so much room.
fn head_bytes(
    alloc: Global,
    status: u16,
    media_type: &str,
    front: Option<u64>,
    size: usize,
    room: usize,
) -> Result<Vec<u8>, AllocError>
    requires { IsStatusCode status }
    ensures { IfOk result (λ v. v.items ≡ head_with status (spec_phrase_of status) size media_type.now front) }
{
    let mut head = String::with_capacity(alloc, room)?;
    write_head(
        &mut head,
        status,
        phrase_of(status),
        size,
        media_type,
        front,
    )?;
    Ok(head.into_bytes())
}

/// A head and its body in one buffer, whose memory is taken once.
#[tactic(auto, unfolding(crate::specs::Replies::reply_with))]
fn joined_reply(
    alloc: Global,
    status: u16,
    media_type: &str,
    front: Option<u64>,
    body: &[u8],
) -> Result<ReplyBytes, AllocError>
    requires { IsStatusCode status }
    ensures status { IfOk result (λ s. status_in s ≡ status) }
    ensures text { IfOk result (λ s. shown_in s ≡ reply_with status media_type.now front body.now) }
{
    let size = body.len();
    let room = size.saturating_add(HEAD_ROOM);
    let mut text = head_bytes(alloc, status, media_type, front, size, room)?;
    let head_size = text.len();
    text.extend_from_slice(body)?;
    Ok(ReplyBytes::Whole {
        status,
        head_size,
        text,
    })
}

/// The content of a blob stays where it is: only the head takes memory.
#[tactic(auto, unfolding(crate::specs::Replies::reply_with))]
fn blob_reply(
    alloc: Global,
    status: u16,
    media_type: &str,
    front: Option<u64>,
    content: Seq<u8>,
) -> Result<ReplyBytes, AllocError>
    requires { IsStatusCode status }
    ensures status { IfOk result (λ s. status_in s ≡ status) }
    ensures text { IfOk result (λ s. shown_in s ≡ reply_with status media_type.now front content) }
{
    let size = content.as_slice().len();
    let head = head_bytes(alloc, status, media_type, front, size, HEAD_ROOM)?;
    Ok(ReplyBytes::Blob(status, head, content))
}

fn first_piece(alloc: Global, pieces: Seq<Seq<u8>>) -> Seq<u8>
    ensures { result ≡ get_or pieces 0 [] }
{
    pieces
        .into_vec()
        .into_iter()
        .next()
        .unwrap_or(Seq::new(alloc))
}

/// A reply of the pool at a place, with the front of its call, if there was one. `pieces` are the
/// bytes of the blobs that the reply names.
#[tactic(auto, unfolding(crate::specs::Replies::shown))]
pub fn whole_reply(
    alloc: Global,
    place: u32,
    front: Option<u64>,
    reply: &Reply,
    pieces: Seq<Seq<u8>>,
) -> Result<ReplyBytes, AllocError>
    requires { place < 4 }
    ensures status { IfOk result (λ s. status_in s ≡ spec_status_of reply.now) }
    ensures text { IfOk result (λ s. shown_in s ≡ shown place front reply.now pieces) }
{
    let (status, media_type) = (status_of(reply), content_type(reply));
    if let Reply::Blob { .. } = reply {
        let content = first_piece(alloc, pieces);
        return blob_reply(alloc, status, media_type, front, content);
    }
    let body = show_reply(alloc, place, reply, &pieces)?;
    joined_reply(alloc, status, media_type, front, body.as_slice())
}

/// The reply of a refusal, or that for want of memory.
pub fn refusal_reply(alloc: Global, why: Rule) -> ReplyBytes
    ensures { IsRejection {A = Asked} result (Err why) }
{
    let reply = Reply::No(why);
    let pieces = Seq::new(alloc);
    match whole_reply(alloc, 0, None, &reply, pieces) {
        Ok(shown) => shown,
        Err(_) => ReplyBytes::Refused(Refusal::WantOfMemory),
    }
}
