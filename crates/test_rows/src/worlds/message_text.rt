//! Requests of a bot, and replies to them, in words.
use crate::worlds::brief_text::end_text;
use reply_bodies::code_of;
use std::alloc::{AllocError, Global};
use swarm_model::{Chunk, Last, Reply, Request};

fn piece_text(alloc: Global, chunk: &Option<Chunk>) -> Result<String, AllocError> {
    match chunk {
        None => String::from_str(alloc, "nothing"),
        Some(chunk) => {
            let start = chunk.start;
            let size = chunk.size;
            format!(in alloc; "{size} from {start}")
        }
    }
}

fn report_text(
    alloc: Global,
    task: u32,
    try_no: u32,
    chunk: &Option<Chunk>,
    last: &Option<Last>,
) -> Result<String, AllocError> {
    let piece = piece_text(alloc, chunk)?;
    match last {
        None => format!(in alloc; "report {task}-{try_no}, {piece}"),
        Some(last) => {
            let end = end_text(
                alloc,
                last.exit_code,
                last.dropped,
                last.hard_timeout,
                last.io_timeout,
            )?;
            format!(in alloc; "last report {task}-{try_no}, {piece}, {end}")
        }
    }
}

/// A request that a bot sends.
pub(crate) fn request_text(alloc: Global, request: &Request) -> Result<String, AllocError> {
    match request {
        Request::Handshake { session, .. } => {
            let session = session.as_str();
            format!(in alloc; "handshake {session}")
        }
        Request::Poll { .. } => String::from_str(alloc, "poll"),
        Request::Claim { claim, .. } => {
            let claim = claim.as_str();
            format!(in alloc; "claim {claim}")
        }
        Request::Update {
            task,
            try_no,
            chunk,
            last,
            ..
        } => report_text(alloc, *task, *try_no, chunk, last),
        _ => String::from_str(alloc, "another request"),
    }
}

/// A reply to a bot.
pub(crate) fn reply_text(alloc: Global, reply: &Reply) -> Result<String, AllocError> {
    match reply {
        Reply::Shaken { .. } => String::from_str(alloc, "shaken"),
        Reply::Sleep { secs } => format!(in alloc; "sleep {secs}"),
        Reply::ClaimHint => String::from_str(alloc, "claim"),
        Reply::Terminate => String::from_str(alloc, "terminate"),
        Reply::Run { task, try_no, .. } => format!(in alloc; "run {task}-{try_no}"),
        Reply::Skip => String::from_str(alloc, "skip"),
        Reply::Updated { must_stop: false } => String::from_str(alloc, "taken"),
        Reply::Updated { must_stop: true } => String::from_str(alloc, "taken, must stop"),
        Reply::No(why) => String::from_str(alloc, code_of(why).name()),
        _ => String::from_str(alloc, "another reply"),
    }
}
