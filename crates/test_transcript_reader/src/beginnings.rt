//! What was written in a run that a failing call cut short, or refused a request of.

use crate::comparison::other_reply;
use crate::exchange::reply_bytes;
use crate::{Conversation, PoolRecords, TranscriptError};
use std::alloc::{AllocError, Global};

/// How many replies a text of this many bytes has the beginning of.
fn begun_replies(link: &Conversation, size: usize) -> usize {
    let mut before = 0usize;
    let mut count = 0usize;
    for reply in link.replies.iter() {
        if before >= size {
            break;
        }
        before = before.saturating_add(reply.bytes.len());
        count = count.saturating_add(1);
    }
    count
}

/// The bytes of the first replies, so many of them.
fn first_replies(alloc: Global, link: &Conversation, count: usize) -> Result<Vec<u8>, AllocError> {
    let mut bytes = Vec::new(alloc);
    for reply in link.replies.iter().take(count) {
        bytes.extend_from_slice(reply.bytes.as_slice())?;
    }
    Ok(bytes)
}

/// Compares what was written to a link, and what of it was flushed, with the replies: the first are
/// the beginning of the replies, the second whole replies. It answers how many replies were begun.
///
/// # Errors
///
/// Other bytes were written, or a part of a reply was flushed.
pub fn compare_begun(
    alloc: Global,
    link: &Conversation,
    output: &[u8],
    flushed: &[u8],
) -> Result<usize, TranscriptError> {
    if !link.output.as_slice().starts_with(output) {
        return Err(other_reply(alloc, link.line, link.output.as_slice(), output)?);
    }
    let whole = first_replies(alloc, link, begun_replies(link, flushed.len()))?;
    if flushed != whole.as_slice() {
        return Err(other_reply(alloc, link.line, whole.as_slice(), flushed)?);
    }
    Ok(begun_replies(link, output.len()))
}

/// Compares what was written to a link with its first replies, so many of them, and then the refusal
/// of a request whose entry a keeper did not take. What stands behind it is free.
///
/// # Errors
///
/// It begins with other bytes.
pub fn compare_refused(
    alloc: Global,
    link: &Conversation,
    count: usize,
    output: &[u8],
) -> Result<(), TranscriptError> {
    let mut wanted = first_replies(alloc, link, count)?;
    let body = b"{\"code\":\"keeper_fault\"}";
    let refusal = reply_bytes(
        alloc,
        "503 Service Unavailable",
        "application/json",
        "-",
        body,
    )?;
    wanted.extend_from_slice(refusal.as_slice())?;
    if output.starts_with(wanted.as_slice()) {
        return Ok(());
    }
    Err(other_reply(alloc, link.line, wanted.as_slice(), output)?)
}

/// Compares what was written to a link with what was written to the one of the run before: it is the
/// end of that, and not empty.
///
/// # Errors
///
/// Other bytes were written, or none.
pub fn compare_end(
    alloc: Global,
    link: &Conversation,
    before: &[u8],
    output: &[u8],
) -> Result<(), TranscriptError> {
    if !output.is_empty() && before.ends_with(output) {
        return Ok(());
    }
    Err(other_reply(alloc, link.line, before, output)?)
}

/// Compares the records that a store keeps of a pool with those that it is to keep where only some of
/// the replies were begun: the first lines, as many as replies were begun or one more. Each of all
/// `replies` adds a line.
///
/// # Errors
///
/// The count or a line is another, or there are more lines or fewer.
pub fn compare_begun_records(
    alloc: Global,
    wanted: &PoolRecords,
    came: &PoolRecords,
    replies: usize,
    begun: usize,
) -> Result<(), TranscriptError> {
    let least = wanted
        .lines
        .len()
        .saturating_sub(replies)
        .saturating_add(begun);
    let count = came.lines.len();
    let first = wanted.first(alloc, count)?;
    let first = first.text(alloc)?;
    let came = came.text(alloc)?;
    if came.as_bytes() == first.as_bytes() && least <= count && count <= least.saturating_add(1) {
        return Ok(());
    }
    Err(other_reply(alloc, wanted.line, first.as_bytes(), came.as_bytes())?)
}
