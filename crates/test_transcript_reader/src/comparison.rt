ghost use Rattle.std.specs.Prelude.{◌≡◌, ◌↔◌, [], IfSome, IsOk, vec_len};

use crate::{Conversation, PoolRecords, Transcript, TranscriptError};
use std::alloc::{AllocError, Global};

/// How many bytes are shown before the first that differs.
const BEFORE: usize = 40;

/// How many bytes are shown of what was wanted, and of what came.
const WANTED: usize = 120;

const CAME: usize = 1200;

/// Adds a character as it is shown: what is not printed by its number.
fn push_shown(text: &mut String, character: char) -> Result<(), AllocError> {
    match character {
        '\r' => text.push_str("\\r"),
        '\n' => text.push_str("\\n"),
        _ if character.is_ascii_control() => {
            let code = u32::from(character);
            write!(text, "\\x{code:02x}")
        }
        _ => text.push(character),
    }
}

/// At most so many bytes, from a place on, as they are shown.
fn excerpt(alloc: Global, bytes: &[u8], from: usize, most: usize) -> Result<String, AllocError> {
    let rest = &bytes[from.min(bytes.len())..];
    if rest.is_empty() {
        return String::from_str(alloc, "nothing");
    }
    let part = &rest[..most.min(rest.len())];
    let mut text = String::from_str(alloc, if from == 0 { "`" } else { "`.." })?;
    for character in String::from_utf8_lossy(alloc, part)?.as_str().chars() {
        push_shown(&mut text, character)?;
    }
    text.push_str(if part.len() < rest.len() { "..`" } else { "`" })?;
    Ok(text)
}

/// How many bytes two texts have in common from their beginning on.
fn common_length(one: &[u8], other: &[u8]) -> usize {
    let mut length = 0usize;
    for (a, b) in one.iter().zip(other.iter()) {
        if a != b {
            break;
        }
        length = length.saturating_add(1);
    }
    length
}

/// The error of a reply in whose place these bytes came.
pub(crate) fn other_reply(
    alloc: Global,
    line: usize,
    wanted: &[u8],
    came: &[u8],
) -> Result<TranscriptError, AllocError> {
    let from = common_length(wanted, came).saturating_sub(BEFORE);
    Ok(TranscriptError::Reply {
        line,
        wanted: excerpt(alloc, wanted, from, WANTED)?,
        came: excerpt(alloc, came, from, CAME)?,
    })
}

/// The error of the first reply that differs, or of what came behind the last.
fn difference(
    alloc: Global,
    link: &Conversation,
    output: &[u8],
) -> Result<TranscriptError, AllocError> {
    let mut line = link.line;
    let mut rest = output;
    for reply in link.replies.iter() {
        line = reply.line;
        match rest.strip_prefix(reply.bytes.as_slice()) {
            Some(after) => rest = after,
            None => return other_reply(alloc, line, reply.bytes.as_slice(), rest),
        }
    }
    Ok(TranscriptError::More {
        line,
        came: excerpt(alloc, rest, 0, CAME)?,
    })
}

/// Compares what was written to a link with what was to be.
///
/// # Errors
///
/// The first reply that differs, or what came behind the last, each with its line.
pub fn compare_link(
    alloc: Global,
    link: &Conversation,
    output: &[u8],
) -> Result<(), TranscriptError>
    ensures alike { IsOk result ↔ (output.now ≡ link.now.output.items) }
{
    if output != link.output.as_slice() {
        return Err(difference(alloc, link, output)?);
    }
    Ok(())
}

/// Whether a text stands somewhere in another.
fn has_text(output: &[u8], text: &[u8]) -> bool {
    for at in 0..output.len() {
        if output[at..].starts_with(text) {
            return true;
        }
    }
    false
}

/// Compares what was printed in a run with its transcript: with the texts that it mentions, and where
/// there are none with the replies.
///
/// # Errors
///
/// The first reply that differs, what came behind the last, or a text that isn't mentioned.
pub fn compare_console(
    alloc: Global,
    transcript: &Transcript,
    output: &[u8],
) -> Result<(), TranscriptError> {
    if transcript.mentions.is_empty() {
        return compare_link(alloc, &transcript.console, output);
    }
    for text in transcript.mentions.iter() {
        if !has_text(output, text.as_slice()) {
            return Err(other_reply(alloc, transcript.line, text.as_slice(), output)?);
        }
    }
    Ok(())
}

/// Compares what was printed in a run that is to print nothing.
///
/// # Errors
///
/// Something was printed.
pub fn compare_nothing(
    alloc: Global,
    transcript: &Transcript,
    output: &[u8],
) -> Result<(), TranscriptError>
    ensures alike { IsOk result ↔ (output.now ≡ []) }
{
    if output.is_empty() {
        return Ok(());
    }
    Err(TranscriptError::More {
        line: transcript.line,
        came: excerpt(alloc, output, 0, CAME)?,
    })
}

/// Compares the records that a store keeps of a pool with those that it is to keep.
///
/// # Errors
///
/// The count or a line is another, or there are more lines or fewer.
pub fn compare_records(
    alloc: Global,
    wanted: &PoolRecords,
    came: &PoolRecords,
) -> Result<(), TranscriptError> {
    let line = wanted.line;
    let wanted = wanted.text(alloc)?;
    let came = came.text(alloc)?;
    if wanted.as_bytes() == came.as_bytes() {
        return Ok(());
    }
    Err(other_reply(alloc, line, wanted.as_bytes(), came.as_bytes())?)
}

/// Compares how many links a run used with how many it was to use.
///
/// # Errors
///
/// It used more of them, or fewer.
pub fn compare_links(
    transcript: &Transcript,
    wanted: usize,
    came: usize,
) -> Result<(), TranscriptError>
    ensures alike { IsOk result ↔ (came ≡ wanted) }
{
    if came == wanted {
        return Ok(());
    }
    Err(TranscriptError::Links {
        line: transcript.line,
        wanted,
        came,
    })
}

/// Compares the status of a run with that of its transcript.
///
/// # Errors
///
/// It ended with another one.
pub fn compare_status(
    transcript: &Transcript,
    wanted: u8,
    status: u8,
) -> Result<(), TranscriptError>
    ensures alike { IsOk result ↔ (status ≡ wanted) }
{
    if status == wanted {
        return Ok(());
    }
    Err(TranscriptError::Status {
        line: transcript.line,
        wanted,
        came: status,
    })
}

/// Compares how often the clock of a run was asked with the moments of its transcript.
///
/// # Errors
///
/// The clock was asked for more moments, or for fewer.
pub fn compare_moments(transcript: &Transcript, asked: usize) -> Result<(), TranscriptError>
    ensures alike { IsOk result ↔ (asked ≡ vec_len transcript.now.moments) }
{
    let wanted = transcript.moments.len();
    if asked == wanted {
        return Ok(());
    }
    Err(TranscriptError::Moments {
        line: transcript.line,
        wanted,
        came: asked,
    })
}

/// Compares how many seconds a run waited with those of its transcript, where it has them.
///
/// # Errors
///
/// It waited for more seconds, or for fewer.
pub fn compare_waits(transcript: &Transcript, waited: u64) -> Result<(), TranscriptError>
    ensures alike { IsOk result ↔ IfSome transcript.now.waits (λ wanted. waited ≡ wanted) }
{
    let Some(wanted) = transcript.waits else {
        return Ok(());
    };
    if waited == wanted {
        return Ok(());
    }
    Err(TranscriptError::Waits {
        line: transcript.line,
        wanted,
        came: waited,
    })
}

/// Compares how many answers of the runner are left behind a run, which is to take all of them.
///
/// # Errors
///
/// Some are left.
pub fn compare_runner(transcript: &Transcript, left: usize) -> Result<(), TranscriptError>
    ensures alike { IsOk result ↔ (left ≡ 0) }
{
    if left == 0 {
        return Ok(());
    }
    Err(TranscriptError::RunnerAnswers {
        line: transcript.line,
        wanted: transcript.runner_answers.len(),
        left,
    })
}
