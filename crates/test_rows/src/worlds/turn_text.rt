use dimensions::Seq;
use std::alloc::{AllocError, Global};
use two_ends::ChildTurn;

/// The most bytes that a line says a command wrote.
const MOST_OUTPUT: usize = 1_000_000;

/// A place as a line has it: from 0 on, or below 0 from the end of what is there.
pub(crate) fn read_place(text: &str, count: usize) -> Option<u32> {
    match text.strip_prefix('-') {
        None => text.parse::<u32>().ok(),
        Some(back) => {
            let back = back.parse::<usize>().ok()?;
            u32::try_from(count.checked_sub(back)?).ok()
        }
    }
}

/// The bytes of a text, in which `\n` is the end of a line, so many times.
fn repeated(alloc: Global, times: usize, text: &str) -> Result<Vec<u8>, AllocError> {
    let mut piece = Vec::new(alloc);
    let mut is_escape = false;
    for byte in text.bytes() {
        if is_escape && byte == b'n' {
            piece.push(b'\n')?;
            is_escape = false;
        } else if byte == b'\\' {
            is_escape = true;
        } else {
            piece.push(byte)?;
        }
    }
    let mut bytes = Vec::new(alloc);
    for _time in 0..times {
        bytes.extend_from_slice(piece.as_slice())?;
    }
    Ok(bytes)
}

/// What a command wrote, as `TIMES TEXT`.
fn read_output(alloc: Global, text: &str) -> Result<Option<ChildTurn>, AllocError> {
    let Some((times, text)) = text.split_once(' ') else {
        return Ok(None);
    };
    match times.parse::<usize>() {
        Ok(times) if text.len().saturating_mul(times) <= MOST_OUTPUT => {
            let bytes = repeated(alloc, times, text)?;
            Ok(Some(ChildTurn::Output(Seq::from_vec(bytes))))
        }
        _ => Ok(None),
    }
}

/// What the bot hears of its command.
pub(crate) fn read_child(alloc: Global, text: &str) -> Result<Option<ChildTurn>, AllocError> {
    if let Some(output) = text.strip_prefix("output ") {
        return read_output(alloc, output);
    }
    if let Some(code) = text.strip_prefix("ended ") {
        return Ok(match code.parse::<i32>() {
            Ok(code) => Some(ChildTurn::Ended(code)),
            Err(_) => None,
        });
    }
    Ok(match text {
        "prepared" => Some(ChildTurn::Prepared),
        "started" => Some(ChildTurn::Started),
        "quiet" => Some(ChildTurn::Quiet),
        "signalled" => Some(ChildTurn::Signalled),
        "uploaded" => Some(ChildTurn::Uploaded),
        "cleaned" => Some(ChildTurn::Cleaned),
        "failed" => Some(ChildTurn::Failed),
        _ => None,
    })
}
