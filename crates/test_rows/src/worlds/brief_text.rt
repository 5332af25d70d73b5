use crate::action_text::{action_text, stop_text};
use bot_core::{Action, End};
use std::alloc::{AllocError, Global};

/// How a run ended.
pub(crate) fn end_text(
    alloc: Global,
    exit_code: i32,
    dropped: u64,
    hard_timeout: bool,
    io_timeout: bool,
) -> Result<String, AllocError> {
    let hard = if hard_timeout { ", hard timeout" } else { "" };
    let io = if io_timeout { ", io timeout" } else { "" };
    format!(in alloc; "exit code {exit_code}, dropped {dropped}{hard}{io}")
}

fn last_send_text(alloc: Global, start: u32, size: u32, end: &End) -> Result<String, AllocError> {
    let text = end_text(
        alloc,
        end.exit_code,
        end.dropped,
        end.hard_timeout,
        end.io_timeout,
    )?;
    format!(in alloc; "last send {size} from {start}, {text}")
}

/// What a bot is to do next, but for how long a command took and how many runs there were.
pub(crate) fn brief_action_text(alloc: Global, action: &Action) -> Result<String, AllocError> {
    match action {
        Action::Send {
            start,
            size,
            last: Some(end),
        } => last_send_text(alloc, *start, *size, end),
        Action::Stop { why, .. } => {
            let why = stop_text(*why);
            format!(in alloc; "stop {why}")
        }
        _ => action_text(alloc, action),
    }
}
