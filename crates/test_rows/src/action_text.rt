use bot_core::{Action, End, Signal, StopWhy};
use std::alloc::{AllocError, Global};

fn last_send_text(alloc: Global, start: u32, size: u32, end: &End) -> Result<String, AllocError> {
    let code = end.exit_code;
    let duration = end.duration_ms;
    let dropped = end.dropped;
    let hard = if end.hard_timeout {
        ", hard timeout"
    } else {
        ""
    };
    let io = if end.io_timeout { ", io timeout" } else { "" };
    format!(in alloc;
        "last send {size} from {start}, exit code {code}, {duration} ms, dropped {dropped}{hard}{io}"
    )
}

/// Why a bot stops, in words.
pub(crate) fn stop_text(why: StopWhy) -> &'static str {
    match why {
        StopWhy::Terminated => "terminated",
        StopWhy::Tasks => "tasks",
        StopWhy::Polls => "polls",
        StopWhy::Steps => "steps",
        StopWhy::Refused => "refused",
    }
}

fn signal_text(signal: Signal) -> &'static str {
    match signal {
        Signal::Term => "signal term",
        Signal::Kill => "signal kill",
    }
}

/// An action in words.
pub(crate) fn action_text(alloc: Global, action: &Action) -> Result<String, AllocError> {
    match action {
        Action::Handshake { first, session } => format!(in alloc; "handshake {first}-{session}"),
        Action::Poll => String::from_str(alloc, "poll"),
        Action::Claim {
            first,
            session,
            claim,
        } => format!(in alloc; "claim {first}-{session}-{claim}"),
        Action::Prepare => String::from_str(alloc, "prepare"),
        Action::Start => String::from_str(alloc, "start"),
        Action::Look { room } => format!(in alloc; "look {room}"),
        Action::Sleep { secs } => format!(in alloc; "sleep {secs}"),
        Action::Signal { signal } => String::from_str(alloc, signal_text(*signal)),
        Action::Send {
            start,
            size,
            last: None,
        } => format!(in alloc; "send {size} from {start}"),
        Action::Send {
            start,
            size,
            last: Some(end),
        } => last_send_text(alloc, *start, *size, end),
        Action::Upload => String::from_str(alloc, "upload"),
        Action::CleanUp => String::from_str(alloc, "clean up"),
        Action::Stop { why, tasks } => {
            let why = stop_text(*why);
            format!(in alloc; "stop {why} after {tasks}")
        }
    }
}
