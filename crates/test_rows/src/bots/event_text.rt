use bot_core::BotEvent;

/// The limits of a run, as `10 io 0 grace 5 tolerance 1200`.
fn read_run(text: &str) -> Option<BotEvent> {
    let (execution, rest) = text.split_once(" io ")?;
    let (io, rest) = rest.split_once(" grace ")?;
    let (grace, tolerance) = rest.split_once(" tolerance ")?;
    Some(BotEvent::ClaimRun {
        execution: execution.parse().ok()?,
        io: io.parse().ok()?,
        grace: grace.parse().ok()?,
        tolerance: tolerance.parse().ok()?,
    })
}

/// An event that ends in a number.
fn read_counted(text: &str) -> Option<BotEvent> {
    let (words, number) = text.rsplit_once(' ')?;
    match words {
        "poll sleep" => Some(BotEvent::PollSleep {
            secs: number.parse().ok()?,
        }),
        "refused" => Some(BotEvent::Refused {
            number: number.parse().ok()?,
        }),
        "output" => Some(BotEvent::Output {
            size: number.parse().ok()?,
        }),
        "ended" => Some(BotEvent::Ended {
            code: number.parse().ok()?,
        }),
        _ => None,
    }
}

/// The event of a text.
pub(crate) fn read_event(text: &str) -> Option<BotEvent> {
    if let Some(run) = text.strip_prefix("claim run execution ") {
        return read_run(run);
    }
    match text {
        "begin" => Some(BotEvent::Begin),
        "handshake ok" => Some(BotEvent::HandshakeOk),
        "poll claim" => Some(BotEvent::PollClaim),
        "poll terminate" => Some(BotEvent::PollTerminate),
        "claim skip" => Some(BotEvent::ClaimSkip),
        "send ok" => Some(BotEvent::SendOk { must_stop: false }),
        "send ok must stop" => Some(BotEvent::SendOk { must_stop: true }),
        "lost" => Some(BotEvent::Lost),
        "slept" => Some(BotEvent::Slept),
        "prepared" => Some(BotEvent::Prepared),
        "started" => Some(BotEvent::Started),
        "quiet" => Some(BotEvent::Quiet),
        "signalled" => Some(BotEvent::Signalled),
        "uploaded" => Some(BotEvent::Uploaded),
        "cleaned" => Some(BotEvent::Cleaned),
        "runner failed" => Some(BotEvent::RunnerFailed),
        _ => read_counted(text),
    }
}
