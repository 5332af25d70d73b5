//! What comes of a run of a bot in which a dial failed, or a call on a dialed link.
use crate::cases::{Outcome, Place, still_clock};
use crate::checking::compare_ended;
use crate::failing_call::FailingCall;
use crate::links::has_dialed_failing;
use crate::running::{run_over, store_of};
use std::alloc::Global;
use std::sync::Wait;
use std::thread::Threads;
use test_transcript_reader::{Transcript, TranscriptError};

/// How many seconds a bot waits before it sends a request again.
const SECONDS_TO_WAIT: u64 = 5;

/// Compares how many seconds a run waited in which a request was sent again.
fn compare_longer_waits(transcript: &Transcript, waited: u64) -> Result<(), TranscriptError> {
    let waits = transcript.waits.unwrap_or(0);
    let wanted = waits.saturating_add(SECONDS_TO_WAIT);
    if waited == wanted {
        return Ok(());
    }
    Err(TranscriptError::Waits {
        line: transcript.line,
        wanted,
        came: waited,
    })
}

/// The dial of this number fails: the request is sent over the next one, five seconds later.
pub(crate) fn dial_case<T: Threads + Wait + Sync>(
    rt: &T,
    alloc: Global,
    place: Place<'_>,
    number: u64,
) -> Result<Outcome, TranscriptError> {
    let transcript = place.transcript;
    let mut store = store_of(alloc, transcript)?;
    let manner = place.failing(FailingCall::Dial(number));
    let mut clock = still_clock(transcript);
    let ended = run_over(rt, alloc, transcript, manner, &mut clock, &mut store)?;
    compare_ended(alloc, transcript, manner, &ended)?;
    if Some(clock.waited) == transcript.waits {
        return Ok(Outcome::Whole);
    }
    compare_longer_waits(transcript, clock.waited)?;
    Ok(Outcome::WentOn)
}

/// The call of this number fails on the link of number `at` that is dialed: what was written to it is the
/// beginning of its request, which is sent again over the next one, five seconds later.
pub(crate) fn dialed_case<T: Threads + Wait + Sync>(
    rt: &T,
    alloc: Global,
    place: Place<'_>,
    at: usize,
    number: u64,
) -> Result<Outcome, TranscriptError> {
    let transcript = place.transcript;
    let mut store = store_of(alloc, transcript)?;
    let manner = place.failing(FailingCall::OnDialed { at, number });
    let mut clock = still_clock(transcript);
    let ended = run_over(rt, alloc, transcript, manner, &mut clock, &mut store)?;
    if !has_dialed_failing(&ended.dialer, at) {
        return Ok(Outcome::Whole);
    }
    compare_ended(alloc, transcript, manner, &ended)?;
    compare_longer_waits(transcript, clock.waited)?;
    Ok(Outcome::WentOn)
}
