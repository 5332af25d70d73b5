//! What comes of a run in which a call failed on a link over which requests come.
use crate::cases::{Outcome, Place, list_clock, make_ready, still_clock};
use crate::checking::compare_ended;
use crate::failing_call::FailingCall;
use crate::links::has_served_failing;
use crate::records::{compare_begun_behind, compare_behind};
use crate::running::{run_over, store_of};
use std::alloc::Global;
use std::sync::Wait;
use std::thread::Threads;
use test_transcript_reader::{TranscriptError, compare_begun, compare_status};

/// The status of a run that a failing call ended.
pub(crate) const FAULT: u8 = 4;

/// The call of this number on the console fails: the run ends with status 4, and what it wrote is the
/// beginning of its replies.
pub(crate) fn console_case<T: Threads + Wait + Sync>(
    rt: &T,
    alloc: Global,
    place: Place<'_>,
    number: u64,
) -> Result<Outcome, TranscriptError> {
    let transcript = place.transcript;
    let mut store = store_of(alloc, transcript)?;
    make_ready(rt, alloc, place, &mut store)?;
    let manner = place.failing(FailingCall::OnConsole(number));
    let mut clock = list_clock(transcript);
    let ended = run_over(rt, alloc, transcript, manner, &mut clock, &mut store)?;
    let console = &ended.console;
    if !console.has_failed() {
        return Ok(Outcome::Whole);
    }
    compare_status(transcript, FAULT, ended.status)?;
    let (output, flushed) = (console.output(), console.flushed_output());
    let begun = compare_begun(alloc, &transcript.console, output, flushed)?;
    compare_begun_behind(alloc, transcript, begun, &mut store)?;
    Ok(Outcome::Stopped)
}

/// The call of this number fails on the link of number `at` that comes: what was written to it is the
/// beginning of its replies, and all else is as it stands.
pub(crate) fn connection_case<T: Threads + Wait + Sync>(
    rt: &T,
    alloc: Global,
    place: Place<'_>,
    at: usize,
    number: u64,
) -> Result<Outcome, TranscriptError> {
    let transcript = place.transcript;
    let mut store = store_of(alloc, transcript)?;
    make_ready(rt, alloc, place, &mut store)?;
    let manner = place.failing(FailingCall::OnConnection { at, number });
    let mut clock = still_clock(transcript);
    let ended = run_over(rt, alloc, transcript, manner, &mut clock, &mut store)?;
    compare_ended(alloc, transcript, manner, &ended)?;
    compare_behind(alloc, transcript, &mut store)?;
    Ok(if has_served_failing(&ended.listener, at) {
        Outcome::WentOn
    } else {
        Outcome::Whole
    })
}
