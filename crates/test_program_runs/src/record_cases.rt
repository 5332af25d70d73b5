//! What comes of a run in which a call of its keeper failed, or whose records have a line that is cut.
use crate::cases::{Outcome, Place, check_as_they_stand, list_clock, make_ready};
use crate::failing_call::FailingCall;
use crate::link_cases::FAULT;
use crate::records::{compare_behind, put_cut};
use crate::running::{Ended, run_over, store_of};
use std::alloc::{AllocError, Global};
use std::sync::Wait;
use std::thread::Threads;
use swarm_keeper::MemoryStore;
use test_transcript_reader::{
    Transcript, TranscriptError, compare_console, compare_end, compare_nothing, compare_refused,
    compare_status,
};

/// The status of a run whose records are refused.
const REFUSED_RECORDS: u8 = 3;

/// The store of a transcript, whose keeper of this number fails at one call.
fn failing_store(alloc: Global, keeper: usize, number: u64) -> Result<MemoryStore, AllocError> {
    let mut keeper_fails = Vec::new(alloc);
    for _ in 0..keeper {
        keeper_fails.push(Vec::new(alloc))?;
    }
    keeper_fails.push(vec![in alloc; number]?)?;
    Ok(MemoryStore::new(alloc, Vec::new(alloc), keeper_fails))
}

/// Runs a transcript over its moments.
fn run_listed<T: Threads + Wait + Sync>(
    rt: &T,
    alloc: Global,
    place: Place<'_>,
    transcript: &Transcript,
    store: &mut MemoryStore,
) -> Result<Ended, AllocError> {
    let manner = place.failing(FailingCall::NoCall);
    let mut clock = list_clock(transcript);
    run_over(rt, alloc, transcript, manner, &mut clock, store)
}

/// A keeper's call failed that ended the run: nothing was printed and nothing changed, so that the run
/// before it, and then the run itself and those behind it, are as they stand.
fn check_stopped<T: Threads + Wait + Sync>(
    rt: &T,
    alloc: Global,
    place: Place<'_>,
    output: &[u8],
    store: &mut MemoryStore,
) -> Result<(), TranscriptError> {
    compare_nothing(alloc, place.transcript, output)?;
    let runs = place.runs;
    if let Some(before) = place.at.checked_sub(1) {
        check_as_they_stand(rt, alloc, runs, before, 1, store)?;
    }
    check_as_they_stand(rt, alloc, runs, place.at, runs.len(), store)
}

/// A keeper's append failed: the reply behind the first ones says so, and what the run answered last
/// is what the run behind it answers, where there is one.
fn check_refused<T: Threads + Wait + Sync>(
    rt: &T,
    alloc: Global,
    place: Place<'_>,
    appended: usize,
    output: &[u8],
    store: &mut MemoryStore,
) -> Result<(), TranscriptError> {
    compare_refused(alloc, &place.transcript.console, appended, output)?;
    let Some(next) = place.runs.get(place.at.saturating_add(1)) else {
        return Ok(());
    };
    let ended = run_listed(rt, alloc, place, next, store)?;
    compare_status(next, next.status, ended.status)?;
    compare_end(alloc, &next.console, output, ended.console.output())
}

/// The call of this number on the run's keeper fails, where `appended` appends before it have failed
/// in runs of their own.
pub(crate) fn keeper_case<T: Threads + Wait + Sync>(
    rt: &T,
    alloc: Global,
    place: Place<'_>,
    keeper: usize,
    number: u64,
    appended: usize,
) -> Result<Outcome, TranscriptError> {
    let transcript = place.transcript;
    let mut store = failing_store(alloc, keeper, number)?;
    make_ready(rt, alloc, place, &mut store)?;
    let ended = run_listed(rt, alloc, place, transcript, &mut store)?;
    let output = ended.console.output();
    if ended.status == FAULT {
        check_stopped(rt, alloc, place, output, &mut store)?;
        return Ok(Outcome::Stopped);
    }
    compare_status(transcript, transcript.status, ended.status)?;
    if compare_console(alloc, transcript, output).is_ok() {
        compare_behind(alloc, transcript, &mut store)?;
        return Ok(Outcome::Whole);
    }
    check_refused(rt, alloc, place, appended, output, &mut store)?;
    Ok(Outcome::WentOn)
}

/// Compares what was printed of the line that was cut.
fn compare_told(
    alloc: Global,
    transcript: &Transcript,
    wanted: String,
    output: &[u8],
) -> Result<(), TranscriptError> {
    if output == wanted.as_bytes() {
        return Ok(());
    }
    Err(TranscriptError::Reply {
        line: transcript.line,
        wanted,
        came: String::from_utf8_lossy(alloc, output)?,
    })
}

/// The line of this number that the run puts into its store is cut, where those of the base come before
/// those of the log: the line is told.
pub(crate) fn cut_case<T: Threads + Wait + Sync>(
    rt: &T,
    alloc: Global,
    place: Place<'_>,
    number: u64,
) -> Result<Outcome, TranscriptError> {
    let transcript = place.transcript;
    let mut store = store_of(alloc, transcript)?;
    make_ready(rt, alloc, place, &mut store)?;
    let Some(wanted) = put_cut(alloc, transcript, number as usize, &mut store)? else {
        return Ok(Outcome::Whole);
    };
    let ended = run_listed(rt, alloc, place, transcript, &mut store)?;
    compare_status(transcript, REFUSED_RECORDS, ended.status)?;
    compare_told(alloc, transcript, wanted, ended.console.output())?;
    Ok(Outcome::Stopped)
}
