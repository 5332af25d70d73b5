//! Runs of a transcript in each of which another call fails, until one meets none that fails.
use crate::checking::check_over;
use crate::dial_cases::{dial_case, dialed_case};
use crate::failing_call::FailingCall;
use crate::link_cases::{connection_case, console_case};
use crate::record_cases::{cut_case, keeper_case};
use crate::records::put_before;
use crate::running::Manner;
use std::alloc::Global;
use std::sync::Wait;
use std::thread::Threads;
use sw_base::{ListClock, StepClock};
use swarm_keeper::MemoryStore;
use test_transcript_reader::{Each, Transcript, TranscriptError};

/// What came of a run in which a call was to fail.
#[derive(Clone, Copy, Debug, PartialEq, Eq)]
pub(crate) enum Outcome {
    /// The call failed and ended the run.
    Stopped,
    /// The call failed, and the run went on.
    WentOn,
    /// No call failed.
    Whole,
}

/// How many runs there were in which a call failed.
#[derive(Clone, Copy)]
struct Counts {
    stopped: usize,
    went_on: usize,
}

impl Counts {
    fn add(&mut self, outcome: Outcome) {
        match outcome {
            Outcome::Stopped => self.stopped = self.stopped.saturating_add(1),
            Outcome::WentOn => self.went_on = self.went_on.saturating_add(1),
            Outcome::Whole => {}
        }
    }

    fn sum(&self) -> usize {
        self.stopped.saturating_add(self.went_on)
    }
}

/// A run of a transcript among those over one store.
#[derive(Clone, Copy)]
pub(crate) struct Place<'a> {
    pub(crate) runs: &'a [Transcript],
    pub(crate) at: usize,
    pub(crate) transcript: &'a Transcript,
}

impl<'a> Place<'a> {
    /// How the run is done where a call fails.
    pub(crate) fn failing(&self, failing: FailingCall) -> Manner {
        Manner {
            failing,
            ..Manner::in_pieces(self.transcript.pieces.first)
        }
    }
}

/// A clock of the moments of a transcript.
pub(crate) fn list_clock(transcript: &Transcript) -> ListClock<'_> {
    ListClock {
        moments: transcript.moments.as_slice(),
        asked: 0,
        waited: 0,
    }
}

/// A clock that stays at the first moment of a transcript, but for what is waited.
pub(crate) fn still_clock(transcript: &Transcript) -> StepClock {
    StepClock {
        at: transcript.moments.first().copied().unwrap_or(0),
        step: 0,
        waited: 0,
    }
}

/// Runs so many transcripts as they stand, one after the other over a store, of those over one store
/// from the one at a place on.
pub(crate) fn check_as_they_stand<T: Threads + Wait + Sync>(
    rt: &T,
    alloc: Global,
    runs: &[Transcript],
    from: usize,
    count: usize,
    store: &mut MemoryStore,
) -> Result<(), TranscriptError> {
    for transcript in runs.iter().skip(from).take(count) {
        let mut clock = list_clock(transcript);
        let piece = transcript.pieces.first;
        check_over(rt, alloc, transcript, piece, &mut clock, store)?;
    }
    Ok(())
}

/// Makes a store ready for a run: those before it go as they stand, and what it puts is there.
pub(crate) fn make_ready<T: Threads + Wait + Sync>(
    rt: &T,
    alloc: Global,
    place: Place<'_>,
    store: &mut MemoryStore,
) -> Result<(), TranscriptError> {
    check_as_they_stand(rt, alloc, place.runs, 0, place.at, store)?;
    put_before(alloc, place.transcript, store)
}

/// The run in which the call of this number fails.
fn check_case<T: Threads + Wait + Sync>(
    rt: &T,
    alloc: Global,
    place: Place<'_>,
    each: Each,
    number: u64,
    went_on: usize,
) -> Result<Outcome, TranscriptError> {
    match each {
        Each::LinkCall => console_case(rt, alloc, place, number),
        Each::ConnectionCall { at } => connection_case(rt, alloc, place, at, number),
        Each::DialedCall { at } => dialed_case(rt, alloc, place, at, number),
        Each::Dial => dial_case(rt, alloc, place, number),
        Each::KeeperCall { keeper, .. } => keeper_case(rt, alloc, place, keeper, number, went_on),
        Each::CutLine => cut_case(rt, alloc, place, number),
    }
}

/// How many lines are in the first records that a run puts.
fn lines_put(transcript: &Transcript) -> usize {
    match transcript.records_before.first() {
        Some(records) => records.base.len().saturating_add(records.lines.len()),
        None => 0,
    }
}

/// How many runs there are to be in which a call fails, of those in which so many failed: one at least.
fn wanted_count(transcript: &Transcript, each: Each, counts: Counts) -> usize {
    let wanted = match each {
        Each::KeeperCall { appends, .. } => counts.stopped.saturating_add(appends),
        Each::Dial => transcript.dials.len(),
        Each::CutLine => lines_put(transcript),
        _ => counts.sum(),
    };
    wanted.max(1)
}

/// The error of a case.
fn case_error(alloc: Global, number: u64, error: TranscriptError) -> TranscriptError {
    match format!(in alloc; "{error}") {
        Ok(text) => TranscriptError::Case {
            line: error.line(),
            number,
            text,
        },
        Err(_) => TranscriptError::Memory,
    }
}

/// Runs a transcript once for each call that is to fail, until one meets none.
fn check_each<T: Threads + Wait + Sync>(
    rt: &T,
    alloc: Global,
    place: Place<'_>,
    each: Each,
) -> Result<(), TranscriptError> {
    let mut counts = Counts {
        stopped: 0,
        went_on: 0,
    };
    for number in 0..u64::MAX {
        match check_case(rt, alloc, place, each, number, counts.went_on) {
            Ok(Outcome::Whole) => break,
            Ok(outcome) => counts.add(outcome),
            Err(error) => return Err(case_error(alloc, number, error)),
        }
    }
    let wanted = wanted_count(place.transcript, each, counts);
    if wanted == counts.sum() {
        return Ok(());
    }
    Err(TranscriptError::Cases {
        line: place.transcript.line,
        wanted,
        came: counts.sum(),
    })
}

/// Runs each of these transcripts, over new stores that those before it begin, once for each call that
/// is to fail by what it says.
pub(crate) fn check_cases<T: Threads + Wait + Sync>(
    rt: &T,
    alloc: Global,
    runs: &[Transcript],
) -> Result<(), TranscriptError> {
    for (at, transcript) in runs.iter().enumerate() {
        let place = Place {
            runs,
            at,
            transcript,
        };
        for each in transcript.each.iter() {
            check_each(rt, alloc, place, *each)?;
        }
    }
    Ok(())
}
