ghost use Rattle.std.specs.Thread.{IsSync};

use crate::cases::check_cases;
use crate::failing_call::FailingCall;
use crate::links::{compare_dialed, compare_served};
use crate::records::{compare_behind, put_before};
use crate::running::{Ended, Manner, run_over, store_of};
use std::alloc::{AllocError, Global};
use std::marker::Send;
use std::sync::Wait;
use std::thread::Threads;
use sw_base::{Clock, ListClock, StepClock};
use swarm_keeper::MemoryStore;
use test_programs::{TestedProgram, check_runs};
use test_transcript_reader::{
    Transcript, TranscriptError, compare_console, compare_nothing, compare_runner, compare_status,
};

/// Compares what a run wrote, what is left of the runner's answers, and the status.
pub(crate) fn compare_ended(
    alloc: Global,
    transcript: &Transcript,
    manner: Manner,
    ended: &Ended,
) -> Result<(), TranscriptError> {
    compare_served(alloc, transcript, &ended.listener, manner.failing)?;
    compare_dialed(alloc, transcript, &ended.dialer, manner.failing)?;
    compare_console(alloc, transcript, ended.console.output())?;
    compare_runner(transcript, ended.runner.answers_left())?;
    compare_status(transcript, transcript.status, ended.status)
}

/// Runs a transcript over a clock and a store, its bytes in pieces of this size, and compares what
/// was written, what is left of the runner's answers, the status, and what the store keeps.
pub(crate) fn check_over<T: Threads + Wait + Sync, C: Clock + Drop + Send>(
    rt: &T,
    alloc: Global,
    transcript: &Transcript,
    piece: usize,
    clock: &mut C,
    store: &mut MemoryStore,
) -> Result<(), TranscriptError> {
    put_before(alloc, transcript, store)?;
    let manner = Manner::in_pieces(piece);
    let ended = run_over(rt, alloc, transcript, manner, clock, store)?;
    compare_ended(alloc, transcript, manner, &ended)?;
    compare_behind(alloc, transcript, store)
}

/// Runs a transcript with what its last dialed link gives cut at a place: nothing is printed, and
/// the status is this one.
fn check_cut<T: Threads + Wait + Sync>(
    rt: &T,
    alloc: Global,
    transcript: &Transcript,
    most: usize,
    wanted: u8,
    store: &mut MemoryStore,
) -> Result<(), TranscriptError> {
    let mut clock = StepClock {
        at: 0,
        step: 0,
        waited: 0,
    };
    let manner = Manner {
        piece: most.max(1),
        failing: FailingCall::NoCall,
        most: Some(most),
    };
    let ended = run_over(rt, alloc, transcript, manner, &mut clock, store)?;
    compare_nothing(alloc, transcript, ended.console.output())?;
    compare_status(transcript, wanted, ended.status)
}

/// Runs a transcript with what its last dialed link gives cut at each place.
fn check_cuts<T: Threads + Wait + Sync>(
    rt: &T,
    alloc: Global,
    transcript: &Transcript,
    store: &mut MemoryStore,
) -> Result<(), TranscriptError> {
    let (Some(wanted), Some(last)) = (transcript.cut_status, transcript.dials.last()) else {
        return Ok(());
    };
    for most in 0..last.input.len() {
        check_cut(rt, alloc, transcript, most, wanted, store)?;
    }
    Ok(())
}

/// The program by its words, over a store in memory.
#[derive(Drop)]
struct WholeProgram<'a, T> {
    rt: &'a T,
    store: MemoryStore,
}

impl<'a, T: Threads + Wait + Sync> TestedProgram for WholeProgram<'a, T> {
    ghost ready = { IsSync T.row };

    fn renew_store(&mut self, alloc: Global, first: &Transcript) -> Result<(), AllocError> {
        self.store = store_of(alloc, first)?;
        Ok(())
    }

    fn check_listed(
        &mut self,
        alloc: Global,
        transcript: &Transcript,
        piece: usize,
        clock: &mut ListClock<'_>,
    ) -> Result<(), TranscriptError> {
        check_over(self.rt, alloc, transcript, piece, clock, &mut self.store)
    }

    fn check_stepped(
        &mut self,
        alloc: Global,
        transcript: &Transcript,
        piece: usize,
        clock: &mut StepClock,
    ) -> Result<(), TranscriptError> {
        check_over(self.rt, alloc, transcript, piece, clock, &mut self.store)
    }
}

/// Runs a transcript and those that go on with its store, each time from a new store on: for each
/// size of its pieces over their moments, and over the clock of its step where it has one, with
/// what its last dialed link gives cut at each place where it says so, and once for each call that is
/// to fail where it says so.
///
/// # Errors
///
/// The first run that writes other bytes, ends with another status, leaves answers of its runner,
/// or asks for more moments or waits for more seconds or for fewer, and want of memory.
pub fn check<T: Threads + Wait + Sync>(
    rt: &T,
    alloc: Global,
    runs: &[Transcript],
) -> Result<(), TranscriptError> {
    let Some(first) = runs.first() else {
        return Ok(());
    };
    let store = store_of(alloc, first)?;
    check_runs(alloc, runs, &mut WholeProgram { rt, store })?;
    check_cuts(rt, alloc, first, &mut store_of(alloc, first)?)?;
    check_cases(rt, alloc, runs)
}
