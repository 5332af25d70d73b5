use std::alloc::{AllocError, Global};
use sw_base::{ListClock, StepClock};
use test_transcript_reader::{Transcript, TranscriptError, compare_moments, compare_waits};

/// A program that transcripts test, with all that stands around it but the clock.
pub trait TestedProgram {
    // What a run asks for, as that threads may share the runtime of a program that starts some.
    ghost ready: { Type 0 };

    /// Gives it a new store, as this transcript says, for this one and those that go on with it.
    ///
    /// # Errors
    ///
    /// Want of memory.
    fn renew_store(&mut self, alloc: Global, first: &Transcript) -> Result<(), AllocError>;

    /// Runs it by a transcript over a clock of its moments, its bytes in pieces of this size, and
    /// compares what it wrote and its status.
    ///
    /// # Errors
    ///
    /// The first thing that differs, and want of memory.
    fn check_listed(
        &mut self,
        alloc: Global,
        transcript: &Transcript,
        piece: usize,
        clock: &mut ListClock<'_>,
    ) -> Result<(), TranscriptError>
        requires { ready };

    /// The same over a clock that goes on by a step.
    ///
    /// # Errors
    ///
    /// As `check_listed`.
    fn check_stepped(
        &mut self,
        alloc: Global,
        transcript: &Transcript,
        piece: usize,
        clock: &mut StepClock,
    ) -> Result<(), TranscriptError>
        requires { ready };
}

/// Runs transcripts one after the other over one store and their moments, each of which has to be
/// asked for, and compares the seconds that they wait.
fn check_moments<P: TestedProgram>(
    alloc: Global,
    runs: &[Transcript],
    piece: usize,
    program: &mut P,
) -> Result<(), TranscriptError>
    requires { P.ready }
{
    for transcript in runs {
        let mut clock = ListClock {
            moments: transcript.moments.as_slice(),
            asked: 0,
            waited: 0,
        };
        program.check_listed(alloc, transcript, piece, &mut clock)?;
        compare_moments(transcript, clock.asked)?;
        compare_waits(transcript, clock.waited)?;
    }
    Ok(())
}

/// Runs transcripts one after the other over one store, and over clocks that begin at their first
/// moments and go on by a step.
fn check_step<P: TestedProgram>(
    alloc: Global,
    runs: &[Transcript],
    piece: usize,
    step: u64,
    program: &mut P,
) -> Result<(), TranscriptError>
    requires { P.ready }
{
    for transcript in runs {
        let at = transcript.moments.first().copied().unwrap_or(0);
        let mut clock = StepClock {
            at,
            step,
            waited: 0,
        };
        program.check_stepped(alloc, transcript, piece, &mut clock)?;
    }
    Ok(())
}

/// Runs transcripts one after the other over new stores of the first one, for each size of its
/// pieces.
fn check_sizes<P: TestedProgram>(
    alloc: Global,
    first: &Transcript,
    runs: &[Transcript],
    program: &mut P,
) -> Result<(), TranscriptError>
    requires { P.ready }
{
    for piece in first.pieces.first..=first.pieces.last {
        program.renew_store(alloc, first)?;
        check_moments(alloc, runs, piece, program)?;
        if let Some(step) = first.step {
            program.renew_store(alloc, first)?;
            check_step(alloc, runs, piece, step, program)?;
        }
    }
    Ok(())
}

/// Runs a program by a transcript and by those that go on with its store, each time from a new store
/// on: for each size of the first one's pieces over their moments, and over the clock of its step
/// where it has one.
///
/// # Errors
///
/// The first run that differs from its transcript, or that asks for more moments or waits for more
/// seconds or for fewer, and want of memory.
pub fn check_runs<P: TestedProgram>(
    alloc: Global,
    runs: &[Transcript],
    program: &mut P,
) -> Result<(), TranscriptError>
    requires { P.ready }
{
    match runs.first() {
        Some(first) => check_sizes(alloc, first, runs, program),
        None => Ok(()),
    }
}
