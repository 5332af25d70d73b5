ghost use Rattle.std.specs.Prelude.{IsTrue, ⊤};
ghost use Rattle.swarm_model.specs.Settings.{are_settings};

use crate::SessionSettings;
use std::alloc::{AllocError, Global};
use std::marker::PhantomData;
use sw_base::{Clock, ListClock, MemoryLink, StepClock};
use swarm_http::Ended;
use swarm_model::{Machine, Settings};
use test_programs::{TestedProgram, check_runs};
use test_sessions::serve_new;
use test_transcript_reader::{Transcript, TranscriptError, compare_console, compare_status};

/// The status with which the program ends once its session ended so.
fn exit_status(ended: Ended) -> u8 {
    match ended {
        Ended::Closed | Ended::LastAsked | Ended::Retired => 0,
        Ended::ReadFault | Ended::WriteFault => 4,
        Ended::CutShort | Ended::BadHead => 7,
    }
}

/// Serves the console of a transcript under these settings, and compares what was written and how it
/// ended.
fn check_session<M: Machine + Drop, C: Clock>(
    alloc: Global,
    settings: &Settings,
    transcript: &Transcript,
    piece: usize,
    clock: &mut C,
) -> Result<(), TranscriptError>
    requires rules { IsTrue (are_settings settings.now) }
{
    let input = Vec::from_slice(alloc, transcript.console.input.as_slice())?;
    let fails = Vec::from_slice(alloc, transcript.console.fails.as_slice())?;
    let mut link = MemoryLink::new(alloc, input, piece, fails);
    let ended = serve_new::<M, MemoryLink, C>(alloc, settings, &mut link, clock)?;
    compare_console(alloc, transcript, link.output())?;
    compare_status(transcript, transcript.status, exit_status(ended))
}

/// The same under the settings of the transcript, where it has some.
fn check_settings<M: Machine + Drop, S: SessionSettings, C: Clock>(
    alloc: Global,
    transcript: &Transcript,
    piece: usize,
    clock: &mut C,
) -> Result<(), TranscriptError> {
    match S::settings_of(alloc, transcript)? {
        Some(settings) => check_session::<M, C>(alloc, &settings, transcript, piece, clock),
        None => Ok(()),
    }
}

/// The word `session` over machines of one kind, of which nothing is kept.
#[derive(Drop)]
struct SessionProgram<M, S> {
    machine: PhantomData<M>,
    settings: PhantomData<S>,
}

impl<M: Machine + Drop, S: SessionSettings> TestedProgram for SessionProgram<M, S> {
    ghost ready = { ⊤ };

    fn renew_store(&mut self, _alloc: Global, _first: &Transcript) -> Result<(), AllocError> {
        Ok(())
    }

    fn check_listed(
        &mut self,
        alloc: Global,
        transcript: &Transcript,
        piece: usize,
        clock: &mut ListClock<'_>,
    ) -> Result<(), TranscriptError> {
        check_settings::<M, S, ListClock<'_>>(alloc, transcript, piece, clock)
    }

    fn check_stepped(
        &mut self,
        alloc: Global,
        transcript: &Transcript,
        piece: usize,
        clock: &mut StepClock,
    ) -> Result<(), TranscriptError> {
        check_settings::<M, S, StepClock>(alloc, transcript, piece, clock)
    }
}

fn are_sessions<S: SessionSettings>(
    alloc: Global,
    runs: &[Transcript],
) -> Result<bool, TranscriptError> {
    for transcript in runs {
        if S::settings_of(alloc, transcript)?.is_none() {
            return Ok(false);
        }
    }
    Ok(true)
}

/// Runs a transcript and those that stand behind it as its next runs over machines of this kind, for
/// each size of its pieces and each of its clocks, and answers whether it did: it runs none of them
/// where one has no settings.
///
/// # Errors
///
/// The first run that writes other bytes, ends with another status, or asks for more moments or for
/// fewer, and want of memory.
pub fn check_sessions<M: Machine + Drop, S: SessionSettings>(
    alloc: Global,
    runs: &[Transcript],
) -> Result<bool, TranscriptError> {
    if !are_sessions::<S>(alloc, runs)? {
        return Ok(false);
    }
    let mut program = SessionProgram::<M, S> {
        machine: PhantomData,
        settings: PhantomData,
    };
    check_runs(alloc, runs, &mut program)?;
    Ok(true)
}
