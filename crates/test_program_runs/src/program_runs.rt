ghost use Rattle.std.specs.Thread.{IsSync};

use crate::check;
use std::alloc::Global;
use std::sync::Wait;
use std::thread::Threads;
use swarm_plain::ListPool;
use test_programs::TranscriptTest;
use test_session_runs::{FileSettings, check_sessions};
use test_transcript_reader::{Transcript, TranscriptError};

/// Transcripts through the program, and those that need no more than `session` over machines that scan
/// lists too. The threads of a program with several workers are those of the handle.
#[derive(Drop)]
pub struct ProgramRuns<'a, T> {
    pub rt: &'a T,
}

impl<'a, T: Threads + Wait + Sync> TranscriptTest for ProgramRuns<'a, T> {
    ghost ready = { IsSync T.row };

    fn check(&self, alloc: Global, runs: &[Transcript]) -> Result<bool, TranscriptError> {
        check(self.rt, alloc, runs)?;
        Ok(true)
    }

    fn check_over_lists(
        &self,
        alloc: Global,
        runs: &[Transcript],
    ) -> Result<bool, TranscriptError> {
        check_sessions::<ListPool, FileSettings>(alloc, runs)
    }
}
