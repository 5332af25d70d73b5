use std::alloc::Global;
use test_transcript_reader::{Transcript, TranscriptError};

/// How the transcripts of a folder are run: over the machine of the program, and over the one that scans
/// lists.
pub trait TranscriptTest {
    // What a run asks for, as that threads may share the runtime of a program that starts some.
    ghost ready: { Type 0 };

    /// Runs a transcript and those that go on with its store, and answers whether it did.
    ///
    /// # Errors
    ///
    /// The first thing that differs, and want of memory.
    fn check(&self, alloc: Global, runs: &[Transcript]) -> Result<bool, TranscriptError>
        requires { ready };

    /// Does the same over machines that scan lists.
    ///
    /// # Errors
    ///
    /// As `check`.
    fn check_over_lists(&self, alloc: Global, runs: &[Transcript]) -> Result<bool, TranscriptError>;
}
