//! Tests that stand as rows in the text files of a folder, and programs that transcripts test: whatever
//! can be run by one over a clock.
//!
//! [`check_folder`] gives the text of each file of a folder, in the order of their names, to a
//! [`TextTest`], and answers whether all of them passed. A failure is told by [`tell`]: whole on standard
//! output, which the gate compares, and cut short on standard error.
//!
//! [`check_runs`] runs a [`TestedProgram`] by a transcript and by those that go on with its store, once
//! for each size of its pieces: over their moments, and over the clock of its step where it has one.
//! The program compares what it wrote and its status with the transcript; the moments that were asked
//! for, and the seconds that were waited, are compared here. [`run_folder`] takes the transcripts of all
//! files of a folder, and has each run by a [`TranscriptTest`]. What a transcript says is read by
//! `test_transcript_reader`.
#![tactic(auto)]

mod folder;
mod running;
mod telling;
mod tested_program;
mod text_test;
mod transcript_test;

pub use folder::{check_folder, names_of};
pub use running::run_folder;
pub use telling::tell;
pub use tested_program::{TestedProgram, check_runs};
pub use text_test::TextTest;
pub use transcript_test::TranscriptTest;
