//! Transcripts of the files of a folder.

use crate::{TextTest, TranscriptTest, check_folder, tell};
use std::io;
use std::rt::Files;
use test_transcript_reader::{Conversation, Transcript, TranscriptError, read};

/// The first of these transcripts, and those behind it that go on with its store.
fn runs_at_front(transcripts: &[Transcript]) -> &[Transcript] {
    let mut count = 0usize;
    for transcript in transcripts {
        if count > 0 && !transcript.is_again {
            break;
        }
        count = count.saturating_add(1);
    }
    &transcripts[..count.min(transcripts.len())]
}

/// What came of a transcript.
#[derive(Clone, Copy)]
struct Outcome {
    has_passed: bool,
    /// Whether it was run over lists, and passed there.
    is_over_lists: bool,
}

/// Tells where a transcript differs over a machine.
fn tell_error<R: Print + Eprint + AllocGlobal>(
    rt: &R,
    file: &str,
    transcript: &Transcript,
    machine: &str,
    error: &TranscriptError,
) -> io::Result<bool> {
    let line = error.line();
    let name = transcript.name.as_str();
    let failure = format!(in rt.alloc(); "{file}:{line}: {name}{machine}: {error}")?;
    tell(rt, failure.as_str())
}

/// Runs a transcript and those that go on with its store through the program, and answers whether it
/// passed.
fn run_whole<R: Print + Eprint + AllocGlobal, T: TranscriptTest>(
    rt: &R,
    file: &str,
    transcript: &Transcript,
    runs: &[Transcript],
    test: &T,
) -> io::Result<bool>
    requires { T.ready }
{
    let alloc = rt.alloc();
    match test.check(alloc, runs) {
        Ok(true) => Ok(true),
        Ok(false) => {
            let line = transcript.line;
            let name = transcript.name.as_str();
            tell(
                rt,
                format!(in alloc; "{file}:{line}: {name}: it is not run")?.as_str(),
            )
        }
        Err(error) => tell_error(rt, file, transcript, "", &error),
    }
}

/// Runs a transcript and those that go on with its store through the program and over lists.
fn run_transcript<R: Print + Eprint + AllocGlobal, T: TranscriptTest>(
    rt: &R,
    file: &str,
    transcript: &Transcript,
    runs: &[Transcript],
    test: &T,
) -> io::Result<Outcome>
    requires { T.ready }
{
    let has_passed = run_whole(rt, file, transcript, runs, test)?;
    match test.check_over_lists(rt.alloc(), runs) {
        Ok(is_over_lists) => Ok(Outcome {
            has_passed,
            is_over_lists,
        }),
        Err(error) => Ok(Outcome {
            has_passed: tell_error(rt, file, transcript, " over lists", &error)?,
            is_over_lists: false,
        }),
    }
}

fn replies_over(connections: &[Conversation]) -> usize {
    let mut replies = 0usize;
    for connection in connections {
        replies = replies.saturating_add(connection.replies.len());
    }
    replies
}

/// How many replies and printed lines a transcript has, over the console and over the links that come.
fn replies_of(transcript: &Transcript) -> usize {
    let mut replies = transcript.console.replies.len();
    replies = replies.saturating_add(replies_over(transcript.connections.as_slice()));
    for connections in &transcript.further_connections {
        replies = replies.saturating_add(replies_over(connections.as_slice()));
    }
    replies
}

/// Runs the transcripts of a text, and answers whether all of them passed.
fn run_text<R: Print + Eprint + AllocGlobal, T: TranscriptTest>(
    rt: &R,
    file: &str,
    transcripts: &[Transcript],
    test: &T,
) -> io::Result<bool>
    requires { T.ready }
{
    let mut has_passed = true;
    let mut count = 0usize;
    let mut replies = 0usize;
    let mut over_lists = 0usize;
    for (at, transcript) in transcripts.iter().enumerate() {
        replies = replies.saturating_add(replies_of(transcript));
        if transcript.is_again {
            continue;
        }
        let runs = runs_at_front(&transcripts[at..]);
        let outcome = run_transcript(rt, file, transcript, runs, test)?;
        count = count.saturating_add(1);
        over_lists = over_lists.saturating_add(usize::from(outcome.is_over_lists));
        has_passed = has_passed && outcome.has_passed;
    }
    let rest = count.saturating_sub(over_lists);
    println!(rt;
        "{file}: {count} transcripts, {replies} replies; {over_lists} over lists too, {rest} not"
    )?;
    Ok(has_passed)
}

/// The transcripts of a text as a test of it.
#[derive(Drop)]
struct TranscriptTexts<'a, T> {
    test: &'a T,
}

impl<'a, T: TranscriptTest> TextTest for TranscriptTexts<'a, T> {
    ghost ready = { T.ready };

    fn ending(&self) -> &str {
        ".transcript"
    }

    fn check_text<R: Print + Eprint + AllocGlobal>(
        &self,
        rt: &R,
        file: &str,
        text: &str,
    ) -> io::Result<bool> {
        let alloc = rt.alloc();
        match read(alloc, text) {
            Ok(transcripts) => run_text(rt, file, transcripts.as_slice(), self.test),
            Err(error) => {
                let line = error.line();
                tell(rt, format!(in alloc; "{file}:{line}: {error}")?.as_str())
            }
        }
    }
}

/// Runs the transcripts of all files of a folder, and answers whether all of them passed. What lies
/// in the folder and is no file of transcripts does not pass.
///
/// It prints how many transcripts and replies each file has, how many transcripts were run over lists
/// too and how many not, and each failure.
///
/// # Errors
///
/// The folder cannot be listed, the output cannot be written, or there is no memory.
pub fn run_folder<R: Files + Print + Eprint + AllocGlobal + Clone + Drop, T: TranscriptTest>(
    rt: &R,
    folder: &str,
    test: &T,
) -> io::Result<bool>
    requires { T.ready }
{
    check_folder(rt, folder, &TranscriptTexts { test })
}
