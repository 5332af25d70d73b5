use crate::TranscriptError;
use crate::names::Names;
use crate::parts::{form_error, read_number, read_numbers};
use dimensions::Seq;
use runners::RunnerAnswer;
use std::alloc::Global;

/// An answer that has nothing behind its word.
fn bare_answer(
    alloc: Global,
    line: usize,
    answer: RunnerAnswer,
    rest: &str,
) -> Result<RunnerAnswer, TranscriptError> {
    if rest.is_empty() {
        Ok(answer)
    } else {
        Err(form_error(alloc, line, "nothing behind the answer", rest))
    }
}

/// What a runner answers to one call, as a line tells it: a word, and what stands behind it.
pub(crate) fn read_runner_answer(
    alloc: Global,
    line: usize,
    names: &mut Names,
    entry: &str,
) -> Result<RunnerAnswer, TranscriptError> {
    let (word, rest) = entry.split_once(' ').unwrap_or((entry, ""));
    match word {
        "done" => bare_answer(alloc, line, RunnerAnswer::Done, rest),
        "output" => Ok(RunnerAnswer::Output {
            bytes: Seq::from_vec(names.expand(alloc, line, rest)?),
        }),
        "quiet" => bare_answer(alloc, line, RunnerAnswer::Quiet, rest),
        "ended" => Ok(RunnerAnswer::Ended {
            code: read_number(alloc, line, rest)?,
        }),
        "file" => Ok(RunnerAnswer::File {
            bytes: Seq::from_vec(names.expand(alloc, line, rest)?),
        }),
        "no_file" => bare_answer(alloc, line, RunnerAnswer::NoFile, rest),
        "cleaned" => Ok(RunnerAnswer::Cleaned {
            sizes: Seq::from_vec(read_numbers(alloc, line, rest)?),
        }),
        "fails" => bare_answer(alloc, line, RunnerAnswer::Failure, rest),
        _ => Err(form_error(alloc, line, "an answer of a runner", word)),
    }
}
