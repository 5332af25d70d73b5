//! A progress, as it is read.
ghost use Rattle.std.specs.Prelude.{◌≡◌, ◌≢◌, ◌≤◌, ◌<◌, ℕ, List, length, IfOk, IfSome, Some, None, true, option_map};
ghost use Rattle.swarm_batch.specs.declared.mark.Mark.{Mark as SpecMark};
ghost use Rattle.swarm_batch.specs.Lines.{ended, IsCut};
ghost use Rattle.swarm_batch.specs.Marks.{is_mark, mark_line as spec_mark_line};
ghost use Rattle.swarm_batch.specs.Progress.{AddsMark, TellsMarks, TellsProgress, TellsDone};

use crate::faults::{BatchFault, BatchRule};
use crate::lines::{Cut, cut_lines};
use crate::mark::Mark;
use crate::word::read_word;
use dimensions::Seq;
use std::alloc::{AllocError, Global};

/// The mark that a line of a progress tells of this line of the file.
fn read_mark(alloc: Global, line: usize, text: &[u8]) -> Result<Option<Mark>, AllocError>
    ensures is { IfOk result (λ o. IfSome o (λ mark. (is_mark mark ≡ true) × (spec_mark_line line mark ≡ ended text.now))) }
    ensures found { IfOk result (λ o. (mark : SpecMark) → is_mark mark ≡ true → spec_mark_line line mark ≡ ended text.now → o ≡ Some mark) }
{
    let front = format!(in alloc; "{line} ")?;
    let Some(word) = text.strip_prefix(front.as_bytes()) else {
        return Ok(None);
    };
    read_word(alloc, word)
}

/// The same, where the file has such a line.
fn mark_within(
    alloc: Global,
    most: usize,
    line: usize,
    text: &[u8],
) -> Result<Option<Mark>, AllocError>
    ensures is { IfOk result (λ o. IfSome o (λ mark. (line ≤ most) × (is_mark mark ≡ true) × (spec_mark_line line mark ≡ ended text.now))) }
    ensures none { IfOk result (λ o. o ≡ None → line ≤ most → (mark : SpecMark) → is_mark mark ≡ true → spec_mark_line line mark ≢ ended text.now) }
{
    if line > most {
        return Ok(None);
    }
    read_mark(alloc, line, text)
}

/// Takes one more line of a progress.
fn add_mark(
    alloc: Global,
    most: usize,
    marks: &mut Seq<Mark>,
    text: &[u8],
) -> Result<(), BatchFault>
    requires most { most ≤ 4096 }
    requires few { length marks.old ≤ most }
    ensures { AddsMark most text.now marks.old marks.new result }
{
    let line = marks.as_slice().len() + 1;
    match mark_within(alloc, most, line, text)? {
        Some(mark) => {
            marks.try_push(mark)?;
            Ok(())
        }
        None => Err(BatchFault::Broken {
            line: line as u32,
            rule: BatchRule::Progress,
        }),
    }
}

/// The marks of lines of which each has one.
fn marks_of(alloc: Global, most: usize, cut: &Cut) -> Result<Seq<Mark>, BatchFault>
    requires { most ≤ 4096 }
    ensures { (body : List ℕ) → IsCut body cut.now → TellsMarks most body result }
{
    let mut marks = Seq::new(alloc);
    for text in cut.lines.as_slice() {
        match add_mark(alloc, most, &mut marks, text.as_slice()) {
            Ok(()) => {}
            Err(fault) => return Err(fault),
        }
    }
    if cut.rest.as_slice().is_empty() {
        Ok(marks)
    } else {
        Err(BatchFault::Broken {
            line: marks.as_slice().len() as u32 + 1,
            rule: BatchRule::Progress,
        })
    }
}

/// The marks that a progress tells of so many lines, under the line that names the file and the batch.
pub(crate) fn read_marks(
    alloc: Global,
    most: usize,
    head: &str,
    text: &[u8],
) -> Result<Seq<Mark>, BatchFault>
    requires { most ≤ 4096 }
    ensures { TellsProgress most head.now text.now result }
{
    let front = format!(in alloc; "{head}\n")?;
    let Some(rest) = text.strip_prefix(front.as_bytes()) else {
        return Err(BatchFault::Broken {
            line: 0,
            rule: BatchRule::Changed,
        });
    };
    let cut = cut_lines(alloc, rest)?;
    marks_of(alloc, most, &cut)
}

/// The same of the lines of a file; where there is no progress, none is done.
pub(crate) fn read_done(
    alloc: Global,
    lines: &[Seq<u8>],
    head: &str,
    done: Option<&[u8]>,
) -> Result<Seq<Mark>, BatchFault>
    requires { length lines.now ≤ 4096 }
    ensures { TellsDone (length lines.now) head.now (option_map (λ text. text.now) done.entry) result }
{
    match done {
        Some(text) => read_marks(alloc, lines.len(), head, text),
        None => Ok(Seq::new(alloc)),
    }
}
