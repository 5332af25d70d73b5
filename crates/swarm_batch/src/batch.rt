//! The batch.
ghost use Rattle.std.specs.Prelude.{◌≡◌, ◌++◌, ◌∷◌, [], ◌+◌, ◌<◌, ◌≤◌, length, Some, None, IfOk, OnErr, IsSome, option_map, string_bytes, true};
ghost use Rattle.json_fields.specs.Readings.{reading};
ghost use Rattle.swarm_batch.specs.Names.{is_batch_name};
ghost use Rattle.swarm_batch.specs.Batches.{next_line, body_data, uuid_of as spec_uuid_of, AreMarks};
ghost use Rattle.swarm_batch.specs.Named.{named_in};
ghost use Rattle.std.specs.List.{list_all};
ghost use Rattle.swarm_batch.specs.Marks.{is_mark, progress_text, mark_lines};
ghost use Rattle.swarm_batch.specs.Progress.{TellsDone};
ghost use Rattle.swarm_batch.specs.Told.{told_mark as spec_told_mark, Marks};
ghost use Rattle.swarm_batch.specs.Reopened.{IsBatchRead, IsReadAgain};

use crate::faults::BatchFault;
use crate::mark::{Mark, Marked, mark_line};
use crate::named::name_task;
use crate::names::batch_head;
use crate::progress::read_done;
use crate::reading::read_lines;
use crate::told::{is_again, told_mark};
use dimensions::{Seq, Text};
use server_calls::Told;
use std::alloc::{AllocError, Global};
use std::marker::Model;

/// A file of tasks, and what has become of its first lines.
#[derive(Drop)]
pub struct Batch {
    head: Text,
    name: Text,
    lines: Seq<Seq<u8>>,
    marks: Seq<Mark>,
    ghost few: { length lines ≤ 4096 },
    ghost are_marks: { AreMarks (length lines) marks },
}

impl Model for Batch {
    ghost use Rattle.swarm_batch.specs.Batches.{BatchValue};

    ghost Value = { BatchValue };

    ghost view = { λ b. record { head = b.head; name = b.name; lines = b.lines; marks = b.marks } };
}

impl Batch {
    /// The batch of a file under a name, with what its progress tells; where there is none, no line is
    /// done.
    pub fn read(
        alloc: Global,
        text: &[u8],
        name: &str,
        done: Option<&[u8]>,
    ) -> Result<Batch, BatchFault>
        requires { is_batch_name name.now ≡ true }
        ensures { IsBatchRead text.now name.now (option_map (λ text. text.now) done.entry) result }
    {
        let cut = read_lines(alloc, text)?;
        let head = batch_head(alloc, text, name)?;
        let called = Text::from_str(alloc, name)?;
        match read_done(alloc, cut.lines.as_slice(), head.as_str(), done) {
            Ok(marks) => Ok(Batch {
                head: Text::from_string(head),
                name: called,
                lines: cut.lines,
                marks,
            }),
            Err(fault) => Err(fault),
        }
    }

    /// What another progress of the same batch tells.
    fn marks_in(&self, alloc: Global, done: Option<&[u8]>) -> Result<Seq<Mark>, BatchFault>
        ensures { TellsDone (length self.now.lines) self.now.head (option_map (λ text. text.now) done.entry) result }
    {
        read_done(alloc, self.lines.as_slice(), self.head.as_str(), done)
    }

    fn set_marks(&mut self, marks: Seq<Mark>)
        requires { AreMarks (length self.old.lines) marks }
        ensures { self.new ≡ record self.old { marks = marks } }
    {
        self.marks = marks;
    }

    /// Takes what another progress of the same batch tells. At a fault the batch stays as it was.
    pub fn read_again(&mut self, alloc: Global, done: Option<&[u8]>) -> Result<(), BatchFault>
        ensures { IsReadAgain (option_map (λ text. text.now) done.entry) self.old self.new result }
    {
        match self.marks_in(alloc, done) {
            Ok(marks) => {
                self.set_marks(marks);
                Ok(())
            }
            Err(fault) => Err(fault),
        }
    }

    /// What has become of the first lines, in their order.
    pub fn marks(&self) -> &[Mark]
        ensures are { result.now ≡ self.now.marks }
        ensures good { AreMarks (length self.now.lines) result.now }
        ensures few { length self.now.lines ≤ 4096 }
    {
        self.marks.as_slice()
    }

    /// The line that is sent next, counted from 1; none where every line is done.
    pub fn next(&self) -> Option<u32>
        ensures { result ≡ next_line self.now }
    {
        let done = self.marks.as_slice().len();
        if done < self.lines.as_slice().len() {
            Some(done as u32 + 1)
        } else {
            None
        }
    }

    /// Marks the line that comes next by what its reply told. Where it is to be sent again, nothing
    /// changes, and so it is where memory is wanting.
    pub fn told(&mut self, alloc: Global, told: &Told) -> Result<Marked, AllocError>
        requires next { IsSome (next_line self.old) }
        requires tells { IsSome (spec_told_mark told.now) }
        ensures marks { IfOk result (λ marked. Marks told.now self.old self.new marked) }
        ensures err { OnErr result (self.new ≡ self.old) }
    {
        if is_again(told) {
            return Ok(Marked::Again);
        }
        if let Some(mark) = told_mark(told) {
            self.marks.try_push(mark)?;
        }
        Ok(Marked::Done)
    }

    /// The body that is sent for a line, counted from 1: the line with its uuid in place.
    pub fn body(&self, alloc: Global, line: u32) -> Result<Vec<u8>, AllocError>
        requires some { 1 ≤ line }
        requires there { line ≤ length self.now.lines }
        ensures { IfOk result (λ body. reading body.items ≡ body_data self.now line) }
    {
        let uuid = uuid_of(alloc, self.name.as_str(), line)?;
        let text = self.lines.as_slice()[line as usize - 1].as_slice();
        named_body(alloc, text, uuid.as_str())
    }

    /// What is printed when every line is done: a line for each.
    pub fn marks_text(&self, alloc: Global) -> Result<String, AllocError>
        ensures { IfOk result (λ text. string_bytes text ≡ mark_lines 1 self.now.marks) }
    {
        lines_of(alloc, self.marks.as_slice())
    }

    /// What is saved: the line that names the file and the batch, and a line for each that is done.
    pub fn progress(&self, alloc: Global) -> Result<String, AllocError>
        ensures written { IfOk result (λ text. string_bytes text ≡ progress_text self.now.head self.now.marks) }
        ensures good { AreMarks (length self.now.lines) self.now.marks }
    {
        let head = self.head.as_str();
        let lines = self.marks_text(alloc)?;
        let lines = lines.as_str();
        format!(in alloc; "{head}\n{lines}")
    }
}

// The bytes of a line with this uuid, and none where the line is no task.
#[tactic(auto, using(crate::proofs::Texts::no_text))]
fn named_body(alloc: Global, line: &[u8], uuid: &str) -> Result<Vec<u8>, AllocError>
    ensures { IfOk result (λ body. reading body.items ≡ named_in uuid.now line.now) }
{
    match name_task(alloc, line, uuid)? {
        Some(body) => Ok(body.into_bytes()),
        None => Ok(Vec::new(alloc)),
    }
}

fn uuid_of(alloc: Global, name: &str, line: u32) -> Result<String, AllocError>
    ensures { IfOk result (λ uuid. string_bytes uuid ≡ spec_uuid_of name.now line) }
{
    format!(in alloc; "{name}-{line}")
}

fn lines_of(alloc: Global, marks: &[Mark]) -> Result<String, AllocError>
    requires few { length marks.now ≤ 4096 }
    requires good { list_all is_mark marks.now ≡ true }
    ensures { IfOk result (λ text. string_bytes text ≡ mark_lines 1 marks.now) }
{
    let mut text = String::new(alloc);
    for (place, mark) in marks.iter().enumerate() {
        text.push_str(mark_line(alloc, place + 1, *mark)?.as_str())?;
    }
    Ok(text)
}
