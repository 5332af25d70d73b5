//! What becomes of a line.
ghost use Rattle.std.specs.Prelude.{◌≡◌, IfOk, string_bytes, true};
ghost use Rattle.swarm_batch.specs.Marks.{is_task as spec_is_task, is_mark, is_refused as spec_is_refused, mark_word, mark_line as spec_mark_line};

use json_fields::task_id;
use refusal_codes::RefusalCode;
use std::alloc::{AllocError, Global};

/// What a line was told.
#[derive(Clone, Copy, Debug, PartialEq, Eq)]
pub enum Mark {
    /// Its task: the place of its pool, and its number there.
    Task { place: u32, task: u32 },
    /// The code of the refusal.
    Refused { code: RefusalCode },
}

/// What comes of a reply.
#[derive(Clone, Copy, Debug, PartialEq, Eq)]
pub enum Marked {
    /// The line is done.
    Done,
    /// The line is to be sent again.
    Again,
}

/// Whether an id can show the task of the pool at a place.
pub(crate) fn is_task(place: u32, task: u32) -> bool
    ensures { result ≡ spec_is_task place task }
{
    place < 4 && 1 <= task && task <= 262_144
}

impl Mark {
    /// Whether the line was refused.
    pub fn is_refused(self) -> bool
        ensures { result ≡ spec_is_refused self }
    {
        matches!(self, Mark::Refused { .. })
    }

    /// The id of the task, or the code of the refusal behind an exclamation mark.
    pub fn word(self, alloc: Global) -> Result<String, AllocError>
        requires { is_mark self ≡ true }
        ensures { IfOk result (λ word. string_bytes word ≡ mark_word self) }
    {
        match self {
            Mark::Task { place, task } => task_id(alloc, place, task),
            Mark::Refused { code } => {
                let name = code.name();
                format!(in alloc; "!{name}")
            }
        }
    }
}

/// The line of progress of a mark, by the number of its line in the file.
#[tactic(auto, unfolding(crate::specs::Marks::mark_line))]
pub fn mark_line(alloc: Global, line: usize, mark: Mark) -> Result<String, AllocError>
    requires { is_mark mark ≡ true }
    ensures { IfOk result (λ text. string_bytes text ≡ spec_mark_line line mark) }
{
    let word = mark.word(alloc)?;
    let word = word.as_str();
    format!(in alloc; "{line} {word}\n")
}
