//! The first rule that the lines of a file break.
ghost use Rattle.std.specs.Prelude.{◌≡◌, ◌≤◌, IfOk, length, codes};
ghost use Rattle.serde_json.specs.View.{view};
ghost use Rattle.swarm_batch.specs.Broken.{value_rule as spec_value_rule, line_rule as spec_line_rule, first_broken, rule_name};

use dimensions::Seq;
use json_fields::{present, read_body};
use serde_json::Value;
use std::alloc::{AllocError, AllocFailed, Global};

/// What is wrong with a file of tasks, or with its progress.
#[derive(Clone, Copy, Debug, PartialEq, Eq)]
pub enum BatchRule {
    /// The file is too long, has no line or too many, or its last line doesn't end.
    Count,
    /// A line is no JSON.
    Json,
    /// A line is no object.
    Object,
    /// A line has a uuid of its own.
    Uuid,
    /// The progress is that of another file, or of another name.
    Changed,
    /// The progress isn't as it is written.
    Progress,
}

impl BatchRule {
    /// The word that is printed of it.
    pub fn name(self) -> &'static str
        ensures { result.now ≡ rule_name self }
    {
        match self {
            BatchRule::Count => "count",
            BatchRule::Json => "json",
            BatchRule::Object => "object",
            BatchRule::Uuid => "uuid",
            BatchRule::Changed => "changed",
            BatchRule::Progress => "progress",
        }
    }
}

/// Why a file of tasks, or its progress, is refused.
#[derive(Debug, PartialEq, Drop)]
pub enum BatchFault {
    Memory,
    /// The first rule that is broken, with its line, counted from 1, and 0 for the whole file. Of a
    /// progress it is the line of the file whose mark was expected there.
    Broken { line: u32, rule: BatchRule },
}

impl From<AllocError> for BatchFault {
    ghost use Rattle.std.specs.Prelude.{◌≡◌};
    ghost use Rattle.swarm_batch.specs.declared.faults.BatchFault.TheVariants.{Memory};

    ghost from_gives = { λ _ fault. fault ≡ Memory };

    fn from(_: AllocError) -> BatchFault {
        BatchFault::Memory
    }
}

impl<T: Drop> From<AllocFailed<T>> for BatchFault {
    ghost use Rattle.std.specs.Prelude.{◌≡◌};
    ghost use Rattle.swarm_batch.specs.declared.faults.BatchFault.TheVariants.{Memory};

    ghost from_gives = { λ _ fault. fault ≡ Memory };

    fn from(_: AllocFailed<T>) -> BatchFault {
        BatchFault::Memory
    }
}

fn value_rule(value: &Value) -> Option<BatchRule>
    ensures { result ≡ spec_value_rule (view value.now) }
{
    if !value.is_object() {
        return Some(BatchRule::Object);
    }
    match present(value, "request_uuid") {
        Some(_) => Some(BatchRule::Uuid),
        None => None,
    }
}

fn line_rule(alloc: Global, line: &[u8]) -> Result<Option<BatchRule>, AllocError>
    ensures { IfOk result (λ rule. rule ≡ spec_line_rule line.now) }
{
    match read_body(alloc, line)? {
        Some(value) => Ok(value_rule(&value)),
        None => Ok(Some(BatchRule::Json)),
    }
}

/// The first line that breaks a rule, counted from 1, with its rule.
pub(crate) fn first_broken_line(
    alloc: Global,
    lines: &[Seq<u8>],
) -> Result<Option<(u32, BatchRule)>, AllocError>
    requires { length lines.now ≤ 4096 }
    ensures { IfOk result (λ broken. broken ≡ first_broken 1 lines.now) }
{
    for (place, line) in lines.iter().enumerate() {
        if let Some(rule) = line_rule(alloc, line.as_slice())? {
            return Ok(Some((place as u32 + 1, rule)));
        }
    }
    Ok(None)
}
