//! The line of an entry, and the entry of a line.
ghost use Rattle.std.specs.Prelude.{◌≡◌, Some, Decides, IfOk, OnOk};
ghost use Rattle.serde_json.specs.View.{view};
ghost use Rattle.line_parts.specs.Finding.{Finds};
ghost use Rattle.entry_lines.specs.Kinds.{entry_data, entry_in, HoldsEntry};
ghost use Rattle.entry_lines.specs.Lines.{line as spec_line, if_line, entry_of_line, LinesAreDistinct, LinesReadBack};

use crate::kinds::{kind_members, kind_name};
use crate::read_kinds::read_kind;
use dimensions::Text;
use json_values::with;
use line_parts::{LineFault, name_of, read_field, value_of, with_field};
use serde_json::Value;
use std::alloc::{AllocError, Global};
use swarm_model::Entry;

#[tactic(auto, unfolding(crate::specs::Kinds::entry_data))]
fn entry_value(alloc: Global, entry: &Entry) -> Result<Value, AllocError>
    ensures value { IfOk result (λ value. view value ≡ entry_data entry.now) }
    ensures holds { OnOk result (HoldsEntry entry.now) }
{
    let members = kind_members(alloc, &entry.kind)?;
    let members = with_field(alloc, members, "p", &entry.pass)?;
    let members = with_field(alloc, members, "m", &entry.moment)?;
    let name = Value::try_from_str(alloc, kind_name(&entry.kind))?;
    let members = with(alloc, members, "k", name)?;
    Ok(Value::Object(members))
}

/// The line of an entry.
#[tactic(auto, using(crate::proofs::Back::is_plain, crate::proofs::Back::text_reads_back), unfolding(crate::specs::Lines::line))]
pub fn line_of(alloc: Global, entry: &Entry) -> Result<Text, AllocError>
    ensures line { IfOk result (λ text. text ≡ spec_line entry.now) }
    ensures reads_back { IfOk result (λ text. entry_of_line text ≡ Some entry.now) }
{
    let value = entry_value(alloc, entry)?;
    let text = value.to_string(alloc)?;
    Ok(Text::from_string(text))
}

#[tactic(auto, unfolding(crate::specs::Kinds::entry_in))]
fn read_entry(alloc: Global, value: &Value) -> Result<Entry, LineFault>
    ensures { Finds result (entry_in (view value.now)) }
{
    let name = name_of(value)?;
    let moment = read_field::<u64>(alloc, value, "m")?;
    let pass = read_field::<u32>(alloc, value, "p")?;
    let kind = read_kind(alloc, name, value)?;
    Ok(Entry { moment, pass, kind })
}

/// The entry, where the text is its line.
fn if_line(alloc: Global, entry: Entry, text: &str) -> Result<Entry, LineFault>
    ensures { Finds result (if_line text.now entry) }
{
    let line = line_of(alloc, &entry)?;
    if line.as_str() == text {
        Ok(entry)
    } else {
        Err(LineFault::NotALine)
    }
}

/// The entry of a line.
///
/// # Errors
///
/// [`LineFault::NotALine`] exactly where the text is the line of no entry, and
/// [`LineFault::Memory`].
#[tactic(auto, unfolding(crate::specs::Lines::entry_of_line))]
pub fn read_line(alloc: Global, text: &str) -> Result<Entry, LineFault>
    ensures { Finds result (entry_of_line text.now) }
{
    let value = value_of(alloc, text)?;
    let entry = read_entry(alloc, &value)?;
    if_line(alloc, entry, text)
}

/// Whether the text is the line of the entry.
#[tactic(auto, using(crate::proofs::Back::lines_decide))]
pub fn is_line_of(alloc: Global, entry: &Entry, text: &str) -> Result<bool, AllocError>
    ensures { IfOk result (λ b. Decides b (entry_of_line text.now ≡ Some entry.now)) }
{
    let line = line_of(alloc, entry)?;
    Ok(line.as_str() == text)
}

/// A text of which an entry is read is the line of that entry: so no two entries have one line.
#[tactic(auto, using(crate::proofs::Back::lines_are_distinct))]
pub fn a_line_is_of_one_entry()
    ensures { LinesAreDistinct }
{}

/// Of the line of an entry that entry is read: so each entry has a line, and no other entry has it.
#[tactic(auto, using(crate::proofs::Back::lines_read_back))]
pub fn an_entry_is_read_of_its_line()
    ensures { LinesReadBack }
{}
