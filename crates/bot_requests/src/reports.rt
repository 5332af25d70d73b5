//! The bodies of a bot's reports on its run.
ghost use Rattle.std.specs.Prelude.{◌≡◌, ◌≤◌, IfOk, length};
ghost use Rattle.serde_json.specs.View.{view, members_view};
ghost use Rattle.bot_requests.specs.Bodies.{file_data, output_members as spec_output_members, report_data, last_report_data, update_data};

use crate::Hands;
use base64::engine::general_purpose::STANDARD;
use bot_core::End;
use json_values::{ShowItem, with, with_flag, with_list, with_text, with_whole};
use serde_json::{Map, Value};
use std::alloc::{AllocError, Global};
use task_props::File;

/// Files, each by its path, its digest and its size.
struct Files;

impl ShowItem for Files {
    type Item = File;

    ghost value_of = { λ _. file_data };

    fn show(&self, alloc: Global, file: &File) -> Result<Value, AllocError> {
        let digest = hex::encode(alloc, file.digest.as_slice())?;
        let members = with_whole(alloc, Map::new(alloc), "size", u64::from(file.size))?;
        let members = with_text(alloc, members, "path", file.path.as_str())?;
        let members = with_text(alloc, members, "digest", digest.as_str())?;
        Ok(Value::Object(members))
    }
}

#[tactic(auto, unfolding(crate::specs::Bodies::output_members))]
fn output_members(
    alloc: Global,
    run: &str,
    start: u32,
    chunk: &[u8],
) -> Result<Map<String, Value>, AllocError>
    ensures { IfOk result (λ members. members_view members.entries ≡ spec_output_members run.now start chunk.now) }
{
    let members = with_text(alloc, Map::new(alloc), "task_id", run)?;
    let members = with_whole(alloc, members, "output_chunk_start", u64::from(start))?;
    let output = Value::String(STANDARD.encode(alloc, chunk)?);
    with(alloc, members, "output", output)
}

/// The report of a run that goes on.
#[tactic(auto, unfolding(crate::specs::Bodies::output_members))]
fn report_value(
    alloc: Global,
    id: &str,
    run: &str,
    start: u32,
    chunk: &[u8],
) -> Result<Value, AllocError>
    ensures { IfOk result (λ value. view value ≡ report_data id.now run.now start chunk.now) }
{
    let members = output_members(alloc, run, start, chunk)?;
    let members = with_text(alloc, members, "bot_id", id)?;
    Ok(Value::Object(members))
}

/// The last report of a run.
#[tactic(auto, unfolding(crate::specs::Bodies::output_members))]
fn last_report_value(
    alloc: Global,
    id: &str,
    run: &str,
    start: u32,
    chunk: &[u8],
    end: &End,
    files: &[File],
) -> Result<Value, AllocError>
    ensures { IfOk result (λ value. view value ≡ last_report_data id.now run.now start chunk.now end.now files.now) }
{
    let members = output_members(alloc, run, start, chunk)?;
    let members = with_flag(alloc, members, "io_timeout", end.io_timeout)?;
    let members = with_flag(alloc, members, "hard_timeout", end.hard_timeout)?;
    let members = with_list(alloc, members, "files", &Files, files)?;
    let members = with(alloc, members, "exit_code", Value::from(end.exit_code))?;
    let members = with_whole(alloc, members, "duration_ms", end.duration_ms)?;
    let members = with_whole(alloc, members, "dropped", end.dropped)?;
    let members = with_text(alloc, members, "bot_id", id)?;
    Ok(Value::Object(members))
}

/// The report with the first `size` bytes of the pending output, and with the end of the run where it
/// is the last one.
#[tactic(auto, unfolding(crate::specs::Bodies::update_data))]
pub(crate) fn update_value(
    alloc: Global,
    hands: &Hands,
    run: &str,
    start: u32,
    size: u32,
    last: &Option<End>,
) -> Result<Value, AllocError>
    requires { size ≤ length hands.now.pending.items }
    ensures { IfOk result (λ value. view value ≡ update_data hands.now run.now start size last.now) }
{
    let chunk = &hands.pending[..size as usize];
    let id = hands.id.as_str();
    match last {
        None => report_value(alloc, id, run, start, chunk),
        Some(end) => last_report_value(alloc, id, run, start, chunk, end, hands.files.as_slice()),
    }
}
