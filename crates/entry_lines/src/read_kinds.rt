//! What is read of the value of each kind of entry.
ghost use Rattle.serde_json.specs.View.{view};
ghost use Rattle.line_parts.specs.Finding.{Finds};
ghost use Rattle.entry_lines.specs.Kinds.{slice_kind_in, blob_kind_in, new_kind_in, handshake_kind_in, poll_kind_in, claim_kind_in, event_kind_in, update_kind_in, put_kind_in, numbered_kind_in, kind_in};

use dimensions::{BotDims, Text};
use line_parts::{LineFault, read_field, read_request, text_or_empty, value_at};
use serde_json::Value;
use std::alloc::Global;
use swarm_model::{Chunk, EntryKind, EventKind, Last, Outcome, TaskState};
use task_props::SharedTask;

#[tactic(auto, unfolding(crate::specs::Kinds::slice_kind_in))]
fn read_slice(alloc: Global, value: &Value) -> Result<EntryKind, LineFault>
    ensures { Finds result (slice_kind_in (view value.now)) }
{
    let t = read_field::<u32>(alloc, value, "t")?;
    let to = read_field::<Outcome>(alloc, value, "to")?;
    Ok(EntryKind::Slice { t, to })
}

#[tactic(auto, unfolding(crate::specs::Kinds::blob_kind_in))]
fn read_blob(alloc: Global, value: &Value) -> Result<EntryKind, LineFault>
    ensures { Finds result (blob_kind_in (view value.now)) }
{
    let kept = read_field::<bool>(alloc, value, "kept")?;
    let n = read_field::<u32>(alloc, value, "n")?;
    Ok(EntryKind::Blob { n, kept })
}

#[tactic(auto, unfolding(crate::specs::Kinds::new_kind_in))]
fn read_new(alloc: Global, value: &Value) -> Result<EntryKind, LineFault>
    ensures { Finds result (new_kind_in (view value.now)) }
{
    let from = read_field::<Option<u32>>(alloc, value, "from")?;
    let uuid = text_or_empty(alloc, read_field::<Option<Text>>(alloc, value, "uuid")?);
    let request_value = value_at(value, "request")?;
    let request = SharedTask::new(alloc, read_request(alloc, request_value, uuid)?)?;
    let slice = read_field::<u32>(alloc, value, "slice")?;
    let state = read_field::<TaskState>(alloc, value, "state")?;
    let t = read_field::<u32>(alloc, value, "t")?;
    let who = read_field::<Text>(alloc, value, "who")?;
    Ok(EntryKind::New {
        t,
        who,
        request,
        state,
        slice,
        from,
    })
}

#[tactic(auto, unfolding(crate::specs::Kinds::handshake_kind_in))]
fn read_handshake(alloc: Global, value: &Value) -> Result<EntryKind, LineFault>
    ensures { Finds result (handshake_kind_in (view value.now)) }
{
    let b = read_field::<u32>(alloc, value, "b")?;
    let dims = read_field::<BotDims>(alloc, value, "dims")?;
    let id = read_field::<Text>(alloc, value, "id")?;
    let q = read_field::<Text>(alloc, value, "q")?;
    let session = read_field::<Text>(alloc, value, "session")?;
    Ok(EntryKind::Handshake {
        b,
        id,
        session,
        dims,
        q,
    })
}

#[tactic(auto, unfolding(crate::specs::Kinds::poll_kind_in))]
fn read_poll(alloc: Global, value: &Value) -> Result<EntryKind, LineFault>
    ensures { Finds result (poll_kind_in (view value.now)) }
{
    let b = read_field::<u32>(alloc, value, "b")?;
    let dims = read_field::<Option<BotDims>>(alloc, value, "dims")?;
    let hint = read_field::<bool>(alloc, value, "hint")?;
    let q = read_field::<Option<Text>>(alloc, value, "q")?;
    Ok(EntryKind::Poll { b, dims, q, hint })
}

#[tactic(auto, unfolding(crate::specs::Kinds::claim_kind_in))]
fn read_claim(alloc: Global, value: &Value) -> Result<EntryKind, LineFault>
    ensures { Finds result (claim_kind_in (view value.now)) }
{
    let b = read_field::<u32>(alloc, value, "b")?;
    let claim = read_field::<Text>(alloc, value, "claim")?;
    let t = read_field::<u32>(alloc, value, "t")?;
    Ok(EntryKind::Claim { b, t, claim })
}

#[tactic(auto, unfolding(crate::specs::Kinds::event_kind_in))]
fn read_event(alloc: Global, value: &Value) -> Result<EntryKind, LineFault>
    ensures { Finds result (event_kind_in (view value.now)) }
{
    let b = read_field::<u32>(alloc, value, "b")?;
    let e = read_field::<EventKind>(alloc, value, "e")?;
    let text = read_field::<Text>(alloc, value, "text")?;
    Ok(EntryKind::Event { b, e, text })
}

#[tactic(auto, unfolding(crate::specs::Kinds::update_kind_in))]
fn read_update(alloc: Global, value: &Value) -> Result<EntryKind, LineFault>
    ensures { Finds result (update_kind_in (view value.now)) }
{
    let b = read_field::<u32>(alloc, value, "b")?;
    let chunk = read_field::<Option<Chunk>>(alloc, value, "chunk")?;
    let last = read_field::<Option<Last>>(alloc, value, "last")?;
    let t = read_field::<u32>(alloc, value, "t")?;
    let try_no = read_field::<u32>(alloc, value, "try")?;
    Ok(EntryKind::Update {
        b,
        t,
        try_no,
        chunk,
        last,
    })
}

#[tactic(auto, unfolding(crate::specs::Kinds::put_kind_in))]
fn read_put(alloc: Global, value: &Value) -> Result<EntryKind, LineFault>
    ensures { Finds result (put_kind_in (view value.now)) }
{
    let digest = read_field::<[u8; 32]>(alloc, value, "digest")?;
    let size = read_field::<u32>(alloc, value, "size")?;
    Ok(EntryKind::Put { digest, size })
}

/// A kind that has the number of a task alone, or that of a bot.
#[tactic(auto, unfolding(crate::specs::Kinds::numbered_kind_in))]
fn read_numbered(alloc: Global, name: &str, value: &Value) -> Result<EntryKind, LineFault>
    ensures { Finds result (numbered_kind_in name.now (view value.now)) }
{
    match name {
        "silence" => {
            let t = read_field::<u32>(alloc, value, "t")?;
            Ok(EntryKind::Silence { t })
        }
        "dead" => {
            let b = read_field::<u32>(alloc, value, "b")?;
            Ok(EntryKind::Dead { b })
        }
        "cancel" => {
            let t = read_field::<u32>(alloc, value, "t")?;
            Ok(EntryKind::Cancel { t })
        }
        "kill" => {
            let t = read_field::<u32>(alloc, value, "t")?;
            Ok(EntryKind::Kill { t })
        }
        "contact" => {
            let b = read_field::<u32>(alloc, value, "b")?;
            Ok(EntryKind::Contact { b })
        }
        "terminate" => {
            let b = read_field::<u32>(alloc, value, "b")?;
            Ok(EntryKind::Terminate { b })
        }
        _ => Err(LineFault::NotALine),
    }
}

/// A kind by its name.
#[tactic(auto, unfolding(crate::specs::Kinds::kind_in))]
pub(crate) fn read_kind(alloc: Global, name: &str, value: &Value) -> Result<EntryKind, LineFault>
    ensures { Finds result (kind_in name.now (view value.now)) }
{
    match name {
        "slice" => read_slice(alloc, value),
        "blob" => read_blob(alloc, value),
        "new" => read_new(alloc, value),
        "handshake" => read_handshake(alloc, value),
        "poll" => read_poll(alloc, value),
        "claim" => read_claim(alloc, value),
        "event" => read_event(alloc, value),
        "update" => read_update(alloc, value),
        "put" => read_put(alloc, value),
        _ => read_numbered(alloc, name, value),
    }
}
