//! The rows of a pool in lines.
ghost use Rattle.std.specs.Prelude.{◌≡◌, IfOk, OnOk};
ghost use Rattle.serde_json.specs.View.{view, members_view};
ghost use Rattle.blob_rows.specs.BlobRows.{units_of};
ghost use Rattle.line_parts.specs.Finding.{Finds};
ghost use Rattle.line_parts.specs.Lists.{HoldsOption};
ghost use Rattle.line_parts.specs.Parts.{IsWord};
ghost use Rattle.base_lines.specs.Attempts.{HoldsRetried};
ghost use Rattle.base_lines.specs.Rows.{HoldsLater, later_members, pool_data, pool_in, HoldsPool, task_data, task_in, HoldsTask, bot_data, bot_in, HoldsBot, blob_data, blob_in, HoldsBlob};

use crate::PoolLine;
use crate::attempts::{lost_run_value, read_lost_run, read_run, run_value};
use blob_rows::Extent;
use dimensions::{BotDims, Text};
use json_values::{with, with_text};
use line_parts::{
    LineFault, read_field, read_request, request_value, text_or_empty, uuid_of, value_at,
    with_field,
};
use serde_json::{Map, Value};
use std::alloc::{AllocError, Global};
use swarm_model::{BlobRow, BotRow, TaskRow, TaskState};
use task_props::SharedTask;

#[tactic(auto, unfolding(crate::specs::Rows::pool_data))]
pub(crate) fn pool_value(alloc: Global, pool: &PoolLine) -> Result<Value, AllocError>
    ensures value { IfOk result (λ value. view value ≡ pool_data pool.now) }
    ensures holds { OnOk result (HoldsPool pool.now) }
{
    let members = with_field(alloc, Map::new(alloc), "placed", &pool.placed)?;
    let members = with_field(alloc, members, "last", &pool.last)?;
    let members = with_text(alloc, members, "k", "pool")?;
    Ok(Value::Object(members))
}

#[tactic(auto, unfolding(crate::specs::Rows::pool_in))]
pub(crate) fn read_pool(alloc: Global, value: &Value) -> Result<PoolLine, LineFault>
    ensures { Finds result (pool_in (view value.now)) }
{
    let last = read_field::<u64>(alloc, value, "last")?;
    let placed = read_field::<u32>(alloc, value, "placed")?;
    Ok(PoolLine { last, placed })
}

/// The members of a task behind its request.
#[tactic(auto, unfolding(crate::specs::Rows::later_members))]
fn later_task_members(alloc: Global, task: &TaskRow) -> Result<Map<String, Value>, AllocError>
    ensures value { IfOk result (λ members. members_view members.entries ≡ later_members task.now) }
    ensures holds { OnOk result (HoldsLater task.now) }
{
    let members = with_field(alloc, Map::new(alloc), "who", &task.creator)?;
    let uuid = uuid_of(alloc, &task.request.request_uuid)?;
    let members = with_field(alloc, members, "uuid", &uuid)?;
    let members = with_field(alloc, members, "t", &task.no)?;
    let members = with_field(alloc, members, "state", &task.state)?;
    let members = with_field(alloc, members, "source", &task.source)?;
    let members = with_field(alloc, members, "slice", &task.slice)?;
    let members = with_field(alloc, members, "since", &task.since)?;
    let retried = lost_run_value(alloc, &task.retried)?;
    with(alloc, members, "retried", retried)
}

#[tactic(auto, unfolding(crate::specs::Rows::task_data, crate::specs::Rows::later_members))]
pub(crate) fn task_value(alloc: Global, task: &TaskRow) -> Result<Value, AllocError>
    ensures value { IfOk result (λ value. view value ≡ task_data task.now) }
    ensures holds { OnOk result (HoldsTask task.now) }
{
    let members = later_task_members(alloc, task)?;
    let request = request_value(alloc, &task.request)?;
    let members = with(alloc, members, "request", request)?;
    let members = with_text(alloc, members, "k", "task")?;
    let members = with_field(alloc, members, "ended", &task.ended)?;
    let members = with_field(alloc, members, "created", &task.created)?;
    let attempt = run_value(alloc, &task.attempt)?;
    let members = with(alloc, members, "attempt", attempt)?;
    Ok(Value::Object(members))
}

#[tactic(auto, unfolding(crate::specs::Rows::task_in))]
pub(crate) fn read_task(alloc: Global, value: &Value) -> Result<TaskRow, LineFault>
    ensures { Finds result (task_in (view value.now)) }
{
    let attempt_value = value_at(value, "attempt")?;
    let attempt = read_run(alloc, attempt_value)?;
    let created = read_field::<u64>(alloc, value, "created")?;
    let ended = read_field::<Option<u64>>(alloc, value, "ended")?;
    let uuid = text_or_empty(alloc, read_field::<Option<Text>>(alloc, value, "uuid")?);
    let request_value = value_at(value, "request")?;
    let request = SharedTask::new(alloc, read_request(alloc, request_value, uuid)?)?;
    let retried_value = value_at(value, "retried")?;
    let retried = read_lost_run(alloc, retried_value)?;
    let since = read_field::<u64>(alloc, value, "since")?;
    let slice = read_field::<u32>(alloc, value, "slice")?;
    let source = read_field::<Option<u32>>(alloc, value, "source")?;
    let state = read_field::<TaskState>(alloc, value, "state")?;
    let no = read_field::<u32>(alloc, value, "t")?;
    let creator = read_field::<Text>(alloc, value, "who")?;
    Ok(TaskRow {
        no,
        creator,
        request,
        created,
        state,
        slice,
        since,
        attempt,
        retried,
        source,
        ended,
    })
}

#[tactic(auto, unfolding(crate::specs::Rows::bot_data))]
pub(crate) fn bot_value(alloc: Global, bot: &BotRow) -> Result<Value, AllocError>
    ensures value { IfOk result (λ value. view value ≡ bot_data bot.now) }
    ensures holds { OnOk result (HoldsBot bot.now) }
{
    let members = with_field(alloc, Map::new(alloc), "terminating", &bot.terminating)?;
    let members = with_field(alloc, members, "streak", &bot.streak)?;
    let members = with_field(alloc, members, "session", &bot.session)?;
    let members = with_field(alloc, members, "q", &bot.quarantined)?;
    let members = with_text(alloc, members, "k", "bot")?;
    let members = with_field(alloc, members, "id", &bot.name)?;
    let members = with_field(alloc, members, "dims", &bot.dims)?;
    let members = with_field(alloc, members, "dead", &bot.dead)?;
    let members = with_field(alloc, members, "contact", &bot.contact)?;
    let members = with_field(alloc, members, "b", &bot.no)?;
    Ok(Value::Object(members))
}

#[tactic(auto, unfolding(crate::specs::Rows::bot_in))]
pub(crate) fn read_bot(alloc: Global, value: &Value) -> Result<BotRow, LineFault>
    ensures { Finds result (bot_in (view value.now)) }
{
    let no = read_field::<u32>(alloc, value, "b")?;
    let contact = read_field::<u64>(alloc, value, "contact")?;
    let dead = read_field::<bool>(alloc, value, "dead")?;
    let dims = read_field::<BotDims>(alloc, value, "dims")?;
    let name = read_field::<Text>(alloc, value, "id")?;
    let quarantined = read_field::<Text>(alloc, value, "q")?;
    let session = read_field::<Text>(alloc, value, "session")?;
    let streak = read_field::<u32>(alloc, value, "streak")?;
    let terminating = read_field::<bool>(alloc, value, "terminating")?;
    Ok(BotRow {
        no,
        name,
        session,
        dims,
        contact,
        streak,
        quarantined,
        dead,
        terminating,
        task: None,
    })
}

#[tactic(auto, unfolding(crate::specs::Rows::blob_data))]
pub(crate) fn blob_value(alloc: Global, blob: &BlobRow) -> Result<Value, AllocError>
    ensures value { IfOk result (λ value. view value ≡ blob_data blob.now) }
    ensures holds { OnOk result (HoldsBlob blob.now) }
{
    let members = with_field(alloc, Map::new(alloc), "size", &blob.size)?;
    let members = with_field(alloc, members, "n", &blob.no)?;
    let members = with_text(alloc, members, "k", "blob")?;
    let members = with_field(alloc, members, "digest", &blob.digest)?;
    let members = with_field(alloc, members, "deadline", &blob.deadline)?;
    let members = with_field(alloc, members, "at", &blob.extent.at)?;
    Ok(Value::Object(members))
}

/// How many units of 64 bytes a content takes, at least one.
fn units_of(size: u32) -> u32
    ensures { result ≡ units_of size }
{
    size.div_ceil(64).max(1)
}

#[tactic(auto, unfolding(crate::specs::Rows::blob_in))]
pub(crate) fn read_blob(alloc: Global, value: &Value) -> Result<BlobRow, LineFault>
    ensures { Finds result (blob_in (view value.now)) }
{
    let at = read_field::<u32>(alloc, value, "at")?;
    let deadline = read_field::<u64>(alloc, value, "deadline")?;
    let digest = read_field::<[u8; 32]>(alloc, value, "digest")?;
    let no = read_field::<u32>(alloc, value, "n")?;
    let size = read_field::<u32>(alloc, value, "size")?;
    let units = units_of(size);
    Ok(BlobRow {
        no,
        digest,
        size,
        extent: Extent { at, units },
        deadline,
    })
}
