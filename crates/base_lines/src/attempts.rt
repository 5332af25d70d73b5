//! Runs in a line.
ghost use Rattle.std.specs.Prelude.{◌≡◌, ◌^◌, IfOk, OnOk};
ghost use Rattle.serde_json.specs.View.{view};
ghost use Rattle.line_parts.specs.Finding.{Finds, below};
ghost use Rattle.line_parts.specs.Lists.{or_null, null_or, HoldsOption};
ghost use Rattle.base_lines.specs.Computed.{size_of};
ghost use Rattle.base_lines.specs.Attempts.{attempt_data, attempt_in, HoldsAttempt, retried_data, retried_in, HoldsRetried};

use dimensions::{Seq, Text};
use json_values::with;
use line_parts::{LineFault, list_values, read_field, value_at, with_field};
use reserved_vec::ReservedVec;
use serde_json::{Map, Value};
use std::alloc::{AllocError, Global};
use swarm_model::{Attempt, Chunk, Last, MaybeRetried, Retried, RetriedRoom};

#[tactic(auto, unfolding(crate::specs::Attempts::attempt_data))]
fn attempt_value(alloc: Global, attempt: &Attempt) -> Result<Value, AllocError>
    ensures value { IfOk result (λ value. view value ≡ attempt_data attempt.now) }
    ensures holds { OnOk result (HoldsAttempt attempt.now) }
{
    let members = with_field(alloc, Map::new(alloc), "try", &attempt.try_no)?;
    let members = with_field(alloc, members, "tail", &attempt.last_chunk)?;
    let members = with_field(alloc, members, "last", &attempt.last)?;
    let members = with_field(alloc, members, "kill", &attempt.kill)?;
    let members = with_field(alloc, members, "claim", &attempt.claim)?;
    let chunks = Value::Array(list_values::<Chunk>(alloc, attempt.chunks.as_slice())?);
    let members = with(alloc, members, "chunks", chunks)?;
    let members = with_field(alloc, members, "begun", &attempt.begun)?;
    let members = with_field(alloc, members, "b", &attempt.bot)?;
    Ok(Value::Object(members))
}

/// A run, or null where there is none.
pub(crate) fn run_value(alloc: Global, run: &Option<Attempt>) -> Result<Value, AllocError>
    ensures value { IfOk result (λ value. view value ≡ or_null attempt_data run.now) }
    ensures holds { OnOk result (HoldsOption HoldsAttempt run.now) }
{
    match run {
        Some(attempt) => attempt_value(alloc, attempt),
        None => Ok(Value::Null),
    }
}

#[tactic(auto, unfolding(crate::specs::Attempts::retried_data))]
fn retried_value(alloc: Global, lost: &Retried) -> Result<Value, AllocError>
    ensures value { IfOk result (λ value. view value ≡ retried_data lost.now) }
    ensures holds { OnOk result (HoldsRetried lost.now) }
{
    let members = with_field(alloc, Map::new(alloc), "slice", &lost.slice)?;
    let members = with_field(alloc, members, "over", &lost.over)?;
    let attempt = attempt_value(alloc, &lost.attempt)?;
    let members = with(alloc, members, "attempt", attempt)?;
    Ok(Value::Object(members))
}

/// A run that was lost, or null where there is none.
pub(crate) fn lost_run_value(alloc: Global, lost: &MaybeRetried) -> Result<Value, AllocError>
    ensures value { IfOk result (λ value. view value ≡ or_null retried_data lost.now) }
    ensures holds { OnOk result (HoldsOption HoldsRetried lost.now) }
{
    match lost.as_ref() {
        Some(lost) => retried_value(alloc, lost),
        None => Ok(Value::Null),
    }
}

/// How many bytes the chunks have together, where a run may have so many.
fn length_of(chunks: &[Chunk]) -> Result<u32, LineFault>
    ensures { Finds result (below (2 ^ 32) (size_of chunks.now)) }
{
    let mut length: u32 = 0;
    for chunk in chunks {
        match length.checked_add(chunk.size) {
            Some(more) => length = more,
            None => return Err(LineFault::NotALine),
        }
    }
    Ok(length)
}

#[tactic(auto, unfolding(crate::specs::Attempts::attempt_in))]
fn read_attempt(alloc: Global, value: &Value) -> Result<Attempt, LineFault>
    ensures { Finds result (attempt_in (view value.now)) }
{
    let bot = read_field::<u32>(alloc, value, "b")?;
    let begun = read_field::<u64>(alloc, value, "begun")?;
    let chunks = read_field::<Seq<Chunk>>(alloc, value, "chunks")?;
    let claim = read_field::<Text>(alloc, value, "claim")?;
    let kill = read_field::<bool>(alloc, value, "kill")?;
    let last = read_field::<Option<Last>>(alloc, value, "last")?;
    let last_chunk = read_field::<Option<Chunk>>(alloc, value, "tail")?;
    let try_no = read_field::<u32>(alloc, value, "try")?;
    let length = length_of(chunks.as_slice())?;
    let chunks = ReservedVec::from_slice(alloc, chunks.as_slice())?;
    Ok(Attempt {
        try_no,
        bot,
        claim,
        begun,
        kill,
        chunks,
        length,
        last,
        last_chunk,
    })
}

/// A run, or none where null stands.
pub(crate) fn read_run(alloc: Global, value: &Value) -> Result<Option<Attempt>, LineFault>
    ensures { Finds result (null_or attempt_in (view value.now)) }
{
    if value.is_null() {
        return Ok(None);
    }
    match read_attempt(alloc, value) {
        Ok(attempt) => Ok(Some(attempt)),
        Err(fault) => Err(fault),
    }
}

#[tactic(auto, unfolding(crate::specs::Attempts::retried_in))]
fn read_retried(alloc: Global, value: &Value) -> Result<Retried, LineFault>
    ensures { Finds result (retried_in (view value.now)) }
{
    let attempt_value = value_at(value, "attempt")?;
    let attempt = read_attempt(alloc, attempt_value)?;
    let over = read_field::<u64>(alloc, value, "over")?;
    let slice = read_field::<u32>(alloc, value, "slice")?;
    Ok(Retried {
        attempt,
        slice,
        over,
    })
}

/// A run that was lost, or none where null stands.
pub(crate) fn read_lost_run(alloc: Global, value: &Value) -> Result<MaybeRetried, LineFault>
    ensures { Finds result (null_or retried_in (view value.now)) }
{
    if value.is_null() {
        return Ok(MaybeRetried::none());
    }
    let lost = read_retried(alloc, value)?;
    let room = RetriedRoom::new(alloc)?;
    Ok(room.keep(lost))
}
