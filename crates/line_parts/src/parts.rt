//! The parts of an entry: outcomes of tasks, and what a bot reports of a run.
ghost use Rattle.std.specs.Prelude.{◌≡◌, ⊤, map, refl, IfOk, OnOk, codes};
ghost use Rattle.serde_json.specs.View.{view};
ghost use Rattle.line_parts.specs.Finding.{Finds};
ghost use Rattle.line_parts.specs.Lists.{items_in};
ghost use Rattle.line_parts.specs.Parts.{file_data, file_in, HoldsFile, chunk_data, chunk_of, chunk_in, HoldsChunk, last_data, last_in, HoldsLast, outcome_data, outcome_in, HoldsOutcome};
ghost use Rattle.line_parts.specs.PartLaws.{file_reads_back, file_is_shallow, chunk_reads_back, chunk_is_shallow, last_reads_back, last_never_null, last_has_no_float, last_is_shallow, outcome_reads_back, outcome_has_no_float, outcome_is_shallow};

use crate::LineFault;
use crate::line_field::{LineField, NotNull};
use crate::lists::items_of;
use crate::members::{read_field, with_field};
use dimensions::{Seq, Text};
use serde_json::{Map, Value};
use std::alloc::{AllocError, Global};
use swarm_model::{Chunk, Last, Outcome, TaskState};
use task_props::File;

/// A file, as `{"digest": DIGEST, "path": PATH, "size": SIZE}`.
impl LineField for File {
    ghost data_of = { file_data };

    ghost value_in = { file_in };

    ghost Holds = { HoldsFile };

    ghost levels = { 1 };

    fn to_value(&self, alloc: Global) -> Result<Value, AllocError> {
        let members = with_field(alloc, Map::new(alloc), "size", &self.size)?;
        let members = with_field(alloc, members, "path", &self.path)?;
        let members = with_field(alloc, members, "digest", &self.digest)?;
        Ok(Value::Object(members))
    }

    fn from_value(alloc: Global, value: &Value) -> Result<File, LineFault> {
        let digest = read_field::<[u8; 32]>(alloc, value, "digest")?;
        let path = read_field::<Text>(alloc, value, "path")?;
        let size = read_field::<u32>(alloc, value, "size")?;
        Ok(File { path, digest, size })
    }

    ghost reads_back = { file_reads_back };

    ghost has_no_float = { λ file. refl };

    ghost within_levels = { file_is_shallow };
}

fn read_chunk(alloc: Global, items: &[Value]) -> Result<Chunk, LineFault>
    ensures { Finds result (chunk_of (map view items.now)) }
{
    match items {
        [start, size, digest] => {
            let start = u32::from_value(alloc, start)?;
            let size = u32::from_value(alloc, size)?;
            let digest = <[u8; 32] as LineField>::from_value(alloc, digest)?;
            Ok(Chunk {
                start,
                size,
                digest,
            })
        }
        _ => Err(LineFault::NotALine),
    }
}

/// A piece of output, as `[START, SIZE, DIGEST]`.
impl LineField for Chunk {
    ghost data_of = { chunk_data };

    ghost value_in = { chunk_in };

    ghost Holds = { HoldsChunk };

    ghost levels = { 1 };

    fn to_value(&self, alloc: Global) -> Result<Value, AllocError> {
        let start = self.start.to_value(alloc)?;
        let size = self.size.to_value(alloc)?;
        let digest = self.digest.to_value(alloc)?;
        Ok(Value::Array(vec![in alloc; start, size, digest]?))
    }

    fn from_value(alloc: Global, value: &Value) -> Result<Chunk, LineFault> {
        let items = items_of(value)?;
        read_chunk(alloc, items)
    }

    ghost reads_back = { chunk_reads_back };

    ghost has_no_float = { λ chunk. refl };

    ghost within_levels = { chunk_is_shallow };
}

impl NotNull for Chunk {
    ghost never_null = { λ chunk. refl };
}

/// A report, an object of its fields by their names.
impl LineField for Last {
    ghost data_of = { last_data };

    ghost value_in = { last_in };

    ghost Holds = { HoldsLast };

    ghost levels = { 3 };

    #[tactic(auto, unfolding(crate::specs::Parts::last_data))]
    fn to_value(&self, alloc: Global) -> Result<Value, AllocError> {
        let members = with_field(alloc, Map::new(alloc), "io_timeout", &self.io_timeout)?;
        let members = with_field(alloc, members, "hard_timeout", &self.hard_timeout)?;
        let members = with_field(alloc, members, "files", &self.files)?;
        let members = with_field(alloc, members, "exit_code", &self.exit_code)?;
        let members = with_field(alloc, members, "duration_ms", &self.duration_ms)?;
        let members = with_field(alloc, members, "dropped", &self.dropped)?;
        Ok(Value::Object(members))
    }

    #[tactic(auto, unfolding(crate::specs::Parts::last_in))]
    fn from_value(alloc: Global, value: &Value) -> Result<Last, LineFault> {
        let dropped = read_field::<u64>(alloc, value, "dropped")?;
        let duration_ms = read_field::<u64>(alloc, value, "duration_ms")?;
        let exit_code = read_field::<i32>(alloc, value, "exit_code")?;
        let files = read_field::<Seq<File>>(alloc, value, "files")?;
        let hard_timeout = read_field::<bool>(alloc, value, "hard_timeout")?;
        let io_timeout = read_field::<bool>(alloc, value, "io_timeout")?;
        Ok(Last {
            exit_code,
            duration_ms,
            hard_timeout,
            io_timeout,
            dropped,
            files,
        })
    }

    ghost reads_back = { last_reads_back };

    ghost has_no_float = { last_has_no_float };

    ghost within_levels = { last_is_shallow };
}

impl NotNull for Last {
    ghost never_null = { last_never_null };
}

/// The place of a slice as a number, or the name of a state.
impl LineField for Outcome {
    ghost data_of = { outcome_data };

    ghost value_in = { outcome_in };

    ghost Holds = { HoldsOutcome };

    ghost levels = { 0 };

    fn to_value(&self, alloc: Global) -> Result<Value, AllocError> {
        match self {
            Outcome::Slice(place) => place.to_value(alloc),
            Outcome::Ended(state) => state.to_value(alloc),
        }
    }

    fn from_value(alloc: Global, value: &Value) -> Result<Outcome, LineFault> {
        if value.is_string() {
            let state = TaskState::from_value(alloc, value)?;
            return Ok(Outcome::Ended(state));
        }
        let place = u32::from_value(alloc, value)?;
        Ok(Outcome::Slice(place))
    }

    ghost reads_back = { outcome_reads_back };

    ghost has_no_float = { outcome_has_no_float };

    ghost within_levels = { outcome_is_shallow };
}
