//! A piece of the output of a run.
ghost use Rattle.std.specs.Prelude.{◌≡◌, ◌≤◌, ◌+◌, true, IfOk, IfSome, length, codes};
ghost use Rattle.std.specs.Option.{option_map_or};
ghost use Rattle.sha2.specs.Sha256.{sha256};
ghost use Rattle.serde_json.specs.View.{view};
ghost use Rattle.swarm_model.specs.Fits.{fits_chunk};
ghost use Rattle.json_fields.specs.Readings.{GivesUnlessMemory, Reads, at};
ghost use Rattle.bot_bodies.specs.Outputs.{raw_output_in, bytes_of, start_of, chunk_of as spec_chunk_of, output_of};

use base64::DecodeAllocError;
use base64::engine::general_purpose::STANDARD;
use dimensions::{Seq, Text};
use json_fields::{broken, read_number, read_text, read_whole};
use serde_json::Value;
use sha2::{Digest as Hash, Sha256};
use std::alloc::Global;
use swarm_model::Chunk;
use task_props::{PropFault, PropRule};

/// A piece, as it was read: its base64, and where it begins.
#[derive(Drop)]
pub(crate) struct RawOutput {
    pub text: Text,
    pub start: i128,
}

/// A piece, checked, with its bytes; no chunk where it is empty.
#[derive(Drop)]
pub struct Output {
    pub chunk: Option<Chunk>,
    pub bytes: Seq<u8>,
}

/// The piece in a body.
#[tactic(auto, unfolding(crate::specs::Outputs::raw_output_in))]
pub(crate) fn read_raw_output(alloc: Global, body: &Value) -> Result<RawOutput, PropFault>
    ensures { Reads result (raw_output_in (view body.now)) }
{
    let text = read_text(alloc, body, "output")?;
    let start = read_number(alloc, body, "output_chunk_start")?;
    Ok(RawOutput { text, start })
}

#[tactic(auto, unfolding(crate::specs::Outputs::bytes_of))]
fn read_bytes(alloc: Global, text: &str) -> Result<Vec<u8>, PropFault>
    ensures exact { GivesUnlessMemory (λ bytes. bytes.items) result (at (codes "output") (bytes_of text.now)) }
    ensures few { IfOk result (λ bytes. length bytes.items ≤ 32768) }
{
    match STANDARD.decode(alloc, text.as_bytes()) {
        Ok(bytes) => {
            if bytes.len() > 32_768 {
                Err(broken(alloc, "output", PropRule::Count))
            } else {
                Ok(bytes)
            }
        }
        Err(DecodeAllocError::OutOfMemory) => Err(PropFault::Memory),
        Err(DecodeAllocError::DecodeError(_)) => Err(broken(alloc, "output", PropRule::Grammar)),
    }
}

#[tactic(auto, unfolding(crate::specs::Outputs::start_of))]
fn read_start(alloc: Global, bytes: &[u8], start: i128) -> Result<u32, PropFault>
    requires few { length bytes.now ≤ 32768 }
    ensures exact { Reads result (at (codes "output_chunk_start") (start_of bytes.now start)) }
    ensures within { IfOk result (λ start. start + length bytes.now ≤ 67108864) }
{
    if bytes.is_empty() {
        return Ok(0);
    }
    let highest = 67_108_864 - bytes.len() as u64;
    let start = read_whole(alloc, "output_chunk_start", 0, highest, start)?;
    Ok(start as u32)
}

fn chunk_of(start: u32, bytes: &[u8]) -> Option<Chunk>
    requires few { length bytes.now ≤ 32768 }
    requires within { start + length bytes.now ≤ 67108864 }
    ensures is { result ≡ spec_chunk_of start bytes.now }
    ensures fits { option_map_or fits_chunk result true ≡ true }
{
    if bytes.is_empty() {
        return None;
    }
    Some(Chunk {
        start,
        size: bytes.len() as u32,
        digest: Sha256::digest(bytes),
    })
}

/// A piece, checked.
#[tactic(auto, unfolding(crate::specs::Outputs::output_of))]
pub(crate) fn read_output(alloc: Global, raw: &RawOutput) -> Result<Output, PropFault>
    ensures exact { Reads result (output_of raw.now) }
    ensures fits { IfOk result (λ output. option_map_or fits_chunk output.chunk true ≡ true) }
    ensures digest { IfOk result (λ output. IfSome output.chunk (λ chunk. chunk.digest ≡ sha256 output.bytes)) }
    ensures size { IfOk result (λ output. IfSome output.chunk (λ chunk. chunk.size ≡ length output.bytes)) }
{
    let bytes = read_bytes(alloc, raw.text.as_str())?;
    let start = read_start(alloc, bytes.as_slice(), raw.start)?;
    Ok(Output {
        chunk: chunk_of(start, bytes.as_slice()),
        bytes: Seq::from_vec(bytes),
    })
}
