//! The output of a run.
ghost use Rattle.std.specs.Prelude.{◌≡◌, ◌-◌, IfOk, take, drop};
ghost use Rattle.base64.specs.Engines.{standard};
ghost use Rattle.base64.specs.GeneralPurpose.{encode_of};
ghost use Rattle.serde_json.specs.View.{members_view};
ghost use Rattle.reply_bodies.specs.Bodies.{joined, stdout_members as spec_stdout_members};

use crate::refusals::one_text;
use base64::engine::general_purpose::STANDARD;
use dimensions::Seq;
use json_values::with_text;
use serde_json::{Map, Value};
use std::alloc::{AllocError, Global};
use swarm_model::{Part, TaskState};

/// The bytes of a part, as far as its piece has them.
fn part_bytes<'a>(part: &Part, piece: &'a [u8]) -> &'a [u8]
    ensures { result.now ≡ take (part.now.to - part.now.from) (drop part.now.from piece.now) }
{
    let from = part.from as usize;
    let most = part.to.saturating_sub(part.from) as usize;
    let Some(rest) = piece.get(from..) else {
        return &[];
    };
    match rest.get(..most) {
        Some(bytes) => bytes,
        None => rest,
    }
}

/// The bytes of the parts, one after the other.
fn join(alloc: Global, parts: &[Part], pieces: &[Seq<u8>]) -> Result<Vec<u8>, AllocError>
    ensures { IfOk result (λ bytes. bytes.items ≡ joined parts.now pieces.now) }
{
    let mut bytes = Vec::new(alloc);
    for (part, piece) in parts.iter().zip(pieces) {
        bytes.extend_from_slice(part_bytes(part, piece.as_slice()))?;
    }
    Ok(bytes)
}

/// The output of a run, in base64 (RFC 4648, section 4).
pub(crate) fn stdout_members(
    alloc: Global,
    state: TaskState,
    parts: &[Part],
    pieces: &[Seq<u8>],
) -> Result<Map<String, Value>, AllocError>
    ensures { IfOk result (λ members. members_view members.entries ≡ spec_stdout_members state (joined parts.now pieces.now)) }
{
    let bytes = join(alloc, parts, pieces)?;
    let output = STANDARD.encode(alloc, bytes.as_slice())?;
    let members = one_text(alloc, "state", state.name())?;
    with_text(alloc, members, "output", output.as_str())
}
