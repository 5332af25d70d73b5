//! Asking for the output of a run.
ghost use Rattle.std.specs.Prelude.{◌≡◌, ◌≤◌, ◌%◌, ◌&&◌, nat_le, true, IfOk};
ghost use Rattle.serde_json.specs.View.{view};
ghost use Rattle.json_fields.specs.Readings.{Reads};
ghost use Rattle.task_bodies.specs.Stdouts.{length_of, stdout_in};

use json_fields::{read_id, read_number, read_required_text, read_whole};
use serde_json::Value;
use std::alloc::Global;
use task_props::PropFault;

/// The task or one of its runs, by the number of its id, and which bytes of the output are asked for.
#[derive(Clone, Copy)]
pub struct StdoutBody {
    pub id: u32,
    pub offset: u32,
    pub length: u32,
}

#[tactic(auto, unfolding(crate::specs::Stdouts::length_of))]
fn read_length(alloc: Global, number: i128) -> Result<u32, PropFault>
    ensures exact { Reads result (length_of number) }
    ensures within { IfOk result (λ length. (nat_le 1 length && nat_le length 65536) ≡ true) }
{
    let length = read_whole(alloc, "length", 0, 65_536, number)?;
    if length == 0 {
        Ok(65_536)
    } else {
        Ok(length as u32)
    }
}

/// Which bytes of which output a body asks for.
#[tactic(auto, unfolding(crate::specs::Stdouts::stdout_in))]
pub fn read_stdout(alloc: Global, body: &Value) -> Result<StdoutBody, PropFault>
    ensures exact { Reads result (stdout_in (view body.now)) }
    ensures try_no { IfOk result (λ asked. asked.id % 16 ≤ 2) }
    ensures offset { IfOk result (λ asked. asked.offset ≤ 67108864) }
    ensures length { IfOk result (λ asked. (nat_le 1 asked.length && nat_le asked.length 65536) ≡ true) }
{
    let text = read_required_text(alloc, body, "task_id")?;
    let from = read_number(alloc, body, "offset")?;
    let most = read_number(alloc, body, "length")?;
    let id = read_id(alloc, text)?;
    let offset = read_whole(alloc, "offset", 0, 67_108_864, from)?;
    let length = read_length(alloc, most)?;
    Ok(StdoutBody {
        id,
        offset: offset as u32,
        length,
    })
}
