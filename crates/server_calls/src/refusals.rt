//! What a refusal tells.
ghost use Rattle.serde_json.specs.View.{view};
ghost use Rattle.json_fields.specs.Readings.{Reads};
ghost use Rattle.server_calls.specs.Refusals.{refusal_in};

use crate::Told;
use dimensions::Seq;
use json_fields::{broken, read_required_text};
use refusal_codes::RefusalCode;
use serde_json::Value;
use std::alloc::Global;
use task_props::{PropFault, PropRule};

/// A refusal, of the value of a body.
#[tactic(auto, unfolding(crate::specs::Refusals::refusal_in))]
pub(crate) fn read_refusal(alloc: Global, body: &[u8], value: &Value) -> Result<Told, PropFault>
    ensures { Reads result (refusal_in body.now (view value.now)) }
{
    let name = read_required_text(alloc, value, "code")?;
    match RefusalCode::from_name(name) {
        Some(code) => Ok(Told::No {
            code,
            body: Seq::from_vec(body.to_vec(alloc)?),
        }),
        None => Err(broken(alloc, "code", PropRule::Grammar)),
    }
}
