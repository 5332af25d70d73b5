//! The bodies of a bot's requests but its reports.
ghost use Rattle.std.specs.Prelude.{◌≡◌, IfOk};
ghost use Rattle.serde_json.specs.View.{view};
ghost use Rattle.bot_requests.specs.Bodies.{handshake_data, poll_data, claim_data};

use crate::Hands;
use crate::dimension_values::dimensions_value;
use crate::names::{claim_name, session_name};
use dimensions::{Seq, Text};
use json_values::{with, with_text};
use serde_json::{Map, Value};
use std::alloc::{AllocError, Global};

#[tactic(auto, unfolding(crate::specs::Bodies::handshake_data))]
pub(crate) fn handshake_value(
    alloc: Global,
    hands: &Hands,
    caches: &Seq<Text>,
    first: u64,
    session: u64,
) -> Result<Value, AllocError>
    ensures { IfOk result (λ value. view value ≡ handshake_data hands.now caches.now first session) }
{
    let members = Map::new(alloc);
    let name = session_name(alloc, first, session)?;
    let members = with(alloc, members, "session", Value::String(name))?;
    let dimensions = dimensions_value(
        alloc,
        hands.dims.as_slice(),
        caches,
        hands.id.as_str(),
        hands.pool.as_str(),
    )?;
    let members = with(alloc, members, "dimensions", dimensions)?;
    let members = with_text(alloc, members, "bot_id", hands.id.as_str())?;
    Ok(Value::Object(members))
}

#[tactic(auto, unfolding(crate::specs::Bodies::poll_data))]
pub(crate) fn poll_value(
    alloc: Global,
    hands: &Hands,
    caches: &Seq<Text>,
) -> Result<Value, AllocError>
    ensures { IfOk result (λ value. view value ≡ poll_data hands.now caches.now) }
{
    let members = Map::new(alloc);
    let dimensions = dimensions_value(
        alloc,
        hands.dims.as_slice(),
        caches,
        hands.id.as_str(),
        hands.pool.as_str(),
    )?;
    let members = with(alloc, members, "dimensions", dimensions)?;
    let members = with_text(alloc, members, "bot_id", hands.id.as_str())?;
    Ok(Value::Object(members))
}

#[tactic(auto, unfolding(crate::specs::Bodies::claim_data))]
pub(crate) fn claim_value(
    alloc: Global,
    hands: &Hands,
    first: u64,
    session: u64,
    claim: u64,
) -> Result<Value, AllocError>
    ensures { IfOk result (λ value. view value ≡ claim_data hands.now first session claim) }
{
    let members = Map::new(alloc);
    let members = with_text(alloc, members, "pool", hands.pool.as_str())?;
    let name = claim_name(alloc, first, session, claim)?;
    let members = with(alloc, members, "claim_id", Value::String(name))?;
    let members = with_text(alloc, members, "bot_id", hands.id.as_str())?;
    Ok(Value::Object(members))
}
