//! What a bot says of itself.
ghost use Rattle.std.specs.Prelude.{◌≡◌, ◌≢◌, ◌≤◌, IfOk, length, true, codes};
ghost use Rattle.serde_json.specs.View.{view};
ghost use Rattle.dimensions.specs.BotRules.{are_bot_checked};
ghost use Rattle.swarm_model.specs.Fits.{fits_message as spec_fits_message};
ghost use Rattle.json_fields.specs.Readings.{Reads, at};
ghost use Rattle.bot_bodies.specs.BotFields.{bot_pair_in, is_of_pair as spec_is_of_pair, dims_fault as spec_dims_fault, dims_of, quarantine_of, bot_info_in, bot_info_by, message_of, event_named as spec_event_named, event_of};

use dimensions::{BotDims, DimFault, DimRule, Seq, Text};
use json_fields::{
    ReadFields, below, broken, broken_at, read_objects, read_optional_texts, read_text,
};
use serde_json::Value;
use std::alloc::Global;
use swarm_model::{EventKind, fits_message};
use task_props::{PropFault, PropRule};

/// What a bot says of itself, as it was read.
#[derive(Drop)]
pub(crate) struct RawBotInfo {
    pub pairs: Seq<(Text, Seq<Text>)>,
    pub quarantined: Text,
}

/// What a bot has, and why it takes no work, where it takes none.
#[derive(Drop)]
pub(crate) struct BotInfo {
    pub dims: BotDims,
    pub quarantined: Text,
}

/// A key with its values.
struct BotPairFields;

impl ReadFields for BotPairFields {
    type Value = (Text, Seq<Text>);

    ghost fields = { bot_pair_in };

    #[tactic(auto, unfolding(crate::specs::BotFields::bot_pair_in))]
    fn read_fields(alloc: Global, pair: &Value) -> Result<(Text, Seq<Text>), PropFault> {
        let key = read_text(alloc, pair, "key")?;
        let values = read_optional_texts(alloc, pair, "value")?;
        Ok((key, values))
    }
}

/// Whether a rule speaks of a pair, and not of the list. A pair's place is below 64.
fn is_of_pair(rule: DimRule, place: u32) -> bool
    ensures { result ≡ spec_is_of_pair rule place }
{
    match rule {
        DimRule::TooMany => place != 64,
        DimRule::BadKey | DimRule::BadValue | DimRule::EmptyAlternative | DimRule::Repeated => true,
        DimRule::Pool | DimRule::Id => false,
    }
}

fn dims_fault(alloc: Global, rule: DimRule, place: u32) -> PropFault
    ensures { result ≢ PropFault.Memory → result ≡ spec_dims_fault rule place }
{
    if is_of_pair(rule, place) {
        let fault = broken_at(alloc, place as usize, PropRule::from(rule));
        below(alloc, "dimensions", fault)
    } else {
        broken(alloc, "dimensions", PropRule::from(rule))
    }
}

#[tactic(auto, unfolding(crate::specs::BotFields::dims_of))]
fn read_dims(alloc: Global, name: &str, pairs: Seq<(Text, Seq<Text>)>) -> Result<BotDims, PropFault>
    ensures exact { Reads result (dims_of name.now pairs) }
    ensures checked { IfOk result (λ dims. are_bot_checked name.now dims ≡ true) }
{
    match BotDims::read(alloc, name, pairs) {
        Ok(dims) => Ok(dims),
        Err(DimFault::Memory) => Err(PropFault::Memory),
        Err(DimFault::Broken { rule, place }) => Err(dims_fault(alloc, rule, place)),
    }
}

fn read_quarantined(alloc: Global, text: Text) -> Result<Text, PropFault>
    ensures exact { Reads result (at (codes "quarantined") (quarantine_of text)) }
    ensures short { IfOk result (λ message. length message ≤ 256) }
{
    if text.as_str().len() > 256 {
        return Err(broken(alloc, "quarantined", PropRule::Count));
    }
    Ok(text)
}

/// What a body says of a bot.
#[tactic(auto, unfolding(crate::specs::BotFields::bot_info_in))]
pub(crate) fn read_bot_info(alloc: Global, body: &Value) -> Result<RawBotInfo, PropFault>
    ensures { Reads result (bot_info_in (view body.now)) }
{
    let pairs = read_objects::<BotPairFields>(alloc, body, "dimensions")?;
    let quarantined = read_text(alloc, body, "quarantined")?;
    Ok(RawBotInfo { pairs, quarantined })
}

/// The same, checked, of a bot of this name.
#[tactic(auto, unfolding(crate::specs::BotFields::bot_info_by))]
pub(crate) fn check_bot_info(
    alloc: Global,
    name: &str,
    raw: RawBotInfo,
) -> Result<BotInfo, PropFault>
    ensures exact { Reads result (bot_info_by name.now raw) }
    ensures checked { IfOk result (λ info. are_bot_checked name.now info.dims ≡ true) }
    ensures short { IfOk result (λ info. length info.quarantined ≤ 256) }
{
    let dims = read_dims(alloc, name, raw.pairs)?;
    let quarantined = read_quarantined(alloc, raw.quarantined)?;
    Ok(BotInfo { dims, quarantined })
}

/// The message of an event.
pub(crate) fn read_message(alloc: Global, kind: EventKind, text: Text) -> Result<Text, PropFault>
    ensures exact { Reads result (at (codes "message") (message_of kind text)) }
    ensures fits { IfOk result (λ message. spec_fits_message kind message ≡ true) }
{
    if fits_message(kind, text.as_str()) {
        Ok(text)
    } else {
        Err(broken(alloc, "message", PropRule::Count))
    }
}

#[tactic(auto, unfolding(crate::specs::BotFields::event_named))]
fn event_named(name: &str) -> Option<EventKind>
    ensures { result ≡ spec_event_named name.now }
{
    match name {
        "ping" => Some(EventKind::Ping),
        "quarantine" => Some(EventKind::Quarantine),
        "unquarantine" => Some(EventKind::Unquarantine),
        _ => None,
    }
}

/// The event of a name.
pub(crate) fn read_event(alloc: Global, name: &str) -> Result<EventKind, PropFault>
    ensures { Reads result (at (codes "event") (event_of name.now)) }
{
    match event_named(name) {
        Some(kind) => Ok(kind),
        None => Err(broken(alloc, "event", PropRule::Grammar)),
    }
}
