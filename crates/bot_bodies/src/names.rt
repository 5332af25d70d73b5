//! The names of bots, of their sessions and of their claims, and texts that are kept.
ghost use Rattle.std.specs.Prelude.{◌≡◌, ◌||◌, IfOk, true};
ghost use Rattle.serde_json.specs.View.{view};
ghost use Rattle.dimensions.specs.Rules.{is_empty};
ghost use Rattle.swarm_model.specs.Fits.{is_name as spec_is_name};
ghost use Rattle.json_fields.specs.Fields.{required_text_at};
ghost use Rattle.json_fields.specs.Readings.{Gives, Reads};
ghost use Rattle.bot_bodies.specs.Names.{name_of as spec_name_of, name_at, optional_name_at};

use dimensions::Text;
use json_fields::{broken, read_required_text};
use serde_json::Value;
use std::alloc::Global;
use swarm_model::is_name;
use task_props::{PropFault, PropRule};

/// A text that must be there, to be kept.
pub(crate) fn read_kept_text(alloc: Global, body: &Value, key: &str) -> Result<Text, PropFault>
    ensures { Reads result (required_text_at key.now (view body.now)) }
{
    let text = read_required_text(alloc, body, key)?;
    Ok(Text::from_str(alloc, text)?)
}

/// A text that is a name.
#[tactic(auto, unfolding(crate::specs::Names::name_of))]
fn name_of(text: &str) -> Result<&str, PropRule>
    ensures exact { Gives (λ s. s.now) result (spec_name_of text.now) }
    ensures named { IfOk result (λ name. spec_is_name name.now ≡ true) }
{
    if text.is_empty() || text.len() > 64 {
        return Err(PropRule::Count);
    }
    if !is_name(text) {
        return Err(PropRule::Grammar);
    }
    Ok(text)
}

/// A text of a key that must be a name.
pub(crate) fn read_name(alloc: Global, key: &str, text: &str) -> Result<Text, PropFault>
    ensures exact { Reads result (name_at key.now text.now) }
    ensures named { IfOk result (λ name. spec_is_name name ≡ true) }
{
    match name_of(text) {
        Ok(name) => Ok(Text::from_str(alloc, name)?),
        Err(rule) => Err(broken(alloc, key, rule)),
    }
}

/// The same of a text that may be empty, which is no name.
#[tactic(auto, unfolding(crate::specs::Names::optional_name_at))]
pub(crate) fn read_optional_name(alloc: Global, key: &str, text: &str) -> Result<Text, PropFault>
    ensures exact { Reads result (optional_name_at key.now text.now) }
    ensures named { IfOk result (λ name. (is_empty name || spec_is_name name) ≡ true) }
{
    if text.is_empty() {
        return Ok(Text::new(alloc));
    }
    read_name(alloc, key, text)
}
