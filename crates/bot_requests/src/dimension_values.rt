//! The dimensions that a bot tells.
ghost use Rattle.std.specs.Prelude.{◌≡◌, ◌++◌, IfOk};
ghost use Rattle.serde_json.specs.Data.{string};
ghost use Rattle.serde_json.specs.View.{view};
ghost use Rattle.bot_requests.specs.Dimensions.{caches_group, dimension_data, dimensions_data};

use bot_dimensions::{group_pairs, with_bot};
use dimensions::{Seq, Text, TryCopy};
use json_values::{ShowItem, list_value, with_list, with_text};
use serde_json::{Map, Value};
use std::alloc::{AllocError, Global};

struct Texts;

/// Keys, each with its values.
struct Groups;

impl ShowItem for Texts {
    type Item = Text;

    ghost value_of = { λ _. string };

    fn show(&self, alloc: Global, text: &Text) -> Result<Value, AllocError> {
        Value::try_from_str(alloc, text.as_str())
    }
}

impl ShowItem for Groups {
    type Item = (Text, Seq<Text>);

    ghost value_of = { λ _. dimension_data };

    fn show(&self, alloc: Global, group: &(Text, Seq<Text>)) -> Result<Value, AllocError> {
        let values = group.1.as_slice();
        let members = with_list(alloc, Map::new(alloc), "value", &Texts, values)?;
        let members = with_text(alloc, members, "key", group.0.as_str())?;
        Ok(Value::Object(members))
    }
}

/// The groups, and the names of the caches behind them, where there are any.
fn with_caches(
    alloc: Global,
    groups: Seq<(Text, Seq<Text>)>,
    caches: &Seq<Text>,
) -> Result<Seq<(Text, Seq<Text>)>, AllocError>
    ensures { IfOk result (λ all. all ≡ groups ++ caches_group caches.now) }
{
    let mut all = groups;
    if !caches.as_slice().is_empty() {
        let key = Text::from_str(alloc, "caches")?;
        all.try_push((key, caches.try_copy(alloc)?))?;
    }
    Ok(all)
}

/// The dimensions of a bot: its pairs by key, its caches where there are any, its name and its pool.
pub(crate) fn dimensions_value(
    alloc: Global,
    pairs: &[(Text, Text)],
    caches: &Seq<Text>,
    id: &str,
    pool: &str,
) -> Result<Value, AllocError>
    ensures { IfOk result (λ value. view value ≡ dimensions_data pairs.now caches.now id.now pool.now) }
{
    let groups = with_caches(alloc, group_pairs(alloc, pairs)?, caches)?;
    let groups = with_bot(alloc, groups, id, pool)?;
    list_value(alloc, &Groups, groups.as_slice())
}
