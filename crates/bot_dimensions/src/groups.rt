//! The pairs of a bot by key.
ghost use Rattle.std.specs.Prelude.{◌≡◌, ◌++◌, ◌∷◌, [], IfOk};
ghost use Rattle.bot_dimensions.specs.Groups.{has_key as spec_has_key, values_of as spec_values_of, groups_of, groups_with_bot};

use dimensions::{Seq, Text};
use std::alloc::{AllocError, Global};

pub(crate) fn has_key(key: &str, pairs: &[(Text, Text)]) -> bool
    ensures { result ≡ spec_has_key key.now pairs.now }
{
    for pair in pairs {
        if pair.0.as_str() == key {
            return true;
        }
    }
    false
}

fn values_of(alloc: Global, key: &str, pairs: &[(Text, Text)]) -> Result<Vec<Text>, AllocError>
    ensures { IfOk result (λ values. values.items ≡ spec_values_of key.now pairs.now) }
{
    let mut values = Vec::new(alloc);
    for pair in pairs {
        if pair.0.as_str() == key {
            values.push(Text::from_str(alloc, pair.1.as_str())?)?;
        }
    }
    Ok(values)
}

fn group_of(
    alloc: Global,
    key: &str,
    pairs: &[(Text, Text)],
) -> Result<(Text, Seq<Text>), AllocError>
    ensures { IfOk result (λ group. group ≡ (key.now, spec_values_of key.now pairs.now)) }
{
    let values = values_of(alloc, key, pairs)?;
    Ok((Text::from_str(alloc, key)?, Seq::from_vec(values)))
}

fn list_groups(alloc: Global, pairs: &[(Text, Text)]) -> Result<Vec<(Text, Seq<Text>)>, AllocError>
    ensures { IfOk result (λ groups. groups.items ≡ groups_of pairs.now) }
{
    let mut groups = Vec::new(alloc);
    for place in 0..pairs.len() {
        let key = pairs[place].0.as_str();
        if !has_key(key, &pairs[..place]) {
            groups.push(group_of(alloc, key, &pairs[place..])?)?;
        }
    }
    Ok(groups)
}

/// The pairs by key: each key where it comes first, with all its values in their order.
///
/// # Errors
///
/// There is no memory for it.
pub fn group_pairs(
    alloc: Global,
    pairs: &[(Text, Text)],
) -> Result<Seq<(Text, Seq<Text>)>, AllocError>
    ensures { IfOk result (λ groups. groups ≡ groups_of pairs.now) }
{
    Ok(Seq::from_vec(list_groups(alloc, pairs)?))
}

/// A key with one value.
fn single_group(alloc: Global, key: &str, value: &str) -> Result<(Text, Seq<Text>), AllocError>
    ensures { IfOk result (λ group. group ≡ (key.now, value.now ∷ [])) }
{
    let value = Text::from_str(alloc, value)?;
    let values = vec![in alloc; value]?;
    Ok((Text::from_str(alloc, key)?, Seq::from_vec(values)))
}

/// The groups, and the name and the pool of the bot behind them.
pub fn with_bot(
    alloc: Global,
    groups: Seq<(Text, Seq<Text>)>,
    name: &str,
    pool: &str,
) -> Result<Seq<(Text, Seq<Text>)>, AllocError>
    ensures { IfOk result (λ all. all ≡ groups_with_bot name.now pool.now groups) }
{
    let mut all = groups.into_vec();
    all.push(single_group(alloc, "id", name)?)?;
    all.push(single_group(alloc, "pool", pool)?)?;
    Ok(Seq::from_vec(all))
}
