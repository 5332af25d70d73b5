//! Reading the text.
ghost use Rattle.std.specs.Prelude.{◌≡◌, Err, IfOk, None, Some, map};
ghost use Rattle.std.specs.List.{list_all};
ghost use Rattle.bot_dimensions.specs.Pairs.{are_fitting, fitting_pairs, has_reserved_key as spec_has_reserved_key, is_pair as spec_is_pair, items_of, pair_of as spec_pair_of};

use crate::groups::{group_pairs, has_key, with_bot};
use dimensions::{BotDims, Seq, Text};
use std::alloc::{AllocError, Global};
use std::error::Error;
use std::fmt;

// The keys of a bot are 64 at most; `id`, `pool` and `caches` are three of them.
const MOST_KEYS: usize = 61;

/// Why a text gives no pairs.
#[derive(Clone, Copy, Debug, PartialEq, Eq)]
pub enum PairsFault {
    /// There was no memory for it.
    Memory,
    /// An item has no `=`, a key is `pool`, `id` or `caches`, there are more than 61 keys, or a bot
    /// with these pairs breaks a rule of the server.
    Grammar,
}

impl From<AllocError> for PairsFault {
    ghost use Rattle.std.specs.Prelude.{◌≡◌};
    ghost use Rattle.bot_dimensions.specs.declared.pairs.PairsFault.TheVariants.{Memory};

    ghost from_gives = { λ _ e. e ≡ Memory };

    fn from(_: AllocError) -> PairsFault {
        PairsFault::Memory
    }
}

impl fmt::Display for PairsFault {
    ghost use Rattle.std.specs.Prelude.{Some};
    ghost use Rattle.bot_dimensions.specs.Faults.{fault_text};

    ghost output = { λ fault. Some (fault_text fault) };

    fn fmt<W: fmt::Write>(&self, f: &mut fmt::Formatter<W>) -> fmt::Result {
        match self {
            PairsFault::Memory => f.write_str("want of memory"),
            PairsFault::Grammar => f.write_str("not the dimensions of a bot"),
        }
    }
}

impl Error for PairsFault {}

fn is_pair(item: &str) -> bool
    ensures { result ≡ spec_is_pair item.now }
{
    item.bytes().any(|byte| byte == b'=')
}

/// Whether each item of the text is a pair.
fn are_pairs(text: &str) -> bool
    ensures { result ≡ list_all spec_is_pair (items_of text.now) }
{
    text.is_empty() || text.split(';').all(|item| is_pair(item))
}

fn pair_of(alloc: Global, item: &str) -> Result<(Text, Text), AllocError>
    ensures { IfOk result (λ pair. pair ≡ spec_pair_of item.now) }
{
    let (key, value) = match item.split_once('=') {
        Some(parts) => parts,
        None => (item, ""),
    };
    Ok((Text::from_str(alloc, key)?, Text::from_str(alloc, value)?))
}

fn pairs_of(alloc: Global, text: &str) -> Result<Vec<(Text, Text)>, AllocError>
    ensures { IfOk result (λ pairs. pairs.items ≡ map spec_pair_of (items_of text.now)) }
{
    let mut pairs = Vec::new(alloc);
    if text.is_empty() {
        return Ok(pairs);
    }
    for item in text.split(';') {
        pairs.push(pair_of(alloc, item)?)?;
    }
    Ok(pairs)
}

fn has_reserved_key(pairs: &[(Text, Text)]) -> bool
    ensures { result ≡ spec_has_reserved_key pairs.now }
{
    has_key("pool", pairs) || has_key("id", pairs) || has_key("caches", pairs)
}

/// Whether the server takes a bot of this name and pool with these pairs.
fn are_fitting(
    alloc: Global,
    name: &str,
    pool: &str,
    pairs: &[(Text, Text)],
) -> Result<bool, AllocError>
    ensures { IfOk result (λ fit. fit ≡ are_fitting name.now pool.now pairs.now) }
{
    if has_reserved_key(pairs) {
        return Ok(false);
    }
    let groups = group_pairs(alloc, pairs)?;
    if groups.as_slice().len() > MOST_KEYS {
        return Ok(false);
    }
    let bot = with_bot(alloc, groups, name, pool)?;
    Ok(BotDims::broken(name, bot.as_slice()).is_none())
}

/// Reads the pairs of a bot of this name and pool: items `key=value` with `;` between them, each
/// cut at its first `=`. The empty text has none.
///
/// # Errors
///
/// [`PairsFault::Grammar`] where the text doesn't fit, and else want of memory.
pub fn read_pairs(
    alloc: Global,
    name: &str,
    pool: &str,
    text: &str,
) -> Result<Seq<(Text, Text)>, PairsFault>
    ensures pairs { IfOk result (λ pairs. fitting_pairs name.now pool.now text.now ≡ Some pairs) }
    ensures refused { result ≡ Err PairsFault.Grammar → fitting_pairs name.now pool.now text.now ≡ None }
{
    if !are_pairs(text) {
        return Err(PairsFault::Grammar);
    }
    let pairs = pairs_of(alloc, text)?;
    if !are_fitting(alloc, name, pool, &pairs)? {
        return Err(PairsFault::Grammar);
    }
    Ok(Seq::from_vec(pairs))
}
