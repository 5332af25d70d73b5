//! The items of lists.
ghost use Rattle.std.specs.Prelude.{◌≡◌, IfOk};
ghost use Rattle.hex.specs.Hex.{encode_lower};
ghost use Rattle.serde_json.specs.Data.{string, put};
ghost use Rattle.serde_json.specs.View.{members_view};
ghost use Rattle.reply_bodies.specs.Items.{pair_data, bot_pair_data, cache_data, file_data, blob_data};

use dimensions::{Seq, Text};
use json_values::{ShowItem, with_list, with_text, with_whole};
use serde_json::{Map, Value};
use std::alloc::{AllocError, Global};
use task_props::{Cache, Digest, File};

/// Texts.
pub(crate) struct Texts;

/// Keys with their values.
pub(crate) struct Pairs;

/// Keys of a bot, each with its values.
pub(crate) struct BotPairs;

/// Caches, each by its name and its path.
pub(crate) struct Caches;

/// Files, each by its path, its digest and its size.
pub(crate) struct Files;

/// Blobs, each by its digest and its size.
pub(crate) struct Blobs;

/// One more member, a digest as a hexadecimal text.
pub(crate) fn with_digest(
    alloc: Global,
    members: Map<String, Value>,
    key: &str,
    digest: &Digest,
) -> Result<Map<String, Value>, AllocError>
    ensures { IfOk result (λ more. members_view more.entries ≡ put key.now (string (encode_lower digest.now)) (members_view members.entries)) }
{
    let text = hex::encode(alloc, digest.as_slice())?;
    with_text(alloc, members, key, text.as_str())
}

impl ShowItem for Texts {
    type Item = Text;

    ghost value_of = { λ _. string };

    fn show(&self, alloc: Global, text: &Text) -> Result<Value, AllocError> {
        Value::try_from_str(alloc, text.as_str())
    }
}

impl ShowItem for Pairs {
    type Item = (Text, Text);

    ghost value_of = { λ _. pair_data };

    fn show(&self, alloc: Global, pair: &(Text, Text)) -> Result<Value, AllocError> {
        let members = with_text(alloc, Map::new(alloc), "value", pair.1.as_str())?;
        let members = with_text(alloc, members, "key", pair.0.as_str())?;
        Ok(Value::Object(members))
    }
}

impl ShowItem for BotPairs {
    type Item = (Text, Seq<Text>);

    ghost value_of = { λ _. bot_pair_data };

    fn show(&self, alloc: Global, pair: &(Text, Seq<Text>)) -> Result<Value, AllocError> {
        let values = pair.1.as_slice();
        let members = with_list(alloc, Map::new(alloc), "value", &Texts, values)?;
        let members = with_text(alloc, members, "key", pair.0.as_str())?;
        Ok(Value::Object(members))
    }
}

impl ShowItem for Caches {
    type Item = Cache;

    ghost value_of = { λ _. cache_data };

    fn show(&self, alloc: Global, cache: &Cache) -> Result<Value, AllocError> {
        let members = with_text(alloc, Map::new(alloc), "path", cache.path.as_str())?;
        let members = with_text(alloc, members, "name", cache.name.as_str())?;
        Ok(Value::Object(members))
    }
}

impl ShowItem for Files {
    type Item = File;

    ghost value_of = { λ _. file_data };

    fn show(&self, alloc: Global, file: &File) -> Result<Value, AllocError> {
        let members = with_whole(alloc, Map::new(alloc), "size", u64::from(file.size))?;
        let members = with_text(alloc, members, "path", file.path.as_str())?;
        let members = with_digest(alloc, members, "digest", &file.digest)?;
        Ok(Value::Object(members))
    }
}

impl ShowItem for Blobs {
    type Item = (Digest, u32);

    ghost value_of = { λ _. blob_data };

    fn show(&self, alloc: Global, blob: &(Digest, u32)) -> Result<Value, AllocError> {
        let members = with_whole(alloc, Map::new(alloc), "size", u64::from(blob.1))?;
        let members = with_digest(alloc, members, "digest", &blob.0)?;
        Ok(Value::Object(members))
    }
}
