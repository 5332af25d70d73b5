//! Asking which blobs a pool doesn't hold.
ghost use Rattle.std.specs.Prelude.{◌≡◌, ◌≤◌, true, IfOk, length};
ghost use Rattle.std.specs.List.{list_all};
ghost use Rattle.serde_json.specs.View.{view};
ghost use Rattle.json_fields.specs.Readings.{Reads};
ghost use Rattle.task_bodies.specs.BlobLists.{raw_blob_in, raw_blobs_in, blob_of, has_blob_size, blobs_in};

use dimensions::{Seq, Text};
use json_fields::{
    CheckItem, ReadFields, check_items, read_digest_at, read_number, read_optional_objects,
    read_required_text, read_whole,
};
use serde_json::Value;
use std::alloc::Global;
use task_props::{Digest, PropFault};

/// A blob, as it was read.
#[derive(Drop)]
pub(crate) struct RawBlob {
    pub digest: Text,
    pub size: i128,
}

/// A blob, by its digest and its size.
struct Blobs;

impl ReadFields for Blobs {
    type Value = RawBlob;

    ghost fields = { raw_blob_in };

    #[tactic(auto, unfolding(crate::specs::BlobLists::raw_blob_in))]
    fn read_fields(alloc: Global, blob: &Value) -> Result<RawBlob, PropFault> {
        let text = read_required_text(alloc, blob, "digest")?;
        let size = read_number(alloc, blob, "size")?;
        let digest = Text::from_str(alloc, text)?;
        Ok(RawBlob { digest, size })
    }
}

impl CheckItem for Blobs {
    type Raw = RawBlob;

    type Value = (Digest, u32);

    ghost checked = { blob_of };

    ghost fits = { has_blob_size };

    #[tactic(auto, unfolding(crate::specs::BlobLists::blob_of))]
    fn check_item(alloc: Global, raw: &RawBlob) -> Result<(Digest, u32), PropFault> {
        let digest = read_digest_at(alloc, "digest", raw.digest.as_str())?;
        let size = read_whole(alloc, "size", 0, 16_777_216, raw.size)?;
        Ok((digest, size as u32))
    }
}

/// The blobs of a body; an absent list is empty.
fn read_raw_blobs(alloc: Global, body: &Value) -> Result<Seq<RawBlob>, PropFault>
    ensures { Reads result (raw_blobs_in (view body.now)) }
{
    read_optional_objects::<Blobs>(alloc, body, "blobs")
}

/// The blobs that a body asks for, by their digests and sizes.
#[tactic(auto, unfolding(crate::specs::BlobLists::blobs_in))]
pub fn read_blobs(alloc: Global, body: &Value) -> Result<Seq<(Digest, u32)>, PropFault>
    ensures exact { Reads result (blobs_in (view body.now)) }
    ensures sizes { IfOk result (λ blobs. list_all has_blob_size blobs ≡ true) }
    ensures few { IfOk result (λ blobs. length blobs ≤ 512) }
{
    let raws = read_raw_blobs(alloc, body)?;
    check_items::<Blobs>(alloc, "blobs", 512, raws.as_slice())
}
