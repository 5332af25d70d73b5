//! What the replies of the calls on blobs tell.
ghost use Rattle.std.specs.Prelude.{◌≡◌, IfOk, codes};
ghost use Rattle.serde_json.specs.View.{view};
ghost use Rattle.json_fields.specs.Readings.{Reads};
ghost use Rattle.json_fields.specs.Fields.{object_item, each_at};
ghost use Rattle.server_calls.specs.Blobs.{blob_in, missing_in, put_in, blob_of as spec_blob_of};

use crate::Told;
use crate::members::{check_keys, read_digest, read_flag, read_size};
use dimensions::Seq;
use json_fields::{ReadFields, read_objects};
use serde_json::Value;
use sha2::{Digest as Hash, Sha256};
use std::alloc::{AllocError, Global};
use swarm_model::Reply;
use task_props::{Digest, PropFault};

/// Blobs, each by its digest and its size.
struct Blobs;

impl ReadFields for Blobs {
    type Value = (Digest, u32);

    ghost fields = { blob_in };

    #[tactic(auto, unfolding(crate::specs::Blobs::blob_in))]
    fn read_fields(alloc: Global, blob: &Value) -> Result<(Digest, u32), PropFault> {
        check_keys(alloc, blob, &["digest", "size"])?;
        let digest = read_digest(alloc, blob, "digest")?;
        let size = read_size(alloc, blob, "size")?;
        Ok((digest, size))
    }
}

fn read_blobs(alloc: Global, body: &Value) -> Result<Seq<(Digest, u32)>, PropFault>
    ensures { Reads result (each_at (object_item blob_in) (codes "blobs") (view body.now)) }
{
    read_objects::<Blobs>(alloc, body, "blobs")
}

/// The blobs that are not held.
#[tactic(auto, unfolding(crate::specs::Blobs::missing_in))]
pub(crate) fn read_missing(alloc: Global, body: &Value) -> Result<Told, PropFault>
    ensures { Reads result (missing_in (view body.now)) }
{
    check_keys(alloc, body, &["blobs"])?;
    let blobs = read_blobs(alloc, body)?;
    Ok(Told::Good {
        place: 0,
        reply: Reply::Missing { blobs },
        bytes: Seq::new(alloc),
    })
}

/// Whether the blob was not held before.
#[tactic(auto, unfolding(crate::specs::Blobs::put_in))]
pub(crate) fn read_put(alloc: Global, body: &Value) -> Result<Told, PropFault>
    ensures { Reads result (put_in (view body.now)) }
{
    check_keys(alloc, body, &["fresh"])?;
    let fresh = read_flag(alloc, body, "fresh")?;
    Ok(Told::Good {
        place: 0,
        reply: Reply::Put { fresh },
        bytes: Seq::new(alloc),
    })
}

/// The blob that a body is.
#[tactic(auto, unfolding(crate::specs::Blobs::blob_of))]
pub(crate) fn blob_of(alloc: Global, body: &[u8]) -> Result<Option<Told>, AllocError>
    ensures { IfOk result (λ told. told ≡ spec_blob_of body.now) }
{
    if body.len() > 16_777_216 {
        return Ok(None);
    }
    let bytes = body.to_vec(alloc)?;
    Ok(Some(Told::Good {
        place: 0,
        reply: Reply::Blob {
            digest: Sha256::digest(body),
            size: body.len() as u32,
        },
        bytes: Seq::from_vec(bytes),
    }))
}
