//! Digests of contents, as texts.
ghost use Rattle.json_fields.specs.Readings.{Reads};
ghost use Rattle.json_fields.specs.Digests.{digest_at};

use crate::faults::broken;
use std::alloc::Global;
use task_props::{Digest, PropFault, PropRule, read_digest};

/// A text of a key that must be a digest: 64 hexadecimal digits in lower case.
pub fn read_digest_at(alloc: Global, key: &str, text: &str) -> Result<Digest, PropFault>
    ensures { Reads result (digest_at key.now text.now) }
{
    match read_digest(text) {
        Some(digest) => Ok(digest),
        None => Err(broken(alloc, key, PropRule::Grammar)),
    }
}
