//! The requests.
ghost use Rattle.std.specs.Prelude.{◌≡◌, ◌≤◌, IfOk, length, string_bytes};
ghost use Rattle.serde_json.specs.Written.{compact_text};
ghost use Rattle.bot_requests.specs.Bodies.{update_data};
ghost use Rattle.bot_requests.specs.Requests.{request_by as spec_request_by, handshake_text, poll_text, claim_text, update_text, blob_path as spec_blob_path, get_blob_text, put_blob_text};

use crate::Hands;
use crate::bodies::{claim_value, handshake_value, poll_value};
use crate::reports::update_value;
use bot_core::End;
use client_requests::request_text;
use dimensions::{Seq, Text};
use routes::targets;
use std::alloc::{AllocError, Global};
use task_props::Digest;

fn request_by(
    alloc: Global,
    method: &str,
    path: &str,
    hands: &Hands,
    body: &[u8],
) -> Result<Vec<u8>, AllocError>
    ensures { IfOk result (λ text. text.items ≡ spec_request_by method.now path.now hands.now body.now) }
{
    let host = hands.host.as_str();
    let caller = hands.caller.as_str();
    request_text(alloc, method, path, host, caller, body)
}

/// Greets the pool, in a session that is named by the bot's first moment and a number. `caches` are
/// the names of the bot's caches.
///
/// # Errors
///
/// Only want of memory, as of each request.
#[tactic(auto, using(crate::proofs::NoFloats::handshake_is_plain))]
pub fn handshake_request(
    alloc: Global,
    hands: &Hands,
    caches: &Seq<Text>,
    first: u64,
    session: u64,
) -> Result<Vec<u8>, AllocError>
    ensures { IfOk result (λ text. text.items ≡ handshake_text hands.now caches.now first session) }
{
    let body = handshake_value(alloc, hands, caches, first, session)?.to_vec(alloc)?;
    request_by(alloc, "POST", targets::HANDSHAKE, hands, body.as_slice())
}

/// Asks the pool what to do.
#[tactic(auto, using(crate::proofs::NoFloats::poll_is_plain))]
pub fn poll_request(alloc: Global, hands: &Hands, caches: &Seq<Text>) -> Result<Vec<u8>, AllocError>
    ensures { IfOk result (λ text. text.items ≡ poll_text hands.now caches.now) }
{
    let body = poll_value(alloc, hands, caches)?.to_vec(alloc)?;
    request_by(alloc, "POST", targets::POLL, hands, body.as_slice())
}

/// Asks for a task.
#[tactic(auto, using(crate::proofs::NoFloats::claim_is_plain))]
pub fn claim_request(
    alloc: Global,
    hands: &Hands,
    first: u64,
    session: u64,
    claim: u64,
) -> Result<Vec<u8>, AllocError>
    ensures { IfOk result (λ text. text.items ≡ claim_text hands.now first session claim) }
{
    let body = claim_value(alloc, hands, first, session, claim)?.to_vec(alloc)?;
    request_by(alloc, "POST", targets::CLAIM, hands, body.as_slice())
}

#[tactic(auto, using(crate::proofs::NoFloats::update_is_plain))]
fn update_body(
    alloc: Global,
    hands: &Hands,
    run: &str,
    start: u32,
    size: u32,
    last: &Option<End>,
) -> Result<Vec<u8>, AllocError>
    requires { size ≤ length hands.now.pending.items }
    ensures { IfOk result (λ text. text.items ≡ compact_text (update_data hands.now run.now start size last.now)) }
{
    update_value(alloc, hands, run, start, size, last)?.to_vec(alloc)
}

/// Reports the first `size` bytes of the pending output of a run, which stand at `start` in the whole
/// output, and the end of the run with its files where this is the last report.
pub fn update_request(
    alloc: Global,
    hands: &Hands,
    run: &Text,
    start: u32,
    size: u32,
    last: &Option<End>,
) -> Result<Vec<u8>, AllocError>
    requires { size ≤ length hands.now.pending.items }
    ensures { IfOk result (λ text. text.items ≡ update_text hands.now run.now start size last.now) }
{
    let body = update_body(alloc, hands, run.as_str(), start, size, last)?;
    request_by(alloc, "POST", targets::TASK_UPDATE, hands, body.as_slice())
}

#[tactic(auto, unfolding(crate::specs::Requests::blob_path))]
fn blob_path(alloc: Global, pool: &str, digest: &Digest) -> Result<String, AllocError>
    ensures { IfOk result (λ path. string_bytes path ≡ spec_blob_path pool.now digest.now) }
{
    let name = hex::encode(alloc, digest.as_slice())?;
    format!(in alloc; "/blobs/{pool}/{name}")
}

/// Asks for the bytes of a blob of the pool.
pub fn get_blob_request(
    alloc: Global,
    hands: &Hands,
    digest: &Digest,
) -> Result<Vec<u8>, AllocError>
    ensures { IfOk result (λ text. text.items ≡ get_blob_text hands.now digest.now) }
{
    let path = blob_path(alloc, hands.pool.as_str(), digest)?;
    request_by(alloc, "GET", path.as_str(), hands, &[])
}

/// Puts bytes under a digest into the pool's blobs.
pub fn put_blob_request(
    alloc: Global,
    hands: &Hands,
    digest: &Digest,
    bytes: &[u8],
) -> Result<Vec<u8>, AllocError>
    ensures { IfOk result (λ text. text.items ≡ put_blob_text hands.now digest.now bytes.now) }
{
    let path = blob_path(alloc, hands.pool.as_str(), digest)?;
    request_by(alloc, "PUT", path.as_str(), hands, bytes)
}
