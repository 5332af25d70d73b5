//! The keys of rows, as they are compared.
ghost use Rattle.std.specs.Prelude.{◌≡◌, ◌++◌, map, flat_map, filter_map, IfOk, OnOk};
ghost use Rattle.std.specs.Option.{option_map, option_to_list};
ghost use Rattle.blob_rows.specs.BlobRows.{extent_of_row};
ghost use Rattle.swarm_model.specs.Soundness.{claim_key, lost_key, sent_key};
ghost use Rattle.base_checks.specs.Keys.{text_in, claim_in, pair_in};
ghost use Rattle.base_checks.specs.Rows.{name_of, digest_of, claims_of};

use blob_rows::{BlobRow, Digest, Extent};
use dimensions::Text;
use std::alloc::{AllocError, Global};
use swarm_model::{BotRow, TaskRow};

/// The names of bots.
pub(crate) fn names(alloc: Global, bots: &[BotRow]) -> Result<Vec<&Text>, AllocError>
    ensures { IfOk result (λ names. map text_in names.items ≡ map name_of bots.now) }
{
    bots.iter().map(|bot| &bot.name).collect(alloc)
}

/// The digests of blobs.
pub(crate) fn digests(alloc: Global, blobs: &[BlobRow]) -> Result<Vec<Digest>, AllocError>
    ensures { IfOk result (λ digests. digests.items ≡ map digest_of blobs.now) }
{
    let mut digests = Vec::with_capacity(alloc, blobs.len())?;
    for blob in blobs {
        digests.push(blob.digest)?;
    }
    Ok(digests)
}

/// Where the bytes of blobs lie.
pub(crate) fn extents(alloc: Global, blobs: &[BlobRow]) -> Result<Vec<Extent>, AllocError>
    ensures { IfOk result (λ extents. extents.items ≡ map extent_of_row blobs.now) }
{
    blobs.iter().map(|blob| blob.extent).collect(alloc)
}

/// The bot that runs the task, or ran it last, and the id of its claim.
fn last_claim(task: &TaskRow) -> Option<(u32, &Text)>
    ensures { option_map claim_in result ≡ claim_key task.now }
{
    match &task.attempt {
        None => None,
        Some(attempt) => Some((attempt.bot, &attempt.claim)),
    }
}

/// Those of the run that was tried again.
fn lost_claim(task: &TaskRow) -> Option<(u32, &Text)>
    ensures { option_map claim_in result ≡ lost_key task.now }
{
    match task.retried.as_ref() {
        None => None,
        Some(lost) => Some((lost.attempt.bot, &lost.attempt.claim)),
    }
}

/// The caller who sent the task under a uuid, and the uuid.
fn sent_uuid(task: &TaskRow) -> Option<(&Text, &Text)>
    ensures { option_map pair_in result ≡ sent_key task.now }
{
    if task.request.request_uuid.as_str().is_empty() {
        return None;
    }
    Some((&task.creator, &task.request.request_uuid))
}

/// Adds a key, where there is one.
fn push_key<K: Drop>(keys: &mut Vec<K>, key: Option<K>) -> Result<(), AllocError>
    ensures { OnOk result (keys.new.items ≡ keys.old.items ++ option_to_list key) }
{
    if let Some(key) = key {
        keys.push(key)?;
    }
    Ok(())
}

/// The claims of all runs.
pub(crate) fn claims(alloc: Global, tasks: &[TaskRow]) -> Result<Vec<(u32, &Text)>, AllocError>
    ensures { IfOk result (λ claims. map claim_in claims.items ≡ flat_map claims_of tasks.now) }
{
    let mut claims = Vec::new(alloc);
    for task in tasks {
        push_key(&mut claims, last_claim(task))?;
        push_key(&mut claims, lost_claim(task))?;
    }
    Ok(claims)
}

/// The uuids under which tasks were sent, with their callers.
pub(crate) fn uuids(alloc: Global, tasks: &[TaskRow]) -> Result<Vec<(&Text, &Text)>, AllocError>
    ensures { IfOk result (λ uuids. map pair_in uuids.items ≡ filter_map sent_key tasks.now) }
{
    let mut uuids = Vec::new(alloc);
    for task in tasks {
        push_key(&mut uuids, sent_uuid(task))?;
    }
    Ok(uuids)
}
