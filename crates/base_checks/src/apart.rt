//! Rows of one key that are one row.
ghost use Rattle.std.specs.Prelude.{All, map, IfOk, MatchBool};
ghost use Rattle.blob_rows.specs.BlobRows.{extent_of_row};
ghost use Rattle.blob_rows.specs.Extents.{AreApart};
ghost use Rattle.swarm_model.specs.Numbers.{AreNumbered};
ghost use Rattle.swarm_model.specs.Effects.{no_of_task, no_of_bot};
ghost use Rattle.base_checks.specs.Rows.{HasRightTry, HasUnits, HaveOwnNames, HaveOwnClaims, HaveOwnUuids, HaveOwnDigests};

use crate::keys::{claims, digests, extents, names, uuids};
use crate::overlap::extents_overlap;
use crate::twice::stands_twice;
use blob_rows::BlobRow;
use std::alloc::{AllocError, Global};
use swarm_model::{BotRow, TaskRow};

/// Whether bots of one name are one bot.
///
/// # Errors
///
/// Where memory is wanting for a list of the names. So it is with the keys of the other rules.
pub fn have_own_names(alloc: Global, bots: &[BotRow]) -> Result<bool, AllocError>
    requires numbered { AreNumbered no_of_bot 1 bots.now }
    ensures { IfOk result (λ own. MatchBool own (HaveOwnNames bots.now) (HaveOwnNames bots.now → ⊥)) }
{
    let mut keys = names(alloc, bots)?;
    Ok(!stands_twice(&mut keys))
}

/// Whether tasks that one bot claimed under one id are one task.
pub fn have_own_claims(alloc: Global, tasks: &[TaskRow]) -> Result<bool, AllocError>
    requires numbered { AreNumbered no_of_task 1 tasks.now }
    requires tries { All HasRightTry tasks.now }
    ensures { IfOk result (λ own. MatchBool own (HaveOwnClaims tasks.now) (HaveOwnClaims tasks.now → ⊥)) }
{
    let mut keys = claims(alloc, tasks)?;
    Ok(!stands_twice(&mut keys))
}

/// Whether tasks that one caller sent under one uuid are one task.
pub fn have_own_uuids(alloc: Global, tasks: &[TaskRow]) -> Result<bool, AllocError>
    requires numbered { AreNumbered no_of_task 1 tasks.now }
    ensures { IfOk result (λ own. MatchBool own (HaveOwnUuids tasks.now) (HaveOwnUuids tasks.now → ⊥)) }
{
    let mut keys = uuids(alloc, tasks)?;
    Ok(!stands_twice(&mut keys))
}

/// Whether each digest has one blob at most.
pub fn have_own_digests(alloc: Global, blobs: &[BlobRow]) -> Result<bool, AllocError>
    ensures { IfOk result (λ own. MatchBool own (HaveOwnDigests blobs.now) (HaveOwnDigests blobs.now → ⊥)) }
{
    let mut keys = digests(alloc, blobs)?;
    Ok(!stands_twice(&mut keys))
}

/// Whether no two blobs share a unit of the region.
pub fn are_blobs_apart(alloc: Global, blobs: &[BlobRow]) -> Result<bool, AllocError>
    requires units { All HasUnits blobs.now }
    ensures { IfOk result (λ apart. MatchBool apart (AreApart (map extent_of_row blobs.now)) (AreApart (map extent_of_row blobs.now) → ⊥)) }
{
    let mut extents = extents(alloc, blobs)?;
    Ok(!extents_overlap(&mut extents))
}
