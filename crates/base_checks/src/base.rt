//! Whether rows are a base.
ghost use Rattle.std.specs.Prelude.{◌≡◌, ◌≤◌, ◌^◌, ◌&&◌, IfOk, MatchBool};
ghost use Rattle.swarm_model.specs.BaseRules.{IsBase};
ghost use Rattle.base_checks.specs.RowRules.{has_right_counts, has_few_rows, is_light, is_within_limits, have_right_rows};
ghost use Rattle.base_checks.specs.Bases.{HaveNumbers, HaveRightRows, AreInAgreement, HaveOwnKeys};

use crate::agreeing::name_each_other;
use crate::apart::{
    are_blobs_apart, have_own_claims, have_own_digests, have_own_names, have_own_uuids,
};
use crate::deadlines::are_ahead;
use crate::needs::are_served;
use crate::numbers::are_numbered;
use crate::order::{are_in_order, have_rising_numbers};
use crate::outcomes::have_outcomes;
use crate::row_rules::{are_right_blobs, are_right_bots, are_right_tasks};
use std::alloc::{AllocError, Global};
use swarm_model::{PoolState, rows_weight};

/// The most blobs of a pool.
const MOST_BLOBS: usize = 262_144;

fn has_right_counts(base: &PoolState, count: u64) -> bool
    ensures { result ≡ has_right_counts count base.now }
{
    base.last <= 1 << 40 && u64::from(base.placed) <= count && count <= 1 << 31
}

fn has_few_rows(base: &PoolState) -> bool
    ensures { result ≡ has_few_rows base.now }
{
    base.tasks.as_slice().len() <= base.settings.most_tasks as usize
        && base.bots.as_slice().len() <= base.settings.most_bots as usize
        && base.blobs.as_slice().len() <= MOST_BLOBS
}

fn is_light(base: &PoolState) -> bool
    ensures { result ≡ is_light base.now }
{
    rows_weight(base) <= u64::from(base.settings.most_weight)
}

/// Whether no number and no list is greater than it may be. It comes before all that compares rows.
fn is_within_limits(base: &PoolState, count: u64) -> bool
    ensures { result ≡ is_within_limits count base.now }
{
    has_right_counts(base, count) && has_few_rows(base) && is_light(base)
}

fn have_numbers(base: &PoolState) -> bool
    ensures { MatchBool result (HaveNumbers base.now) (HaveNumbers base.now → ⊥) }
{
    if !are_numbered(base.tasks.as_slice()) {
        return false;
    }
    are_numbered(base.bots.as_slice())
}

/// Whether each row, for itself, may stand in a base.
fn have_right_rows(base: &PoolState) -> bool
    ensures { result ≡ have_right_rows base.now }
{
    let tasks = base.tasks.as_slice();
    let bots = base.bots.as_slice();
    are_right_tasks(&base.settings, base.last, bots.len(), tasks)
        && are_right_bots(&base.settings, base.last, tasks.len(), bots)
        && are_right_blobs(
            &base.settings,
            base.last,
            base.placed,
            base.blobs.as_slice(),
        )
}

/// Whether rows agree with those that they name, and with those before them.
fn are_in_agreement(base: &PoolState) -> bool
    requires last { base.now.last ≤ 2 ^ 40 }
    requires numbers { HaveNumbers base.now }
    requires rows { HaveRightRows base.now }
    ensures { MatchBool result (AreInAgreement base.now) (AreInAgreement base.now → ⊥) }
{
    let tasks = base.tasks.as_slice();
    let blobs = base.blobs.as_slice();
    if !are_ahead(base) {
        return false;
    }
    if !name_each_other(base.bots.as_slice(), tasks) {
        return false;
    }
    if !have_outcomes(tasks) {
        return false;
    }
    if !are_in_order(tasks) {
        return false;
    }
    have_rising_numbers(blobs)
}

/// Whether no two rows have what only one may have.
fn have_own_keys(alloc: Global, base: &PoolState) -> Result<bool, AllocError>
    requires numbers { HaveNumbers base.now }
    requires rows { HaveRightRows base.now }
    ensures { IfOk result (λ own. MatchBool own (HaveOwnKeys base.now) (HaveOwnKeys base.now → ⊥)) }
{
    let tasks = base.tasks.as_slice();
    let bots = base.bots.as_slice();
    let blobs = base.blobs.as_slice();
    let own_names = have_own_names(alloc, bots)?;
    if !own_names {
        return Ok(false);
    }
    let own_claims = have_own_claims(alloc, tasks)?;
    if !own_claims {
        return Ok(false);
    }
    let own_uuids = have_own_uuids(alloc, tasks)?;
    if !own_uuids {
        return Ok(false);
    }
    let own_digests = have_own_digests(alloc, blobs)?;
    if !own_digests {
        return Ok(false);
    }
    are_blobs_apart(alloc, blobs)
}

/// Whether a pool may open from the rows, after so many entries. Lists that are too long are told
/// before rows are compared with each other; of n rows it takes some n log n steps.
///
/// # Errors
///
/// Where memory is wanting for lists of what rows are compared by.
pub fn is_base(alloc: Global, base: &PoolState, count: u64) -> Result<bool, AllocError>
    ensures { IfOk result (λ is. MatchBool is (IsBase base.now.settings count base.now) (IsBase base.now.settings count base.now → ⊥)) }
{
    if !is_within_limits(base, count) {
        return Ok(false);
    }
    if !have_numbers(base) {
        return Ok(false);
    }
    if !have_right_rows(base) {
        return Ok(false);
    }
    if !are_in_agreement(base) {
        return Ok(false);
    }
    let own = have_own_keys(alloc, base)?;
    if !own {
        return Ok(false);
    }
    are_served(alloc, base.tasks.as_slice(), base.blobs.as_slice())
}
