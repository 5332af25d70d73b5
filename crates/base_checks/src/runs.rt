//! What is kept of the runs of a task.
ghost use Rattle.std.specs.Prelude.{◌≡◌, true, slice_get};
ghost use Rattle.std.specs.List.{list_all};
ghost use Rattle.std.specs.Option.{option_copied, option_map_or};
ghost use Rattle.swarm_model.specs.Fits.{fits_chunk};
ghost use Rattle.base_checks.specs.Runs.{has_right_claim, has_right_reports, are_in_row, has_right_output, is_right_run, is_right_try, is_right_attempt, is_idempotent_at, is_open_run, is_right_loss};
ghost use Rattle.base_checks.specs.RowRules.{has_right_runs};

use request_fits::{fits_chunk, fits_chunk_or_none, fits_last_or_none};
use swarm_model::{Attempt, Chunk, Retried, TaskRow, is_name};
use task_props::Slice;

/// The bytes of the longest output.
const LONGEST_OUTPUT: u32 = 67_108_864;

/// Whether one of so many bots claimed the run under a name, no later than the moment.
fn has_right_claim(moment: u64, bots: usize, attempt: &Attempt) -> bool
    ensures { result ≡ has_right_claim moment bots attempt.now }
{
    1 <= attempt.bot
        && attempt.bot as usize <= bots
        && is_name(attempt.claim.as_str())
        && attempt.begun <= moment
}

fn are_fit_chunks(chunks: &[Chunk]) -> bool
    ensures { result ≡ list_all fits_chunk chunks.now }
{
    chunks.iter().all(|chunk| fits_chunk(chunk))
}

/// Whether reports may hold what was reported, and the last chunk came with the last report.
fn has_right_reports(attempt: &Attempt) -> bool
    ensures { result ≡ has_right_reports attempt.now }
{
    are_fit_chunks(attempt.chunks.as_slice())
        && fits_last_or_none(&attempt.last)
        && fits_chunk_or_none(&attempt.last_chunk)
        && (attempt.last_chunk.is_none() || attempt.last.is_some())
}

/// Whether the chunks follow each other from the first byte of so many to the last.
fn are_in_row(chunks: &[Chunk], total: u32) -> bool
    ensures { result ≡ are_in_row 0 chunks.now total }
{
    let mut end = 0u64;
    for chunk in chunks {
        if u64::from(chunk.start) != end {
            return false;
        }
        end = u64::from(chunk.start) + u64::from(chunk.size);
    }
    end == u64::from(total)
}

fn has_right_output(attempt: &Attempt) -> bool
    ensures { result ≡ has_right_output attempt.now }
{
    are_in_row(attempt.chunks.as_slice(), attempt.length) && attempt.length <= LONGEST_OUTPUT
}

fn is_right_run(moment: u64, bots: usize, attempt: &Attempt) -> bool
    ensures { result ≡ is_right_run moment bots attempt.now }
{
    has_right_claim(moment, bots, attempt)
        && has_right_reports(attempt)
        && has_right_output(attempt)
}

/// Whether the run is the first of its task, or, where one was lost, the second and by another bot.
fn is_right_try(lost: Option<&Retried>, attempt: &Attempt) -> bool
    ensures { result ≡ is_right_try (option_copied lost.entry) attempt.now }
{
    match lost {
        None => attempt.try_no == 1,
        Some(lost) => attempt.try_no == 2 && attempt.bot != lost.attempt.bot,
    }
}

fn is_right_attempt(moment: u64, bots: usize, lost: Option<&Retried>, attempt: &Attempt) -> bool
    ensures { result ≡ is_right_attempt moment bots (option_copied lost.entry) attempt.now }
{
    is_right_run(moment, bots, attempt) && is_right_try(lost, attempt)
}

fn slice_at(slices: &[Slice], place: u32) -> Option<&Slice>
    ensures { option_copied result ≡ slice_get slices.now place }
{
    slices.get(place as usize)
}

/// Whether the slice of the place may run twice.
fn is_idempotent_at(slices: &[Slice], place: u32) -> bool
    ensures { result ≡ is_idempotent_at slices.now place }
{
    match slice_at(slices, place) {
        None => false,
        Some(slice) => slice.properties.idempotent,
    }
}

/// Whether the run is the first of its task, was not asked to stop and has no last report.
fn is_open_run(attempt: &Attempt) -> bool
    ensures { result ≡ is_open_run attempt.now }
{
    attempt.try_no == 1 && !attempt.kill && attempt.last.is_none()
}

/// Whether such a run was lost, of a slice that may run twice in a pool that retries so often.
fn is_right_loss(retries: u32, moment: u64, bots: usize, slices: &[Slice], lost: &Retried) -> bool
    ensures { result ≡ is_right_loss retries moment bots slices.now lost.now }
{
    retries == 1
        && is_idempotent_at(slices, lost.slice)
        && is_open_run(&lost.attempt)
        && lost.over <= moment
        && is_right_run(moment, bots, &lost.attempt)
}

fn has_right_attempt(moment: u64, bots: usize, task: &TaskRow) -> bool
    ensures { result ≡ option_map_or (is_right_attempt moment bots task.now.retried) task.now.attempt true }
{
    match &task.attempt {
        None => true,
        Some(attempt) => is_right_attempt(moment, bots, task.retried.as_ref(), attempt),
    }
}

fn has_right_loss(retries: u32, moment: u64, bots: usize, task: &TaskRow) -> bool
    ensures { result ≡ option_map_or (is_right_loss retries moment bots task.now.request.task_slices) task.now.retried true }
{
    let slices = task.request.task_slices.as_slice();
    match task.retried.as_ref() {
        None => true,
        Some(lost) => is_right_loss(retries, moment, bots, slices, lost),
    }
}

/// Whether the task's run and the one that was lost may stand in a base of so many bots, of a pool
/// that retries so often.
pub(crate) fn has_right_runs(retries: u32, moment: u64, bots: usize, task: &TaskRow) -> bool
    ensures { result ≡ has_right_runs retries moment bots task.now }
{
    has_right_attempt(moment, bots, task) && has_right_loss(retries, moment, bots, task)
}
