//! The rules on one row.
ghost use Rattle.std.specs.Prelude.{◌≡◌, nat_le, true, is_none};
ghost use Rattle.std.specs.List.{list_all};
ghost use Rattle.std.specs.Option.{option_map_or};
ghost use Rattle.blob_rows.specs.BlobRows.{units_of};
ghost use Rattle.swarm_model.specs.Soundness.{fits_state};
ghost use Rattle.swarm_model.specs.Views.{last_of};
ghost use Rattle.swarm_model.specs.Words.{is_between};
ghost use Rattle.base_checks.specs.RowRules.{is_right_request, has_right_moments, is_right_task, is_right_bot, has_right_extent, is_right_blob};

use crate::runs::has_right_runs;
use blob_rows::BlobRow;
use request_fits::{fits_pool, fits_session, is_blob_size};
use swarm_model::{BotRow, PoolSettings, TaskRow, TaskState};

/// Whether a moment, where there is one, is no later than another.
fn is_no_later(moment: u64, earlier: Option<u64>) -> bool
    ensures { result ≡ option_map_or (λ ended. nat_le ended moment) earlier true }
{
    match earlier {
        None => true,
        Some(earlier) => earlier <= moment,
    }
}

fn has_right_moments(moment: u64, task: &TaskRow) -> bool
    ensures { result ≡ has_right_moments moment task.now }
{
    task.created <= moment && task.since <= moment && is_no_later(moment, task.ended)
}

fn is_unreported(task: &TaskRow) -> bool
    ensures { result ≡ is_none (last_of task.now) }
{
    match task.last_report() {
        None => true,
        Some(_) => false,
    }
}

/// Whether the task's run and its end go with its state.
fn fits_state(task: &TaskRow) -> bool
    ensures { result ≡ fits_state task.now }
{
    if task.has_state(TaskState::Pending) {
        return task.attempt.is_none() && task.ended.is_none();
    }
    if task.has_state(TaskState::Running) {
        return task.attempt.is_some() && is_unreported(task) && task.ended.is_none();
    }
    task.ended.is_some()
}

/// Whether the pool may be asked for the task, which has come to one of its slices.
fn is_right_request(settings: &PoolSettings, task: &TaskRow) -> bool
    ensures { result ≡ is_right_request settings.now task.now }
{
    fits_pool(settings, &task.request)
        && (task.slice as usize) < task.request.task_slices.as_slice().len()
}

fn is_right_task(settings: &PoolSettings, moment: u64, bots: usize, task: &TaskRow) -> bool
    ensures { result ≡ is_right_task settings.now moment bots task.now }
{
    is_right_request(settings, task)
        && has_right_moments(moment, task)
        && fits_state(task)
        && has_right_runs(settings.retries, moment, bots, task)
}

pub(crate) fn are_right_tasks(
    settings: &PoolSettings,
    moment: u64,
    bots: usize,
    tasks: &[TaskRow],
) -> bool
    ensures { result ≡ list_all (is_right_task settings.now moment bots) tasks.now }
{
    tasks
        .iter()
        .all(|task| is_right_task(settings, moment, bots, task))
}

/// Whether the number, where there is one, is one of so many.
fn is_number_or_none(most: usize, number: Option<u32>) -> bool
    ensures { result ≡ option_map_or (is_between 1 most) number true }
{
    match number {
        None => true,
        Some(number) => 1 <= number && number as usize <= most,
    }
}

fn is_right_bot(settings: &PoolSettings, moment: u64, tasks: usize, bot: &BotRow) -> bool
    ensures { result ≡ is_right_bot settings.now moment tasks bot.now }
{
    bot.contact <= moment
        && bot.streak <= 63
        && fits_session(
            settings,
            &bot.name,
            &bot.session,
            &bot.dims,
            &bot.quarantined,
        )
        && is_number_or_none(tasks, bot.task)
}

pub(crate) fn are_right_bots(
    settings: &PoolSettings,
    moment: u64,
    tasks: usize,
    bots: &[BotRow],
) -> bool
    ensures { result ≡ list_all (is_right_bot settings.now moment tasks) bots.now }
{
    bots.iter()
        .all(|bot| is_right_bot(settings, moment, tasks, bot))
}

/// How many units of 64 bytes a content takes, at least one.
fn units_of(size: u32) -> u32
    ensures { result ≡ units_of size }
{
    size.div_ceil(64).max(1)
}

/// Whether the blob has the units that its size takes, inside the region.
fn has_right_extent(settings: &PoolSettings, blob: &BlobRow) -> bool
    ensures { result ≡ has_right_extent settings.now blob.now }
{
    is_blob_size(blob.size)
        && blob.extent.units == units_of(blob.size)
        && u64::from(blob.extent.at) + u64::from(blob.extent.units)
            <= u64::from(settings.store_units)
}

fn is_right_blob(settings: &PoolSettings, moment: u64, placed: u32, blob: &BlobRow) -> bool
    ensures { result ≡ is_right_blob settings.now moment placed blob.now }
{
    has_right_extent(settings, blob)
        && 1 <= blob.no
        && blob.no <= placed
        && blob.deadline.saturating_sub(moment) <= u64::from(settings.blob_life_secs)
}

pub(crate) fn are_right_blobs(
    settings: &PoolSettings,
    moment: u64,
    placed: u32,
    blobs: &[BlobRow],
) -> bool
    ensures { result ≡ list_all (is_right_blob settings.now moment placed) blobs.now }
{
    blobs
        .iter()
        .all(|blob| is_right_blob(settings, moment, placed, blob))
}
