//! Deadlines that have not come before the last moment.
ghost use Rattle.std.specs.Prelude.{◌≡◌, All, MatchBool, IfSome};
ghost use Rattle.std.specs.List.{AllPass, list_all};
ghost use Rattle.std.specs.Option.{option_copied};
ghost use Rattle.swarm_model.specs.Numbers.{AreNumbered};
ghost use Rattle.swarm_model.specs.Effects.{no_of_bot};
ghost use Rattle.row_changes.specs.Rows.{IsEarly, IsHeard};
ghost use Rattle.base_checks.specs.Agreeing.{numbered_bot};
ghost use Rattle.base_checks.specs.Deadlines.{is_ahead, run_by, slice_is_ahead, silence_is_ahead, death_is_ahead, blob_is_ahead, AreAhead};

use blob_rows::BlobRow;
use row_changes::{blob_end, death_of, row_of, silence_of, slice_end};
use swarm_model::{BotRow, Deadline, PoolState, TaskRow};

fn is_ahead(moment: u64, deadline: Option<Deadline>) -> bool
    ensures { result ≡ is_ahead moment deadline }
{
    match deadline {
        None => true,
        Some(deadline) => moment <= deadline.moment,
    }
}

fn are_slices_ahead(moment: u64, tasks: &[TaskRow]) -> bool
    requires { All IsEarly tasks.now }
    ensures { MatchBool result (AllPass (slice_is_ahead moment) tasks.now) (AllPass (slice_is_ahead moment) tasks.now → ⊥) }
{
    for task in tasks {
        if !is_ahead(moment, slice_end(task)) {
            return false;
        }
    }
    true
}

fn bot_of(bots: &[BotRow], number: u32) -> Option<&BotRow>
    requires numbered { AreNumbered no_of_bot 1 bots.now }
    requires heard { All IsHeard bots.now }
    ensures value { option_copied result ≡ numbered_bot bots.now number }
    ensures heard { IfSome (option_copied result) IsHeard }
{
    row_of(bots, number)
}

/// The bot of the task's run.
fn run_by<'a>(bots: &'a [BotRow], task: &TaskRow) -> Option<&'a BotRow>
    requires numbered { AreNumbered no_of_bot 1 bots.now }
    requires heard { All IsHeard bots.now }
    ensures value { option_copied result ≡ run_by bots.now task.now }
    ensures heard { IfSome (option_copied result) IsHeard }
{
    bot_of(bots, task.attempt.as_ref()?.bot)
}

fn is_silence_ahead(moment: u64, bots: &[BotRow], task: &TaskRow) -> bool
    requires numbered { AreNumbered no_of_bot 1 bots.now }
    requires heard { All IsHeard bots.now }
    ensures { result ≡ silence_is_ahead moment bots.now task.now }
{
    is_ahead(moment, silence_of(task, run_by(bots, task)))
}

fn are_silences_ahead(moment: u64, bots: &[BotRow], tasks: &[TaskRow]) -> bool
    requires numbered { AreNumbered no_of_bot 1 bots.now }
    requires heard { All IsHeard bots.now }
    ensures { MatchBool result (AllPass (silence_is_ahead moment bots.now) tasks.now) (AllPass (silence_is_ahead moment bots.now) tasks.now → ⊥) }
{
    for task in tasks {
        if !is_silence_ahead(moment, bots, task) {
            return false;
        }
    }
    true
}

fn are_deaths_ahead(moment: u64, timeout: u32, bots: &[BotRow]) -> bool
    requires { All IsHeard bots.now }
    ensures { MatchBool result (AllPass (death_is_ahead moment timeout) bots.now) (AllPass (death_is_ahead moment timeout) bots.now → ⊥) }
{
    for bot in bots {
        if !is_ahead(moment, death_of(timeout, bot)) {
            return false;
        }
    }
    true
}

fn are_blobs_ahead(moment: u64, blobs: &[BlobRow]) -> bool
    ensures { result ≡ list_all (blob_is_ahead moment) blobs.now }
{
    blobs.iter().all(|blob| moment <= blob_end(blob).moment)
}

/// Whether no deadline is before the last moment.
pub(crate) fn are_ahead(base: &PoolState) -> bool
    requires numbered { AreNumbered no_of_bot 1 base.now.bots }
    requires early { All IsEarly base.now.tasks }
    requires heard { All IsHeard base.now.bots }
    ensures { MatchBool result (AreAhead base.now) (AreAhead base.now → ⊥) }
{
    let moment = base.last;
    let tasks = base.tasks.as_slice();
    let bots = base.bots.as_slice();
    if !are_slices_ahead(moment, tasks) {
        return false;
    }
    if !are_silences_ahead(moment, bots, tasks) {
        return false;
    }
    if !are_deaths_ahead(moment, base.settings.death_timeout_secs, bots) {
        return false;
    }
    are_blobs_ahead(moment, base.blobs.as_slice())
}
