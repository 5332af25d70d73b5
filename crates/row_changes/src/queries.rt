//! What a row tells of itself, and whether some row does.
ghost use Rattle.std.specs.Prelude.{◌≡◌, false};
ghost use Rattle.std.specs.List.{list_any};
ghost use Rattle.std.specs.Option.{option_copied, option_map_or};
ghost use Rattle.swarm_model.specs.Effects.{is_idempotent, is_first_run, is_tried_again};
ghost use Rattle.swarm_model.specs.Slices.{could_run, takes_slice, waits_for};
ghost use Rattle.swarm_model.specs.Answers.{was_claimed, has_claim};
ghost use Rattle.swarm_model.specs.Reuse.{is_sent, ended_well, is_young};
ghost use Rattle.swarm_model.specs.Uses.{is_file_of, has_input, is_chunk_of, has_chunk, needs};

use dimensions::{BotDims, DimSet, Text};
use swarm_model::{Attempt, BotRow, Chunk, Retried, TaskRow, TaskState};
use task_props::{Digest, File, Slice};

/// Whether some fit bot, busy or not, has the dimensions.
pub fn is_capable(bots: &[BotRow], dims: &DimSet) -> bool
    ensures { result ≡ list_any (could_run dims.now) bots.now }
{
    bots.iter().any(|bot| bot.could_run(dims))
}

/// Whether the bot claimed the run that was lost before.
fn was_claimed(bot: u32, claim: &Text, task: &TaskRow) -> bool
    ensures { result ≡ was_claimed bot claim.now task.now }
{
    match task.retried.as_ref() {
        Some(lost) => lost.attempt.is_claim(bot, claim),
        None => false,
    }
}

/// Whether the bot claimed the task under this id.
pub fn has_claim(bot: u32, claim: &Text, task: &TaskRow) -> bool
    ensures { result ≡ has_claim bot claim.now task.now }
{
    task.is_claimed(bot, claim) || was_claimed(bot, claim, task)
}

/// Whether the caller sent the task under this uuid.
pub fn is_sent(who: &Text, uuid: &Text, task: &TaskRow) -> bool
    ensures { result ≡ is_sent who.now uuid.now task.now }
{
    task.creator == *who && task.request.request_uuid == *uuid
}

fn takes_slice(dims: &BotDims, slice: Option<&Slice>) -> bool
    ensures { result ≡ takes_slice dims.now (option_copied slice.entry) }
{
    match slice {
        Some(slice) => slice.properties.dimensions.matches(dims),
        None => false,
    }
}

/// Whether the task waits for a bot of these dimensions, and isn't kept from the bot of this number.
pub fn waits_for(bot: u32, dims: &BotDims, task: &TaskRow) -> bool
    ensures { result ≡ waits_for bot dims.now task.now }
{
    task.has_state(TaskState::Pending)
        && takes_slice(dims, task.current_slice())
        && !task.is_kept_from(bot)
}

/// Whether the slice that the task has come to may run twice.
fn is_idempotent(task: &TaskRow) -> bool
    ensures { result ≡ is_idempotent task.now }
{
    match task.current_slice() {
        Some(slice) => slice.properties.idempotent,
        None => false,
    }
}

/// Whether the run is the first one of its task, and was not asked to stop.
fn is_first_run(attempt: &Option<Attempt>) -> bool
    ensures { result ≡ is_first_run attempt.now }
{
    match attempt {
        Some(attempt) => attempt.try_no == 1 && !attempt.kill,
        None => false,
    }
}

/// Whether the run of the task, should it be lost, is tried again in a pool that retries so often.
pub fn is_tried_again(retries: u32, task: &TaskRow) -> bool
    ensures { result ≡ is_tried_again retries task.now }
{
    retries == 1 && is_first_run(&task.attempt) && is_idempotent(task)
}

/// Whether the run of the task reported its end with 0.
pub fn ended_well(task: &TaskRow) -> bool
    ensures { result ≡ ended_well task.now }
{
    task.has_state(TaskState::Completed)
        && match task.last_report() {
            None => false,
            Some(last) => last.exit_code == 0,
        }
}

/// Whether the task was created less than so many seconds before the moment.
pub fn is_young(age: u32, moment: u64, task: &TaskRow) -> bool
    ensures { result ≡ is_young age moment task.now }
{
    moment < task.created || moment - task.created < u64::from(age)
}

fn is_file_of(digest: &Digest, file: &File) -> bool
    ensures { result ≡ is_file_of digest.now file.now }
{
    file.digest == *digest
}

fn has_input(digest: &Digest, slice: &Slice) -> bool
    ensures { result ≡ has_input digest.now slice.now }
{
    let inputs = slice.properties.inputs.as_slice();
    inputs.iter().any(|file| is_file_of(digest, file))
}

fn is_chunk_of(digest: &Digest, chunk: &Chunk) -> bool
    ensures { result ≡ is_chunk_of digest.now chunk.now }
{
    chunk.digest == *digest
}

fn has_chunk(digest: &Digest, attempt: &Attempt) -> bool
    ensures { result ≡ has_chunk digest.now attempt.now }
{
    let chunks = attempt.chunks.as_slice();
    chunks.iter().any(|chunk| is_chunk_of(digest, chunk))
}

fn is_input(digest: &Digest, slices: &[Slice]) -> bool
    ensures { result ≡ list_any (has_input digest.now) slices.now }
{
    slices.iter().any(|slice| has_input(digest, slice))
}

fn is_output(digest: &Digest, attempt: &Option<Attempt>) -> bool
    ensures { result ≡ option_map_or (has_chunk digest.now) attempt.now false }
{
    match attempt {
        Some(attempt) => has_chunk(digest, attempt),
        None => false,
    }
}

fn was_output(digest: &Digest, lost: Option<&Retried>) -> bool
    ensures { result ≡ option_map_or (λ run. has_chunk digest.now run.attempt) (option_copied lost.entry) false }
{
    match lost {
        Some(lost) => has_chunk(digest, &lost.attempt),
        None => false,
    }
}

/// Whether the task waits or runs, and the blob of a digest is an input of it or a chunk of the
/// output of one of its runs.
pub fn needs(digest: &Digest, task: &TaskRow) -> bool
    ensures { result ≡ needs digest.now task.now }
{
    !task.state.is_final()
        && (is_input(digest, task.request.task_slices.as_slice())
            || is_output(digest, &task.attempt)
            || was_output(digest, task.retried.as_ref()))
}
