//! The output of a run between two places, in bytes from its first.
ghost use Rattle.std.specs.Prelude.{◌≡◌, ◌&&◌, IfOk, IsTrue};
ghost use Rattle.std.specs.List.{find};
ghost use Rattle.std.specs.Option.{option_copied};
ghost use Rattle.swarm_model.specs.declared.rule.Rule.TheVariants as rule;
ghost use Rattle.swarm_model.specs.Blobs.{lacks_chunk};
ghost use Rattle.swarm_model.specs.Output.{lies_within, chunks_within, part_of, parts_within};
ghost use Rattle.swarm_model.specs.Answers.{or_refuse, named_task, output_between, chunks_shown, stdout_of};

use crate::blobs::has_blob;
use crate::permitting::{denied, may};
use crate::reading::named_task;
use crate::replies::{refusal, reply_only};
use crate::views::attempt_shown;
use crate::{PoolQueries, ReadQueries, ShownTask};
use dimensions::{Seq, Text};
use std::alloc::{AllocError, Global};
use std::sync::ledger::Ledger;
use swarm_model::{Chunk, Decision, Part, Permission, Reply, Rule, Steps, TaskState};

/// Whether a byte of the chunk lies between the two places.
fn lies_within(from: u64, to: u64, chunk: &Chunk) -> bool
    ensures { result ≡ lies_within from to chunk.now }
{
    let start = chunk.start as u64;
    let end = start + chunk.size as u64;
    from.max(start) < to.min(end)
}

/// The bytes of the chunk that lie there.
fn part_of(from: u64, to: u64, chunk: &Chunk) -> Part
    requires { IsTrue (lies_within from to chunk.now) }
    ensures { result ≡ part_of from to chunk.now }
{
    let start = chunk.start as u64;
    let end = start + chunk.size as u64;
    Part {
        digest: chunk.digest,
        from: (from.max(start) - start) as u32,
        to: (to.min(end) - start) as u32,
    }
}

/// Whether the chunk is asked for, and its blob is not held any more.
fn is_gone<P: PoolQueries>(pool: &P, from: u64, to: u64, chunk: &Chunk) -> bool
    ensures { result ≡ (lies_within from to chunk.now && lacks_chunk (P.state pool.now) chunk.now) }
{
    lies_within(from, to, chunk) && !has_blob(pool, &chunk.digest, chunk.size)
}

/// The first chunk that is asked for whose blob is not held any more.
fn first_gone<'a, P: PoolQueries>(
    pool: &P,
    from: u64,
    to: u64,
    chunks: &'a [Chunk],
) -> Option<&'a Chunk>
    ensures { option_copied result ≡ find (λ chunk. lies_within from to chunk && lacks_chunk (P.state pool.now) chunk) chunks.now }
{
    chunks.iter().find(|chunk| is_gone(pool, from, to, chunk))
}

/// The same, as the first among those that are asked for.
fn gone_chunk<'a, P: PoolQueries>(
    pool: &P,
    from: u64,
    to: u64,
    chunks: &'a [Chunk],
) -> Option<&'a Chunk>
    ensures { option_copied result ≡ find (lacks_chunk (P.state pool.now)) (chunks_within from to chunks.now) }
{
    first_gone(pool, from, to, chunks)
}

/// The parts of the output that lie there, in their order.
fn parts_within(
    alloc: Global,
    from: u64,
    to: u64,
    chunks: &[Chunk],
) -> Result<Seq<Part>, AllocError>
    ensures { IfOk result (λ parts. parts ≡ parts_within from to chunks.now) }
{
    let mut parts = Vec::new(alloc);
    for chunk in chunks {
        if lies_within(from, to, chunk) {
            parts.push(part_of(from, to, chunk))?;
        }
    }
    Ok(Seq::from_vec(parts))
}

fn output_between<P: PoolQueries>(
    alloc: Global,
    pool: &P,
    from: u64,
    to: u64,
    state: TaskState,
    chunks: &[Chunk],
) -> Result<Decision, AllocError>
    ensures { IfOk result (λ decision. decision ≡ output_between (P.state pool.now) from to state chunks.now) }
{
    if let Some(chunk) = gone_chunk(pool, from, to, chunks) {
        return Ok(refusal(Rule::OutputGone {
            digest: chunk.digest,
        }));
    }
    let parts = parts_within(alloc, from, to, chunks)?;
    Ok(reply_only(Reply::Stdout { state, parts }))
}

/// The chunks of the output that a task shows.
fn chunks_shown<'a, P: ReadQueries, L: Ledger>(
    pool: &'a P,
    task: &ShownTask<'a>,
    steps: &mut Steps<L>,
) -> &'a [Chunk]
    ensures { result.now ≡ chunks_shown (P.state pool.now) task.now }
{
    match attempt_shown(pool, task, steps) {
        None => &[],
        Some(attempt) => attempt.chunks.as_slice(),
    }
}

fn stdout_by<'a, P: PoolQueries, L: Ledger>(
    alloc: Global,
    pool: &'a P,
    who: &Text,
    offset: u32,
    length: u32,
    task: &ShownTask<'a>,
    steps: &mut Steps<L>,
) -> Result<Decision, AllocError>
    ensures { IfOk result (λ decision. decision ≡ stdout_of (P.state pool.now) who.now offset length task.now) }
{
    if !may(pool, who, Permission::ListTasks, task) {
        return denied(alloc, pool, Permission::ListTasks);
    }
    let from = offset as u64;
    let chunks = chunks_shown(pool, task, steps);
    output_between(
        alloc,
        pool,
        from,
        from + length as u64,
        task.state(),
        chunks,
    )
}

/// What a caller is told who asks for the output of a task's run.
pub fn stdout<P: PoolQueries, L: Ledger>(
    alloc: Global,
    pool: &P,
    who: &Text,
    number: u32,
    try_no: u32,
    offset: u32,
    length: u32,
    steps: &mut Steps<L>,
) -> Result<Decision, AllocError>
    ensures { IfOk result (λ decision. decision ≡ or_refuse (named_task (P.state pool.now) number try_no) rule.NoTask (stdout_of (P.state pool.now) who.now offset length)) }
{
    match named_task(pool, number, try_no, steps) {
        None => Ok(refusal(Rule::NoTask)),
        Some(task) => stdout_by(alloc, pool, who, offset, length, &task, steps),
    }
}
