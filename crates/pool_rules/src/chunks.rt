//! Which chunks the output of a run takes.
ghost use Rattle.std.specs.Prelude.{◌≡◌, Some};
ghost use Rattle.std.specs.List.{list_any};
ghost use Rattle.std.specs.Option.{option_and_then};
ghost use Rattle.swarm_model.specs.Alike.{same_chunk};
ghost use Rattle.swarm_model.specs.Effects.{fresh_chunk};
ghost use Rattle.swarm_model.specs.Answers.{chunk_rule, unplaced_chunk};

use crate::putting::can_take;
use pool_queries::PoolQueries;
use swarm_model::{Attempt, Chunk, Rule};

fn has_chunk(attempt: &Attempt, chunk: Chunk) -> bool
    ensures { result ≡ list_any (same_chunk chunk) attempt.now.chunks }
{
    attempt.chunks.as_slice().iter().any(|kept| chunk == *kept)
}

fn chunk_rule(attempt: &Attempt, chunk: Chunk) -> Option<Rule>
    ensures { result ≡ chunk_rule attempt.now chunk }
{
    if attempt.length < chunk.start {
        Some(Rule::OutputGap {
            length: attempt.length,
        })
    } else if chunk.start < attempt.length && !has_chunk(attempt, chunk) {
        Some(Rule::OutputOverlap { start: chunk.start })
    } else {
        None
    }
}

/// Why the chunk of a report is refused: it begins past the output that is kept, or within it and
/// is none of those that were kept.
pub(crate) fn output_rule(attempt: &Attempt, chunk: Option<Chunk>) -> Option<Rule>
    ensures { result ≡ option_and_then (chunk_rule attempt.now) chunk }
{
    chunk_rule(attempt, chunk?)
}

/// The chunk, where it goes on from the output that is kept.
pub(crate) fn fresh_chunk(attempt: &Attempt, chunk: Option<Chunk>) -> Option<Chunk>
    ensures { result ≡ fresh_chunk (Some attempt.now) chunk }
{
    chunk.filter(|chunk| chunk.start == attempt.length)
}

/// The chunk that is to be kept, where the pool has no place for it.
pub(crate) fn unplaced_chunk<P: PoolQueries>(pool: &P, chunk: Option<Chunk>) -> Option<Chunk>
    ensures { result ≡ unplaced_chunk (P.state pool.now) chunk }
{
    chunk.filter(|chunk| !can_take(pool, &chunk.digest, chunk.size))
}
