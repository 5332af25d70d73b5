//! Which slice a task comes to.
ghost use Rattle.std.specs.Prelude.{◌≡◌, ◌<◌, length, IfSome};
ghost use Rattle.swarm_model.specs.Slices.{is_open, admit};

use pool_queries::PoolQueries;
use task_props::Slice;

fn is_open<P: PoolQueries>(pool: &P, slice: &Slice) -> bool
    ensures { result ≡ is_open (P.state pool.now) slice.now }
{
    slice.wait_for_capacity || pool.capable(&slice.properties.dimensions)
}

/// The place of the first open slice, at a place or after it.
pub(crate) fn admit<P: PoolQueries>(pool: &P, slices: &[Slice], from: usize) -> Option<usize>
    ensures value { result ≡ admit (P.state pool.now) slices.now from }
    ensures within { IfSome result (λ place. place < length slices.now) }
{
    for place in from..slices.len() {
        if is_open(pool, &slices[place]) {
            return Some(place);
        }
    }
    None
}
