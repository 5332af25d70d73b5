//! Whose outcome a new task takes.
ghost use Rattle.std.specs.Prelude.{◌≡◌, ◌≤◌, length, IfOk};
ghost use Rattle.std.specs.Option.{option_copied};
ghost use Rattle.swarm_model.specs.Reuse.{source_for, reuse};

use pool_queries::PoolQueries;
use std::alloc::{AllocError, Global};
use std::sync::ledger::Ledger;
use swarm_model::{Reuse, Steps, TaskRow};
use task_props::Slice;

/// The task whose outcome the slice takes.
fn source_for<'a, P: PoolQueries, L: Ledger>(
    alloc: Global,
    pool: &'a P,
    moment: u64,
    slice: &Slice,
    steps: &mut Steps<L>,
) -> Result<Option<&'a TaskRow>, AllocError>
    ensures { IfOk result (λ found. option_copied found ≡ source_for (P.state pool.now) moment slice.now) }
{
    if slice.properties.idempotent {
        let digest = slice.properties.hash(alloc)?;
        pool.newest_source(alloc, moment, &digest, steps)
    } else {
        Ok(None)
    }
}

/// The first slice that has a source, with the number of that task.
pub(crate) fn reuse<P: PoolQueries, L: Ledger>(
    alloc: Global,
    pool: &P,
    moment: u64,
    slices: &[Slice],
    steps: &mut Steps<L>,
) -> Result<Option<Reuse>, AllocError>
    requires { length slices.now ≤ 8 }
    ensures { IfOk result (λ found. found ≡ reuse (P.state pool.now) moment slices.now) }
{
    for place in 0..slices.len() {
        if let Some(task) = source_for(alloc, pool, moment, &slices[place], steps)? {
            return Ok(Some(Reuse {
                slice: place as u32,
                source: task.no,
            }));
        }
    }
    Ok(None)
}
