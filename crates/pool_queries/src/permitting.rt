ghost use Rattle.std.specs.Prelude.{◌≡◌, IfOk};
ghost use Rattle.swarm_model.specs.Answers.{may, denied};

use crate::replies::refusal;
use crate::{ReadQueries, ShownTask};
use dimensions::{Text, TryCopy};
use std::alloc::{AllocError, Global};
use swarm_model::{Decision, Permission, Rule, allowed};

/// Whether the caller sent the task, or may do this with every task of the pool.
pub fn may<P: ReadQueries>(
    pool: &P,
    who: &Text,
    permission: Permission,
    task: &ShownTask<'_>,
) -> bool
    ensures { result ≡ may (P.state pool.now) who.now permission task.now }
{
    let row = task.row();
    row.creator == *who || allowed(pool.settings(), who, permission)
}

pub fn denied<P: ReadQueries>(
    alloc: Global,
    pool: &P,
    permission: Permission,
) -> Result<Decision, AllocError>
    ensures { IfOk result (λ decision. decision ≡ denied (P.state pool.now) permission) }
{
    let pool = pool.settings().name.try_copy(alloc)?;
    Ok(refusal(Rule::Denied { permission, pool }))
}
