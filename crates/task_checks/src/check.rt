ghost use Rattle.std.specs.Prelude.{◌≡◌, IfOk, IfErr, OnOk, None, true};
ghost use Rattle.task_props.specs.Checked.{is_checked};
ghost use Rattle.task_checks.specs.Broken.{first_broken_task, IsFaultOf};
ghost use Rattle.task_checks.specs.Reading.{task_of};

use crate::RawTask;
use crate::broken::{fault_at, first_broken_field};
use crate::reading::read_task;
use crate::slices::slices_rule;
use std::alloc::Global;
use task_props::{NewTask, PropFault, TaskField};

/// The task that the fields mean, where no rule is broken. The slices as a whole come last.
///
/// # Errors
///
/// The first broken rule, with the dotted path of its field, or want of memory.
pub fn check_task(alloc: Global, raw: RawTask) -> Result<NewTask, PropFault>
    ensures unbroken { OnOk result (first_broken_task raw ≡ None) }
    ensures value { IfOk result (λ task. task ≡ task_of raw) }
    ensures checked { IfOk result (λ task. is_checked task ≡ true) }
    ensures broken { IfErr result (IsFaultOf (first_broken_task raw)) }
{
    if let Some((field, rule)) = first_broken_field(&raw) {
        return Err(fault_at(alloc, field, rule));
    }
    let task = read_task(alloc, raw)?;
    match slices_rule(task.task_slices.as_slice()) {
        Some(rule) => Err(fault_at(alloc, TaskField::TaskSlices, rule)),
        None => Ok(task),
    }
}
