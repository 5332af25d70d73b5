ghost use Rattle.std.specs.Prelude.{◌≡◌};
ghost use Rattle.std.specs.List.{list_all};
ghost use Rattle.task_props.specs.Checked.{is_sound_slice, is_checked as spec_is_checked};

use crate::checking::are_sound;
use task_checks::{
    MOST_SLICES, count_rule, expiration_rule, name_rule, priority_rule, slices_rule,
    tolerance_rule, uuid_rule,
};
use task_props::{NewTask, Slice};

fn is_sound(slice: &Slice) -> bool
    ensures { result ≡ is_sound_slice slice.now }
{
    expiration_rule(slice.expiration_secs as i128).is_none() && are_sound(&slice.properties)
}

fn are_sound_slices(slices: &[Slice]) -> bool
    ensures { result ≡ list_all is_sound_slice slices.now }
{
    slices.iter().all(|slice| is_sound(slice))
}

/// Whether no rule is broken, neither on a field nor on the slices as a whole.
pub fn is_checked(task: &NewTask) -> bool
    ensures { result ≡ spec_is_checked task.now }
{
    name_rule(task.name.as_str()).is_none()
        && priority_rule(task.priority as i128).is_none()
        && tolerance_rule(task.bot_ping_tolerance_secs as i128).is_none()
        && uuid_rule(task.request_uuid.as_str()).is_none()
        && count_rule(MOST_SLICES, task.task_slices.as_slice().len()).is_none()
        && are_sound_slices(task.task_slices.as_slice())
        && slices_rule(task.task_slices.as_slice()).is_none()
}
