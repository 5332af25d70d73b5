//! The order of deadlines: by moment, then cause, then number.
ghost use Rattle.std.specs.Prelude.{◌≡◌};
ghost use Rattle.std.specs.List.{fold};
ghost use Rattle.std.specs.Option.{option_to_list};
ghost use Rattle.swarm_model.specs.Deadlines.{rank, is_earlier, earlier, sooner};

use swarm_model::{Cause, Deadline};

fn rank(cause: Cause) -> u8
    ensures { result ≡ rank cause }
{
    match cause {
        Cause::Slice => 1,
        Cause::Silence => 2,
        Cause::Bot => 3,
        Cause::Blob => 4,
    }
}

pub(crate) fn is_earlier(one: Deadline, other: Deadline) -> bool
    ensures { result ≡ is_earlier one other }
{
    one.moment < other.moment
        || (one.moment == other.moment
            && (rank(one.cause) < rank(other.cause)
                || (rank(one.cause) == rank(other.cause) && one.number < other.number)))
}

fn earlier(best: Option<Deadline>, deadline: Deadline) -> Deadline
    ensures { result ≡ earlier best deadline }
{
    match best {
        None => deadline,
        Some(best) => {
            if is_earlier(deadline, best) {
                deadline
            } else {
                best
            }
        }
    }
}

/// The sooner of two deadlines, where there is one: of equal ones the first.
pub fn sooner_of(best: Option<Deadline>, deadline: Option<Deadline>) -> Option<Deadline>
    ensures { result ≡ fold sooner best (option_to_list deadline) }
{
    match deadline {
        None => best,
        Some(deadline) => Some(earlier(best, deadline)),
    }
}
