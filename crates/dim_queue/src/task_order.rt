//! The order in which tasks are given out: by priority, then number.
ghost use Rattle.std.specs.Prelude.{◌≡◌};
ghost use Rattle.dim_queue.specs.Order.{goes_first, precedes};

use crate::waiting::Waiting;

pub(crate) fn goes_first(one: Waiting, other: Waiting) -> bool
    ensures { result ≡ goes_first one other }
{
    one.priority < other.priority || (one.priority == other.priority && one.number < other.number)
}

/// Whether there is no other task, or this one goes before it.
pub(crate) fn precedes(one: Waiting, other: Option<Waiting>) -> bool
    ensures { result ≡ precedes one other }
{
    match other {
        None => true,
        Some(other) => goes_first(one, other),
    }
}
