//! What a reply to a line tells.
ghost use Rattle.std.specs.Prelude.{◌≡◌};
ghost use Rattle.swarm_batch.specs.Told.{reply_mark as spec_reply_mark, told_mark as spec_told_mark, is_again as spec_is_again};

use crate::mark::{Mark, is_task};
use server_calls::Told;
use swarm_model::Reply;

fn reply_mark(place: u32, reply: &Reply) -> Option<Mark>
    ensures { result ≡ spec_reply_mark place reply.now }
{
    match reply {
        Reply::New { task, .. } if is_task(place, *task) => Some(Mark::Task { place, task: *task }),
        _ => None,
    }
}

/// The mark that a reply makes: the task that it tells, or its refusal. What tells neither makes none.
pub fn told_mark(told: &Told) -> Option<Mark>
    ensures { result ≡ spec_told_mark told.now }
{
    match told {
        Told::Good { place, reply, .. } => reply_mark(*place, reply),
        Told::No { code, .. } => Some(Mark::Refused { code: *code }),
    }
}

/// Whether the line is to be sent again: the log was full, its records could not be kept, or memory
/// was wanting.
pub(crate) fn is_again(told: &Told) -> bool
    ensures { result ≡ spec_is_again told.now }
{
    match told {
        Told::Good { .. } => false,
        Told::No { code, .. } => code.is_transient(),
    }
}
