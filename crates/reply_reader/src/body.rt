//! The body of a reply.
ghost use Rattle.std.specs.Prelude.{◌≤◌, length};
ghost use Rattle.sw_base.specs.Link.{IsClean};
ghost use Rattle.reply_reader.specs.Reading.{TakesBody};

use crate::Received;
use crate::head::ReplyHead;
use link_reader::{BodyEnd, Pending, read_body};
use std::alloc::Global;
use sw_base::{Failed, Link};

/// Reads the body behind the head that is pending.
pub fn take_body<L: Link>(
    alloc: Global,
    pending: &mut Pending,
    head: ReplyHead,
    link: &mut L,
) -> Result<Received, Failed>
    requires within { head.len ≤ length pending.old }
    requires clean { IsClean (L.state link.old) }
    ensures { TakesBody (L.state link.old) (L.state link.new) pending.old head result }
{
    match read_body(alloc, pending, head.len, head.size as usize, link) {
        Ok(BodyEnd::Whole(body)) => Ok(Received::Reply {
            code: head.code,
            body,
        }),
        Ok(BodyEnd::Dropped) => Ok(Received::Memory),
        Ok(BodyEnd::Ended) => Ok(Received::NoReply),
        Err(failed) => Err(failed),
    }
}
