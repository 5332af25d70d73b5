ghost use Rattle.sw_base.specs.Link.{IsClean};
ghost use Rattle.reply_reader.specs.Reading.{Receives};
ghost use Rattle.reply_reader.specs.Replies.{ReplyIsUnique};

use crate::body::take_body;
use crate::head::read_reply_head;
use link_reader::Pending;
use std::alloc::Global;
use sw_base::{Failed, Link};

/// What came of reading a reply.
#[derive(Drop)]
pub enum Received {
    /// The status code of its first line, and its body.
    Reply { code: u16, body: Vec<u8> },
    /// No reply stands at the front of what the link gives.
    NoReply,
    /// There was no memory to keep it.
    Memory,
}

/// Reads one reply. Bytes behind it may be taken too, and are dropped.
///
/// # Errors
///
/// A read failed. No call follows it.
pub fn receive_reply<L: Link>(alloc: Global, link: &mut L) -> Result<Received, Failed>
    requires clean { IsClean (L.state link.old) }
    ensures receives { Receives (L.state link.old) (L.state link.new) result }
    ensures unique { ReplyIsUnique }
{
    let Ok(mut pending) = Pending::new(alloc) else {
        return Ok(Received::Memory);
    };
    match read_reply_head(&mut pending, link) {
        Ok(Some(head)) => take_body(alloc, &mut pending, head, link),
        Ok(None) => Ok(Received::NoReply),
        Err(failed) => Err(failed),
    }
}
