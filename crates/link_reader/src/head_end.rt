ghost use Rattle.sw_base.specs.Link.{IsClean};
ghost use Rattle.link_reader.specs.Heads.{ReadsHead};

use crate::{HEAD_LIMIT, Pending};
use sw_base::{Failed, Link};

/// What came of reading on for the end of a head.
#[derive(Clone, Copy, Debug, PartialEq, Eq)]
pub enum HeadEnd {
    /// The head is the first these many bytes that are pending.
    At(usize),
    /// [`HEAD_LIMIT`] bytes are pending, and no head ends in them.
    TooLong,
    /// The input ended before the head did.
    Ended,
}

/// Reads on until the head of the next request is pending: all bytes through the first
/// CR LF CR LF (RFC 9112, section 2.1). It takes nothing where the head is pending already.
pub fn read_head<L: Link>(pending: &mut Pending, link: &mut L) -> Result<HeadEnd, Failed>
    requires { IsClean (L.state link.old) }
    ensures { ReadsHead (L.state link.old) (L.state link.new) pending.old pending.new result }
{
    let mut searched = 0;
    'reads: loop {
        let length = pending.len();
        if let Some(n) = pending.head_length(searched) {
            return Ok(HeadEnd::At(n));
        }
        if length == HEAD_LIMIT {
            return Ok(HeadEnd::TooLong);
        }
        match pending.fill(link) {
            Ok(0) => return Ok(HeadEnd::Ended),
            Ok(_) => {}
            Err(failed) => return Err(failed),
        }
        // The last three bytes may be the front of what ends a head.
        searched = length.saturating_sub(3);
    }
}
