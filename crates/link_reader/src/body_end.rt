ghost use Rattle.std.specs.Prelude.{◌≤◌, length};
ghost use Rattle.sw_base.specs.Link.{IsClean};
ghost use Rattle.link_reader.specs.Bodies.{ReadsBody};
ghost use Rattle.link_reader.specs.Pieces.{IsFinish};

use crate::Pending;
use crate::body_buffer::BodyBuffer;
use std::alloc::Global;
use sw_base::{Failed, Link};

/// What came of reading a body.
#[derive(Drop)]
pub enum BodyEnd {
    Whole(Vec<u8>),
    /// It was read to its end, and there was no memory to keep it.
    Dropped,
    /// The input ended before the body did.
    Ended,
}

fn finish(body: BodyBuffer) -> BodyEnd
    ensures { IsFinish body result }
{
    match body.into_bytes() {
        Some(bytes) => BodyEnd::Whole(bytes),
        None => BodyEnd::Dropped,
    }
}

/// Reads the `size` bytes of a body that stand behind a head of `head` bytes, and takes both from
/// what is pending. A body that finds no memory is read to its end all the same.
pub fn read_body<L: Link>(
    alloc: Global,
    pending: &mut Pending,
    head: usize,
    size: usize,
    link: &mut L,
) -> Result<BodyEnd, Failed>
    requires within { head ≤ length pending.old }
    requires clean { IsClean (L.state link.old) }
    ensures { ReadsBody (L.state link.old) (L.state link.new) pending.old pending.new head size result }
{
    let mut got = size.min(pending.len() - head);
    let mut body = BodyBuffer::new(alloc, size, &pending.as_slice()[head..head + got]);
    pending.remove_front(head + got);
    'pieces: while got < size {
        match body.read(link, size - got) {
            Ok(0) => return Ok(BodyEnd::Ended),
            Ok(n) => got += n,
            Err(failed) => return Err(failed),
        }
    }
    Ok(finish(body))
}
