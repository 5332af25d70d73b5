//! The head of a reply.
ghost use Rattle.std.specs.Prelude.{◌≡◌, [], All, length, map};
ghost use Rattle.httparse.specs.Spans.{IsHeaderWithin, header_bytes};
ghost use Rattle.sw_base.specs.Link.{IsClean};
ghost use Rattle.reply_reader.specs.Reading.{IsHeadCheck, IsHeadRead};
ghost use Rattle.reply_reader.specs.Replies.{size_of_fields};

use head_fields::{Number, only_number};
use httparse::Status;
use httparse::spans::{EMPTY_HEADER_SPAN, HeaderSpan, parse_response};
use link_reader::{HEAD_LIMIT, Pending};
use sw_base::{Failed, Link};

// The most bytes of a reply's body.
const BODY_LIMIT: u64 = 16777216;

/// What the bytes that came so far say of the head.
#[derive(Clone, Copy, Debug, PartialEq, Eq)]
enum HeadCheck {
    /// The first `len` bytes are the head.
    Complete {
        code: u16,
        len: usize,
        size: Option<u32>,
    },
    /// They are no head, and may be the front of one.
    Partial,
    /// No head begins them, whatever follows.
    NoHead,
}

/// A head that tells the size of its body, at the front of what is pending.
#[derive(Clone, Copy, Debug, PartialEq, Eq)]
pub struct ReplyHead {
    pub code: u16,
    pub len: usize,
    pub size: u32,
}

fn body_size(text: &[u8], headers: &[HeaderSpan]) -> Option<u32>
    requires { All (IsHeaderWithin (length text.now)) headers.now }
    ensures { result ≡ size_of_fields (map (header_bytes text.now) headers.now) }
{
    match only_number(text, headers, b"content-length", 10) {
        Number::Told(size) if size <= BODY_LIMIT => Some(size as u32),
        _ => None,
    }
}

fn check_head(text: &[u8]) -> HeadCheck
    ensures { IsHeadCheck text.now result }
{
    let mut headers = [EMPTY_HEADER_SPAN; 64];
    match parse_response(text, &mut headers) {
        Ok(Status::Complete(head)) => HeadCheck::Complete {
            code: head.code,
            len: head.len,
            size: body_size(text, &headers[..head.headers]),
        },
        Ok(Status::Partial) => HeadCheck::Partial,
        Err(_) => HeadCheck::NoHead,
    }
}

/// Reads on until the head of a reply is pending, or it is known that there is none.
pub fn read_reply_head<L: Link>(
    pending: &mut Pending,
    link: &mut L,
) -> Result<Option<ReplyHead>, Failed>
    requires empty { pending.old ≡ [] }
    requires clean { IsClean (L.state link.old) }
    ensures { IsHeadRead (L.state link.old) (L.state link.new) pending.new result }
{
    'reads: loop {
        let is_full = pending.len() == HEAD_LIMIT;
        match check_head(pending.as_slice()) {
            HeadCheck::Complete { code, len, size } => {
                return match size {
                    Some(size) => Ok(Some(ReplyHead { code, len, size })),
                    None => Ok(None),
                };
            }
            HeadCheck::NoHead => return Ok(None),
            HeadCheck::Partial => {}
        }
        if is_full {
            return Ok(None);
        }
        match pending.fill(link) {
            Ok(0) => return Ok(None),
            Ok(_) => {}
            Err(failed) => return Err(failed),
        }
    }
}
