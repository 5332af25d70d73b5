ghost use Rattle.std.specs.Prelude.{◌≡◌, All, IsUtf8, length, map, MatchOption, MatchResult, None, Some, option_map};
ghost use Rattle.httparse.specs.Grammar.{RequestHead};
ghost use Rattle.httparse.specs.Spans.{IsWithin, IsHeaderWithin, span_bytes, header_bytes};
ghost use Rattle.request_head.specs.Heads.{IsNoHead};
ghost use Rattle.request_head.specs.HeadFields.{limit_at as spec_limit_at, caller_told as spec_caller_told, refusal};
ghost use Rattle.head_fields.specs.Numbers.{value_or_zero};
ghost use Rattle.request_head.specs.HeadChecks.{IsChecked, IsDue, Covers, IsWholeHead};

use crate::caller::caller_of;
use crate::connection::closes;
use crate::{After, Head, HeadRefusal, Method};
use head_fields::{Number, lacks, only, only_number};
use httparse::Status;
use httparse::spans::{EMPTY_HEADER_SPAN, HeaderSpan, RequestSpans, parse_request};

// The most bytes of a body, and of one that is put under `/blobs/`.
const BODY_LIMIT: u32 = 65536;

const BLOB_LIMIT: u32 = 16777216;

/// What is judged of the bytes of a head.
#[derive(Clone, Copy, Debug, PartialEq, Eq)]
pub enum HeadCheck<'a> {
    /// They are no request head, or one with more than 64 fields.
    NoHead,
    Refused { method: Method, why: HeadRefusal },
    Good(Head<'a>),
}

/// Where the parts of the one head stand that the text is.
fn whole_head(text: &[u8], headers: &mut [HeaderSpan]) -> Option<RequestSpans>
    requires { length headers.old ≡ 64 }
    ensures { MatchOption result (IsNoHead text.now) (λ r. IsWholeHead text.now headers.new r) }
{
    match parse_request(text, headers) {
        Ok(Status::Complete(head)) if head.len == text.len() => Some(head),
        _ => None,
    }
}

fn limit_at(target: &[u8]) -> u32
    ensures { result ≡ spec_limit_at target.now }
{
    if target.starts_with(b"/blobs/") {
        BLOB_LIMIT
    } else {
        BODY_LIMIT
    }
}

fn target_text(target: &[u8]) -> &str
    requires { IsUtf8 target.now }
    ensures { result.now ≡ target.now }
{
    str::from_utf8(target).unwrap()
}

fn caller_told<'a>(text: &'a [u8], headers: &[HeaderSpan]) -> Option<&'a str>
    requires { All (IsHeaderWithin (length text.now)) headers.now }
    ensures { option_map (λ who. who.now) result ≡ spec_caller_told (map (header_bytes text.now) headers.now) }
{
    let caller = only(text, headers, b"x-swarming-caller")?;
    caller_of(caller.of(text))
}

/// The bytes of the body, or the refusal that is due.
fn body_size(method: Method, length: Number, encoded: bool, limit: u32) -> Result<u32, HeadRefusal>
    ensures { MatchResult result
        (λ size. (refusal method length encoded limit ≡ None) × (size ≡ value_or_zero length))
        (λ why. refusal method length encoded limit ≡ Some why) }
{
    if length.is_broken() {
        return Err(HeadRefusal::Bad);
    }
    if encoded || (method.has_body() && length.is_absent()) {
        return Err(HeadRefusal::LengthRequired);
    }
    let size = length.value_or_zero();
    if size > u64::from(limit) {
        return Err(HeadRefusal::TooLarge { limit });
    }
    Ok(size as u32)
}

/// The answer that is due to the head that these spans cover.
fn check_whole_head<'a>(
    text: &'a [u8],
    head: &RequestSpans,
    headers: &[HeaderSpan],
) -> HeadCheck<'a>
    requires method { IsWithin (length text.now) head.now.method }
    requires path { IsWithin (length text.now) head.now.path }
    requires path_text { IsUtf8 (span_bytes text.now head.now.path) }
    requires fields { All (IsHeaderWithin (length text.now)) headers.now }
    ensures { (h : RequestHead) → Covers text.now head.now headers.now h → IsDue h result }
{
    let method = Method::named(head.method.of(text));
    let target = target_text(head.path.of(text));
    let length = only_number(text, headers, b"content-length", 10);
    let plain = lacks(text, headers, b"transfer-encoding");
    let limit = limit_at(target.as_bytes());
    match body_size(method, length, !plain, limit) {
        Ok(size) => HeadCheck::Good(Head {
            method,
            target,
            size,
            closes: closes(text, head.version, headers),
            caller: caller_told(text, headers),
            after: After::from_number(only_number(text, headers, b"x-swarming-after", 19)),
        }),
        Err(why) => HeadCheck::Refused { method, why },
    }
}

/// Judges the bytes through the end of a head. It takes no memory.
pub fn check_head(text: &[u8]) -> HeadCheck<'_>
    ensures { IsChecked text.now result }
{
    let mut headers = [EMPTY_HEADER_SPAN; 64];
    match whole_head(text, &mut headers) {
        Some(head) => check_whole_head(text, &head, &headers[..head.headers]),
        None => HeadCheck::NoHead,
    }
}
