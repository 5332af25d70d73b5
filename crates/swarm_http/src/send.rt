//! Writing a reply.
ghost use Rattle.std.specs.Prelude.{◌≡◌, ◌+◌, ◌≤◌, ◌++◌, if◌then◌else◌, [], None, Some, OnOk, length};
ghost use Rattle.sw_base.specs.Link.{IsClean};
ghost use Rattle.link_writer.specs.Sends.{Sends};
ghost use Rattle.swarm_model.specs.declared.rule.Rule.TheVariants as rule;
ghost use Rattle.swarm_http.specs.Replies.{refusal, sent_to, takes_body as spec_takes_body};
ghost use Rattle.swarm_http.specs.Sends.{rule_of, shown_in};

use crate::reply::{Refusal, ReplyBytes};
use arrayvec::ArrayString;
use itoa::Buffer;
use link_writer::{send_both, send_flushed};
use request_head::Method;
use sw_base::{Failed, Link};

const FRONT_BEFORE: &str =
    "HTTP/1.1 503 Service Unavailable\r\nContent-Length: 25\r\nContent-Type: application/json\r\nX-Swarming-Front: ";

const WANT_OF_MEMORY: &str = "{\"code\":\"want_of_memory\"}";

// The most bytes of a reply that takes no memory.
const SHORT_LIMIT: usize = 192;

/// Whether the reply to a request of this method has its body.
fn takes_body(method: Option<Method>) -> bool
    ensures { result ≡ spec_takes_body method }
{
    match method {
        Some(Method::Head) => false,
        Some(Method::Get | Method::Post | Method::Put | Method::Other) | None => true,
    }
}

/// The head and the body of the reply of a refusal.
fn refusal_parts(why: Refusal) -> (&'static str, &'static str)
    ensures parts { record { head = result.0.now; body = result.1.now } ≡ refusal None (rule_of why) }
    ensures short { length result.0.now + length result.1.now ≤ 192 }
{
    match why {
        Refusal::BadHead => (
            "HTTP/1.1 400 Bad Request\r\nContent-Length: 19\r\nContent-Type: application/json\r\n\r\n",
            "{\"code\":\"bad_head\"}",
        ),
        Refusal::LengthRequired => (
            "HTTP/1.1 411 Length Required\r\nContent-Length: 26\r\nContent-Type: application/json\r\n\r\n",
            "{\"code\":\"length_required\"}",
        ),
        Refusal::BodyTooLarge => (
            "HTTP/1.1 413 Payload Too Large\r\nContent-Length: 34\r\nContent-Type: application/json\r\n\r\n",
            "{\"code\":\"too_large\",\"limit\":65536}",
        ),
        Refusal::BlobTooLarge => (
            "HTTP/1.1 413 Payload Too Large\r\nContent-Length: 37\r\nContent-Type: application/json\r\n\r\n",
            "{\"code\":\"too_large\",\"limit\":16777216}",
        ),
        Refusal::NoRoute => (
            "HTTP/1.1 404 Not Found\r\nContent-Length: 19\r\nContent-Type: application/json\r\n\r\n",
            "{\"code\":\"no_route\"}",
        ),
        Refusal::BadMethod => (
            "HTTP/1.1 405 Method Not Allowed\r\nContent-Length: 21\r\nContent-Type: application/json\r\n\r\n",
            "{\"code\":\"bad_method\"}",
        ),
        Refusal::BadJson => (
            "HTTP/1.1 400 Bad Request\r\nContent-Length: 19\r\nContent-Type: application/json\r\n\r\n",
            "{\"code\":\"bad_json\"}",
        ),
        Refusal::FrontBroken => (
            "HTTP/1.1 400 Bad Request\r\nContent-Length: 64\r\nContent-Type: application/json\r\n\r\n",
            "{\"code\":\"bad_field\",\"field\":\"X-Swarming-After\",\"rule\":\"grammar\"}",
        ),
        Refusal::NoCaller => (
            "HTTP/1.1 401 Unauthorized\r\nContent-Length: 20\r\nContent-Type: application/json\r\n\r\n",
            "{\"code\":\"no_caller\"}",
        ),
        Refusal::NoPool => (
            "HTTP/1.1 404 Not Found\r\nContent-Length: 18\r\nContent-Type: application/json\r\n\r\n",
            "{\"code\":\"no_pool\"}",
        ),
        Refusal::NoTask => (
            "HTTP/1.1 404 Not Found\r\nContent-Length: 18\r\nContent-Type: application/json\r\n\r\n",
            "{\"code\":\"no_task\"}",
        ),
        Refusal::LogFull => (
            "HTTP/1.1 503 Service Unavailable\r\nContent-Length: 19\r\nContent-Type: application/json\r\n\r\n",
            "{\"code\":\"log_full\"}",
        ),
        Refusal::KeeperFault => (
            "HTTP/1.1 503 Service Unavailable\r\nContent-Length: 23\r\nContent-Type: application/json\r\n\r\n",
            "{\"code\":\"keeper_fault\"}",
        ),
        Refusal::WantOfMemory => (
            "HTTP/1.1 503 Service Unavailable\r\nContent-Length: 25\r\nContent-Type: application/json\r\n\r\n",
            "{\"code\":\"want_of_memory\"}",
        ),
    }
}

/// The head of the reply of a call that was carried out, where there was no memory for its own.
fn want_of_memory_head(front: u64) -> ArrayString<160>
    ensures head { result.bytes ≡ (refusal (Some front) rule.WantOfMemory).head }
    ensures short { length result.bytes ≤ 160 }
{
    let mut digits = Buffer::new();
    let mut text = ArrayString::new();
    text.push_str(FRONT_BEFORE);
    text.push_str(digits.format(front));
    text.push_str("\r\n\r\n");
    text
}

/// Writes a head, and its body where it is to have it, in one piece and flushes it. It takes no
/// memory.
fn send_short<L: Link>(link: &mut L, head: &str, body: &str, whole: bool) -> Result<(), Failed>
    requires { length head.now + length body.now ≤ 192 }
    ensures flushed { OnOk result (IsClean (L.state link.new)) }
    ensures sends { Sends (L.state link.old) (L.state link.new) (head.now ++ (if whole then body.now else [])) result }
{
    let mut text: ArrayString<SHORT_LIMIT> = ArrayString::new();
    text.push_str(head);
    if whole {
        text.push_str(body);
    }
    send_flushed(link, text.as_str().as_bytes())
}

/// Writes a reply to a request of this method and flushes it, unless a write or the flush fails.
pub fn send_shown<L: Link>(
    link: &mut L,
    shown: ReplyBytes,
    method: Option<Method>,
) -> Result<(), Failed>
    ensures flushed { OnOk result (IsClean (L.state link.new)) }
    ensures sends { Sends (L.state link.old) (L.state link.new) (sent_to method (shown_in shown)) result }
{
    let whole = takes_body(method);
    match shown {
        ReplyBytes::Refused(why) => {
            let (head, body) = refusal_parts(why);
            send_short(link, head, body, whole)
        }
        ReplyBytes::Whole {
            status: _,
            head_size,
            mut text,
        } => {
            if !whole {
                text.truncate(head_size);
            }
            send_flushed(link, &text)
        }
        ReplyBytes::Blob(_, head, content) => {
            let body = if whole { content.as_slice() } else { &[] };
            send_both(link, head, body)
        }
        ReplyBytes::WantOfMemoryAt(front) => {
            let head = want_of_memory_head(front);
            send_short(link, head.as_str(), WANT_OF_MEMORY, whole)
        }
    }
}
