//! The options of a connection (RFC 9110, section 7.6.1).
ghost use Rattle.std.specs.Prelude.{◌≡◌, All, length, map, reverse};
ghost use Rattle.httparse.specs.Grammar.{skip_ows, trim_ows};
ghost use Rattle.httparse.specs.Spans.{IsHeaderWithin, header_bytes};
ghost use Rattle.request_head.specs.HeadFields.{is_close as spec_is_close, has_close as spec_has_close, is_closing as spec_is_closing, asks_to_close as spec_asks_to_close, closes as spec_closes};

use head_fields::is_named;
use httparse::is_space_or_tab;
use httparse::spans::HeaderSpan;

fn trim_start(mut text: &[u8]) -> &[u8]
    ensures { result.now ≡ skip_ows text.now }
{
    while let [first, rest @ ..] = text
        && is_space_or_tab(*first)
    {
        text = rest;
    }
    text
}

fn trim_end(mut text: &[u8]) -> &[u8]
    ensures { result.now ≡ reverse (skip_ows (reverse text.now)) }
{
    while let [rest @ .., last] = text
        && is_space_or_tab(*last)
    {
        text = rest;
    }
    text
}

#[tactic(auto, unfolding(httparse::specs::Grammar::trim_ows))]
fn trim(text: &[u8]) -> &[u8]
    ensures { result.now ≡ trim_ows text.now }
{
    trim_end(trim_start(text))
}

fn is_close(token: &[u8]) -> bool
    ensures { result ≡ spec_is_close token.now }
{
    trim(token).eq_ignore_ascii_case(b"close")
}

fn has_close(value: &[u8]) -> bool
    ensures { result ≡ spec_has_close value.now }
{
    value.split(|b| *b == b',').any(|token| is_close(token))
}

fn is_closing(text: &[u8], header: &HeaderSpan) -> bool
    requires { IsHeaderWithin (length text.now) header.now }
    ensures { result ≡ spec_is_closing (header_bytes text.now header.now) }
{
    is_named(text, header, b"connection") && has_close(header.value.of(text))
}

/// Whether some Connection field has the token `close`.
fn asks_to_close(text: &[u8], headers: &[HeaderSpan]) -> bool
    requires { All (IsHeaderWithin (length text.now)) headers.now }
    ensures { result ≡ spec_asks_to_close (map (header_bytes text.now) headers.now) }
{
    let mut closes = false;
    for header in headers {
        closes |= is_closing(text, header);
    }
    closes
}

/// Whether the connection ends with the reply: the version is 1.0, or the head asks for it.
pub fn closes(text: &[u8], version: u8, headers: &[HeaderSpan]) -> bool
    requires { All (IsHeaderWithin (length text.now)) headers.now }
    ensures { result ≡ spec_closes version (map (header_bytes text.now) headers.now) }
{
    version == 0 || asks_to_close(text, headers)
}
