//! Fields by their names, which are the same in any case of letters.
ghost use Rattle.std.specs.Prelude.{◌≡◌, ◌≤◌, ℕ, List, [], ◌∷◌, ◌++◌, All, IfSome, length, map, option_map};
ghost use Rattle.httparse.specs.Spans.{IsWithin, IsHeaderWithin, span_bytes, header_bytes};
ghost use Rattle.head_fields.specs.Fields.{named, if_named, same_name, lacks as spec_lacks, only as spec_only};
ghost use Rattle.head_fields.specs.Finding.{IsFound};
ghost use Rattle.head_fields.specs.Numbers.{only_number as spec_only_number};

use crate::found::Found;
use crate::number::Number;
use httparse::spans::{HeaderSpan, Span};

/// Whether the header has this name.
pub fn is_named(text: &[u8], header: &HeaderSpan, name: &[u8]) -> bool
    requires { IsHeaderWithin (length text.now) header.now }
    ensures { result ≡ same_name (span_bytes text.now header.now.name) name.now }
{
    header.name.of(text).eq_ignore_ascii_case(name)
}

fn with_header(text: &[u8], header: &HeaderSpan, name: &[u8], found: Found) -> Found
    requires { IsHeaderWithin (length text.now) header.now }
    ensures { (values : List (List ℕ)) → IsFound text.now values found
        → IsFound text.now (values ++ if_named name.now (header_bytes text.now header.now)) result }
{
    if is_named(text, header, name) {
        found.once_more(header.value)
    } else {
        found
    }
}

fn find_field(text: &[u8], headers: &[HeaderSpan], name: &[u8]) -> Found
    requires { All (IsHeaderWithin (length text.now)) headers.now }
    ensures { IsFound text.now (named name.now (map (header_bytes text.now) headers.now)) result }
{
    let mut found = Found::Absent;
    for header in headers {
        found = with_header(text, header, name, found);
    }
    found
}

/// Whether no field has this name.
pub fn lacks(text: &[u8], headers: &[HeaderSpan], name: &[u8]) -> bool
    requires { All (IsHeaderWithin (length text.now)) headers.now }
    ensures { result ≡ spec_lacks name.now (map (header_bytes text.now) headers.now) }
{
    find_field(text, headers, name) == Found::Absent
}

/// Where the value of the one field of this name stands.
pub fn only(text: &[u8], headers: &[HeaderSpan], name: &[u8]) -> Option<Span>
    requires { All (IsHeaderWithin (length text.now)) headers.now }
    ensures value { option_map (λ s. span_bytes text.now s) result ≡ spec_only (named name.now (map (header_bytes text.now) headers.now)) }
    ensures within { IfSome result (λ s. IsWithin (length text.now) s) }
{
    match find_field(text, headers, name) {
        Found::Once(span) => Some(span),
        _ => None,
    }
}

/// What the values of this name tell that is to stand there once, in 1 to `most` digits.
pub fn only_number(text: &[u8], headers: &[HeaderSpan], name: &[u8], most: usize) -> Number
    requires fields { All (IsHeaderWithin (length text.now)) headers.now }
    requires digits { most ≤ 19 }
    ensures { result ≡ spec_only_number most (named name.now (map (header_bytes text.now) headers.now)) }
{
    match find_field(text, headers, name) {
        Found::Absent => Number::Absent,
        Found::Once(span) => Number::of(span.of(text), most),
        Found::Repeated => Number::Broken,
    }
}
