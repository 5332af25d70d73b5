//! The rules on the fields of a request for a task, one function each.
ghost use Rattle.std.specs.Prelude.{◌≡◌, ◌≤◌, length, pos, None};
ghost use Rattle.std.specs.List.{list_any, list_all};
ghost use Rattle.std.specs.Char.{is_ascii_control};
ghost use Rattle.task_props.specs.FieldRules.{name_rule, range_rule, priority_rule, meant_tolerance, tolerance_rule, expiration_rule, timeout_rule, grace_rule, digest_rule, size_rule, is_uuid_byte, uuid_rule, count_rule, text_rule, is_nul, first_broken_text, broken_command, field_of, broken_dimensions};
ghost use Rattle.task_checks.specs.Reading.{natural};

use dimensions::{DimRule, DimSet, Text};
use memchr::memchr;
use task_props::{PropRule, SliceField, read_digest};

pub(crate) const HIGHEST_PRIORITY: u32 = 255;

pub(crate) const SHORTEST_TOLERANCE_SECS: u32 = 60;

pub(crate) const LONGEST_TOLERANCE_SECS: u32 = 1200;

pub(crate) const LONGEST_EXPIRATION_SECS: u32 = 604_800;

pub(crate) const LONGEST_TIMEOUT_SECS: u32 = 604_800;

pub(crate) const LONGEST_GRACE_SECS: u32 = 3600;

/// The bytes of the largest content.
pub const LARGEST_CONTENT: u32 = 16_777_216;

pub const MOST_SLICES: usize = 8;

fn has_control(text: &str) -> bool
    ensures { result ≡ list_any is_ascii_control text.now }
{
    text.as_bytes().iter().any(|byte| byte.is_ascii_control())
}

#[tactic(auto, using(crate::proofs::Bytes::any_passes))]
pub(crate) fn has_nul(text: &str) -> bool
    ensures { result ≡ list_any is_nul text.now }
{
    memchr(0, text.as_bytes()).is_some()
}

pub fn name_rule(name: &str) -> Option<PropRule>
    ensures { result ≡ name_rule name.now }
{
    if name.len() > 256 {
        return Some(PropRule::Count);
    }
    if has_control(name) {
        return Some(PropRule::Grammar);
    }
    None
}

fn range_rule(low: u32, high: u32, number: i128) -> Option<PropRule>
    ensures { result ≡ range_rule low high number }
{
    if low as i128 <= number && number <= high as i128 {
        None
    } else {
        Some(PropRule::Range)
    }
}

pub fn priority_rule(number: i128) -> Option<PropRule>
    ensures { result ≡ priority_rule number }
{
    range_rule(0, HIGHEST_PRIORITY, number)
}

/// The seconds that a number means: 0, as where a request names none, is the longest.
pub(crate) fn meant_tolerance(seconds: i128) -> i128
    ensures { result ≡ meant_tolerance seconds }
{
    if seconds == 0 {
        LONGEST_TOLERANCE_SECS as i128
    } else {
        seconds
    }
}

pub fn tolerance_rule(seconds: i128) -> Option<PropRule>
    ensures { result ≡ tolerance_rule seconds }
{
    range_rule(SHORTEST_TOLERANCE_SECS, LONGEST_TOLERANCE_SECS, seconds)
}

pub fn expiration_rule(seconds: i128) -> Option<PropRule>
    ensures { result ≡ expiration_rule seconds }
{
    range_rule(1, LONGEST_EXPIRATION_SECS, seconds)
}

/// The seconds of a timeout, of which 0 means none.
pub fn timeout_rule(seconds: i128) -> Option<PropRule>
    ensures { result ≡ timeout_rule seconds }
{
    range_rule(0, LONGEST_TIMEOUT_SECS, seconds)
}

/// The seconds between a signal to end and the kill.
pub fn grace_rule(seconds: i128) -> Option<PropRule>
    ensures { result ≡ grace_rule seconds }
{
    range_rule(0, LONGEST_GRACE_SECS, seconds)
}

/// A digest as 64 hexadecimal digits in lower case.
pub fn digest_rule(text: &str) -> Option<PropRule>
    ensures { result ≡ digest_rule text.now }
{
    if read_digest(text).is_none() {
        return Some(PropRule::Grammar);
    }
    None
}

/// The bytes of a content.
pub fn size_rule(bytes: i128) -> Option<PropRule>
    ensures { result ≡ size_rule bytes }
{
    range_rule(0, LARGEST_CONTENT, bytes)
}

/// A number that keeps its range.
pub(crate) fn natural(low: u32, high: u32, number: i128) -> u32
    requires { range_rule low high number ≡ None }
    ensures { result ≡ natural number }
{
    number as u32
}

fn are_uuid_bytes(uuid: &[u8]) -> bool
    ensures { result ≡ list_all is_uuid_byte uuid.now }
{
    uuid.iter()
        .all(|byte| byte.is_ascii_alphanumeric() || *byte == b'-')
}

pub fn uuid_rule(uuid: &str) -> Option<PropRule>
    ensures { result ≡ uuid_rule uuid.now }
{
    if uuid.len() > 64 {
        return Some(PropRule::Count);
    }
    if !are_uuid_bytes(uuid.as_bytes()) {
        return Some(PropRule::Grammar);
    }
    None
}

pub fn count_rule(most: usize, count: usize) -> Option<PropRule>
    ensures { result ≡ count_rule most count }
{
    if 1 <= count && count <= most {
        None
    } else {
        Some(PropRule::Count)
    }
}

fn text_rule(place: u32, text: &str) -> Option<PropRule>
    ensures { result ≡ text_rule place text.now }
{
    if place == 0 && text.is_empty() {
        return Some(PropRule::Count);
    }
    if text.len() > 4096 {
        return Some(PropRule::Count);
    }
    if has_nul(text) {
        return Some(PropRule::Grammar);
    }
    None
}

fn first_broken_text(texts: &[Text]) -> Option<(SliceField, PropRule)>
    requires { length texts.now ≤ 64 }
    ensures { result ≡ first_broken_text 0 texts.now }
{
    let mut place = 0;
    for text in texts {
        if let Some(rule) = text_rule(place, text.as_str()) {
            return Some((SliceField::CommandText { place }, rule));
        }
        place += 1;
    }
    None
}

pub fn broken_command(texts: &[Text]) -> Option<(SliceField, PropRule)>
    ensures { result ≡ broken_command texts.now }
{
    if let Some(rule) = count_rule(64, texts.len()) {
        return Some((SliceField::Command, rule));
    }
    first_broken_text(texts)
}

fn field_of(rule: DimRule, place: u32) -> SliceField
    ensures { result ≡ field_of rule place }
{
    match rule {
        DimRule::TooMany | DimRule::Pool | DimRule::Id => SliceField::Dimensions,
        DimRule::BadKey | DimRule::BadValue | DimRule::EmptyAlternative | DimRule::Repeated => {
            SliceField::Dimension { place }
        }
    }
}

pub(crate) fn broken_dimensions(pairs: &[(Text, Text)]) -> Option<(SliceField, PropRule)>
    ensures { result ≡ broken_dimensions pairs.now }
{
    let (rule, place) = DimSet::broken(pairs)?;
    Some((field_of(rule, place), PropRule::from(rule)))
}
