//! The name of a batch, and the line that names it in its progress.
ghost use Rattle.std.specs.Prelude.{◌≡◌, IfOk, string_bytes, option_map};
ghost use Rattle.std.specs.List.{list_all, position};
ghost use Rattle.swarm_batch.specs.Names.{is_name_byte as spec_is_name_byte, is_batch_name as spec_is_batch_name, batch_head as spec_batch_head, IsBehindDigest, IsNameLine, IsNameIn, is_line_feed};

use sha2::{Digest, Sha256};
use std::alloc::{AllocError, Global};
use task_props::are_hex_digits;

/// How many digits the digest of a file has.
const DIGITS: usize = 64;

fn is_name_byte(byte: u8) -> bool
    ensures { result ≡ spec_is_name_byte byte }
{
    byte.is_ascii_alphanumeric() || byte == b'-'
}

fn are_name_bytes(text: &[u8]) -> bool
    ensures { result ≡ list_all spec_is_name_byte text.now }
{
    text.iter().all(|byte| is_name_byte(*byte))
}

/// Whether a batch may have this name: 1 to 40 ASCII letters, digits and `-`.
pub fn is_batch_name(name: &[u8]) -> bool
    ensures { result ≡ spec_is_batch_name name.now }
{
    1 <= name.len() && name.len() <= 40 && are_name_bytes(name)
}

/// What names a batch: the SHA-256 of the file (FIPS 180-4) in hexadecimal, a space, and its name.
pub(crate) fn batch_head(alloc: Global, text: &[u8], name: &str) -> Result<String, AllocError>
    ensures { IfOk result (λ head. string_bytes head ≡ spec_batch_head text.now name.now) }
{
    let digest = hex::encode(alloc, Sha256::digest(text))?;
    let digest = digest.as_str();
    format!(in alloc; "{digest} {name}")
}

/// What follows 64 hexadecimal digits and a space.
fn behind_digest(text: &[u8]) -> Option<&[u8]>
    ensures { IsBehindDigest text.now (option_map (λ rest. rest.now) result) }
{
    if text.len() < DIGITS {
        return None;
    }
    let (digest, rest) = text.split_at(DIGITS);
    if are_hex_digits(digest) {
        rest.strip_prefix(b" ".as_slice())
    } else {
        None
    }
}

/// Where the first line of a text ends.
fn line_end(text: &[u8]) -> Option<usize>
    ensures { result ≡ position is_line_feed text.now }
{
    text.iter().position(|byte| *byte == b'\n')
}

/// The name of a batch that is the first line of a text.
fn name_line(text: &[u8]) -> Option<&[u8]>
    ensures { IsNameLine text.now (option_map (λ name. name.now) result) }
{
    let Some(end) = line_end(text) else {
        return None;
    };
    let name = &text[..end];
    if is_batch_name(name) {
        Some(name)
    } else {
        None
    }
}

/// The name in the first line of a progress: one of 64 hexadecimal digits, a space and the name of a
/// batch. Where that line is none, there is no name.
pub fn progress_name(text: &[u8]) -> Option<&[u8]>
    ensures { IsNameIn text.now (option_map (λ name. name.now) result) }
{
    let Some(rest) = behind_digest(text) else {
        return None;
    };
    name_line(rest)
}
