//! Names and paths that lead nowhere else.
ghost use Rattle.std.specs.Prelude.{◌≡◌, IfOk, IsTrue, not, string_bytes};
ghost use Rattle.std.specs.List.{list_any, list_all};
ghost use Rattle.task_props.specs.Paths.{is_slash as spec_is_slash, names_nothing as spec_names_nothing, parts};
ghost use Rattle.task_props.specs.ItemRules.{is_env_byte as spec_is_env_byte};
ghost use Rattle.run_folders.specs.Names.{is_name as spec_is_name, is_env_key as spec_is_env_key, below};

use std::alloc::{AllocError, Global};
use std::io;
use std::io::ErrorKind;

fn is_slash(byte: u8) -> bool
    ensures { result ≡ spec_is_slash byte }
{
    byte == b'/'
}

fn has_slash(text: &[u8]) -> bool
    ensures { result ≡ list_any spec_is_slash text.now }
{
    text.iter().any(|byte| is_slash(*byte))
}

fn names_nothing(part: &[u8]) -> bool
    ensures { result ≡ spec_names_nothing part.now }
{
    part == b"".as_slice() || part == b".".as_slice() || part == b"..".as_slice()
}

/// Whether a text is the name of something in a folder.
pub fn is_name(text: &str) -> bool
    ensures { result ≡ spec_is_name text.now }
{
    !names_nothing(text.as_bytes()) && !has_slash(text.as_bytes())
}

fn has_nothing(path: &[u8]) -> bool
    ensures { result ≡ list_any spec_names_nothing (parts path.now) }
{
    path.split(|byte| is_slash(*byte))
        .any(|part| names_nothing(part))
}

/// Whether each part of a path is a name, so that the path leads to something below a folder.
pub(crate) fn is_below(path: &str) -> bool
    ensures { result ≡ not (list_any spec_names_nothing (parts path.now)) }
{
    !has_nothing(path.as_bytes())
}

/// The path of what has a name, or a path, in a folder.
pub fn path_below(alloc: Global, folder: &str, name: &str) -> Result<String, AllocError>
    ensures { IfOk result (λ path. string_bytes path ≡ below folder.now name.now) }
{
    format!(in alloc; "{folder}/{name}")
}

/// The path of what stands in a folder itself, and nowhere else.
///
/// # Errors
///
/// It is no name.
pub fn path_of_name(alloc: Global, folder: &str, name: &str) -> io::Result<String>
    ensures named { IfOk result (λ _. IsTrue (spec_is_name name.now)) }
    ensures path { IfOk result (λ path. string_bytes path ≡ below folder.now name.now) }
{
    if !is_name(name) {
        return Err(io::Error::from(ErrorKind::InvalidInput));
    }
    Ok(path_below(alloc, folder, name)?)
}

/// The path of what stands below a folder, by its path there.
///
/// # Errors
///
/// A part of the path is no name, so that it may lead elsewhere.
pub(crate) fn path_inside(alloc: Global, folder: &str, path: &str) -> io::Result<String>
    ensures inside { IfOk result (λ _. IsTrue (not (list_any spec_names_nothing (parts path.now)))) }
    ensures path { IfOk result (λ found. string_bytes found ≡ below folder.now path.now) }
{
    if !is_below(path) {
        return Err(io::Error::from(ErrorKind::InvalidInput));
    }
    Ok(path_below(alloc, folder, path)?)
}

/// How many folders stand above a path.
pub(crate) fn depth(path: &str) -> usize {
    path.match_indices('/').count()
}

fn is_env_byte(byte: u8) -> bool
    ensures { result ≡ spec_is_env_byte byte }
{
    byte.is_ascii_alphanumeric() || byte == b'_'
}

fn are_env_bytes(key: &[u8]) -> bool
    ensures { result ≡ list_all spec_is_env_byte key.now }
{
    key.iter().all(|byte| is_env_byte(*byte))
}

/// Whether a text can be the key of an environment: letters, digits and `_`, of which the first is no
/// digit.
pub fn is_env_key(key: &str) -> bool
    ensures { result ≡ spec_is_env_key key.now }
{
    match key.as_bytes().first() {
        Some(first) => !first.is_ascii_digit() && are_env_bytes(key.as_bytes()),
        None => false,
    }
}
