//! The paths of files and folders.
ghost use Rattle.std.specs.Prelude.{◌≡◌};
ghost use Rattle.std.specs.List.{list_any};
ghost use Rattle.task_props.specs.Paths.{is_slash as spec_is_slash, is_barred as spec_is_barred, names_nothing as spec_names_nothing, parts, path_rule as spec_path_rule};

use task_props::PropRule;

fn is_slash(byte: u8) -> bool
    ensures { result ≡ spec_is_slash byte }
{
    byte == b'/'
}

fn is_barred(byte: u8) -> bool
    ensures { result ≡ spec_is_barred byte }
{
    byte.is_ascii_control() || byte == b'\\'
}

fn has_barred(path: &[u8]) -> bool
    ensures { result ≡ list_any spec_is_barred path.now }
{
    path.iter().any(|byte| is_barred(*byte))
}

fn names_nothing(part: &[u8]) -> bool
    ensures { result ≡ spec_names_nothing part.now }
{
    part == b"".as_slice() || part == b".".as_slice() || part == b"..".as_slice()
}

fn has_nothing(path: &[u8]) -> bool
    ensures { result ≡ list_any spec_names_nothing (parts path.now) }
{
    path.split(|byte| is_slash(*byte))
        .any(|part| names_nothing(part))
}

/// The rule that a path breaks: 1 to 255 bytes in parts with `/` between, none of them empty, `.`
/// or `..`, without control characters and backslashes.
pub fn path_rule(path: &str) -> Option<PropRule>
    ensures { result ≡ spec_path_rule path.now }
{
    if path.is_empty() {
        return Some(PropRule::Count);
    }
    if path.len() > 255 {
        return Some(PropRule::Count);
    }
    if has_barred(path.as_bytes()) || has_nothing(path.as_bytes()) {
        return Some(PropRule::Grammar);
    }
    None
}
