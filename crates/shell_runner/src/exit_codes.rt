//! The exit code of a child, by what its shell wrote and by how that shell ended.
ghost use Rattle.std.specs.Prelude.{◌≡◌, ◌≢◌, ◌∷◌, [], ◌++◌, List, ℕ, IsUtf8, IsErr, MatchOption, Ok, None};
ghost use Rattle.shell_runner.specs.Children.{ReadsCode, LeavesCode};

use std::io;
use std::io::ErrorKind;
use std::os::unix::process::ExitStatusExt;
use std::process::ExitStatus;

/// A line without its end, where it has one.
fn before_end(line: &str) -> Option<&str>
    ensures { MatchOption result ((text : List ℕ) → line.now ≢ text ++ 10 ∷ []) (λ text. line.now ≡ text.now ++ 10 ∷ []) }
{
    line.strip_suffix('\n')
}

/// The code that a text says.
fn number_of(text: &str) -> io::Result<Option<i32>>
    ensures { ReadsCode text.now result }
{
    match text.parse() {
        Ok(code) => Ok(Some(code)),
        Err(_) => Err(io::Error::from(ErrorKind::InvalidData)),
    }
}

/// The exit code of a line that a shell writes, and none where the line isn't written to its end: it is
/// written at once, behind the making of its file.
///
/// # Errors
///
/// It is no text, or says no code.
#[tactic(auto, using(crate::proofs::Codes::code_is_said))]
pub(crate) fn code_of(line: &[u8]) -> io::Result<Option<i32>>
    ensures broken { ¬ (IsUtf8 line.now) → IsErr result }
    ensures open { IsUtf8 line.now → ((text : List ℕ) → line.now ≢ text ++ 10 ∷ []) → result ≡ Ok None }
    ensures code { IsUtf8 line.now → (text : List ℕ) → line.now ≡ text ++ 10 ∷ [] → ReadsCode text result }
{
    let Ok(whole) = str::from_utf8(line) else {
        return Err(io::Error::from(ErrorKind::InvalidData));
    };
    match before_end(whole) {
        Some(text) => number_of(text),
        None => Ok(None),
    }
}

/// The exit code of a child whose shell is gone: the one that it wrote, or that of a signal to the whole
/// group.
///
/// # Errors
///
/// The shell ended by itself, and has written none.
pub(crate) fn code_left(written: Option<i32>, status: ExitStatus) -> io::Result<Option<i32>>
    ensures { LeavesCode written status result }
{
    if let Some(code) = written {
        return Ok(Some(code));
    }
    match status.signal() {
        Some(signal) => Ok(Some(signal.saturating_add(128))),
        None => Err(io::Error::from(ErrorKind::BrokenPipe)),
    }
}
