ghost use Rattle.std.specs.Prelude.{◌≡◌, ◌≤◌, ◌<◌, ◌+◌, ◌-◌, ◌^◌, min, IfOk, Ok, length};
ghost use Rattle.std.specs.Io.KnownBytes.{ReadConsumes};
ghost use Rattle.runners.specs.Calls.{FitsRoom};
ghost use Rattle.shell_runner.specs.Children.{look_of as spec_look_of};

use runners::Look;
use std::io;
use std::io::Read;

/// How much output is shown at most: what a run may have, 64 MiB, and enough to tell that there is more.
const MOST_SHOWN: u64 = 67_108_864 + 65_536;

/// What a child writes, read as far as it was shown.
#[derive(Drop)]
pub(crate) struct ShownOutput<F: Read + Drop> {
    file: F,
    // How many bytes of it were shown.
    shown: u64,
}

impl<F: Read + Drop> ShownOutput<F> {
    pub(crate) fn new(file: F) -> ShownOutput<F>
        ensures file { result.file ≡ file }
        ensures shown { result.shown ≡ 0 }
    {
        ShownOutput { file, shown: 0 }
    }

    /// What comes next of it, up to the most that is shown of a run.
    pub(crate) fn read(&mut self, into: &mut [u8]) -> io::Result<usize>
        ensures fits { IfOk result (λ n. n ≤ length into.new) }
        ensures same { length into.new ≡ length into.old }
        ensures bytes { self.old.shown < MOST_SHOWN → ReadConsumes (F.remaining self.old.file) (F.remaining self.new.file) result into.new }
        ensures most { MOST_SHOWN ≤ self.old.shown → result ≡ Ok 0 }
        ensures shown { IfOk result (λ n. self.new.shown ≡ min (self.old.shown + n) (2 ^ 64 - 1)) }
    {
        if self.shown >= MOST_SHOWN {
            return Ok(0);
        }
        let n = self.file.read(into)?;
        self.shown = self.shown.saturating_add(n as u64);
        Ok(n)
    }
}

/// What a look shows where `n` bytes of the output were read into so much room: these, or the end of the
/// child, where it ended before the output was read to its end. Of output past the most that a run may
/// have little is shown, so that what is dropped doesn't hold up the end.
pub(crate) fn look_of(room: usize, n: usize, ended: Option<i32>) -> Look
    ensures look { result ≡ spec_look_of room n ended }
    ensures fits { n ≤ room → FitsRoom result room }
{
    if n > 0 {
        return Look::Output(n);
    }
    match ended {
        Some(code) if room > 0 => Look::Ended(code),
        _ => Look::Quiet,
    }
}
