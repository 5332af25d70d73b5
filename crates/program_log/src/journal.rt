use log::kv::Source;
use log::span::Spans;
use log::{Level, Log, Logged, Metadata, Record};
use std::fmt;
use std::fmt::{Display, Formatter, Write};
use std::rt::Clock;

/// The log that the program makes, at one of its levels.
pub type ProgramLog = Logged<HostRuntime, Journal<HostRuntime>>;

/// Writes each record to the standard error, as one line: the moment in seconds since 1970, 0 where the
/// system tells none, the level and the message. Targets, pairs and spans are left out.
#[derive(Clone, Copy, Drop)]
pub struct Journal<R>(pub R);

impl<R: Eprint + Clock> Log for Journal<R> {
    fn enabled(&self, _metadata: &Metadata<'_>) -> bool {
        true
    }

    fn log<D: Display, K: Source, S: Spans>(&self, record: &Record<'_, D, K, S>) {
        let seconds = match self.0.since_1970() {
            Ok(since) => since.as_secs(),
            Err(_) => 0,
        };
        let _ = self.0.eprintln(Line {
            seconds,
            level: record.level(),
            message: record.args(),
        });
    }

    fn flush(&self) {}

    fn target(&self) -> &str {
        ""
    }
}

#[derive(Drop)]
struct Line<'a, D> {
    seconds: u64,
    level: Level,
    message: &'a D,
}

impl<'a, D: Display> Display for Line<'a, D> {
    fn fmt<W: fmt::Write>(&self, f: &mut Formatter<W>) -> fmt::Result {
        write!(f, "{} {} ", self.seconds, self.level)?;
        let mut plain = Plain(f);
        plain.write(self.message)
    }
}

/// Writes a text without what would end its line, or do more on a terminal than show.
struct Plain<'f, W>(&'f mut Formatter<W>);

impl<'f, W> Drop for Plain<'f, W> {
    fn drop(self) {
        let Self(_) = self;
    }
}

impl<'f, W: fmt::Write> fmt::Write for Plain<'f, W> {
    fn write_str(&mut self, text: &str) -> fmt::Result {
        for char in text.chars() {
            self.0
                .write_char(if char.is_control() { ' ' } else { char })?;
        }
        Ok(())
    }
}
