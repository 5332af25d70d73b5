ghost use Rattle.std.specs.Prelude.{◌≡◌};

use log::{Log, error};
use std::io;
use std::io::{Read, Write};

/// A reader or a writer that says why a call of it failed.
#[derive(Drop)]
pub struct LoggedStream<'a, S: Drop, G: Log> {
    log: &'a G,
    name: &'static str,
    stream: S,
}

impl<'a, S: Drop, G: Log> LoggedStream<'a, S, G> {
    pub fn new(log: &'a G, name: &'static str, stream: S) -> Self {
        LoggedStream { log, name, stream }
    }

    /// What a call answered.
    fn logged<T: Drop>(&self, call: &str, answer: io::Result<T>) -> io::Result<T>
        ensures { result ≡ answer }
    {
        if let Err(error) = &answer {
            error!(self.log; "can't {call} {}: {error}", self.name);
        }
        answer
    }
}

impl<'a, S: Read + Drop, G: Log> Read for LoggedStream<'a, S, G> {
    ghost remaining = { λ l. S.remaining l.stream };

    fn read(&mut self, buf: &mut [u8]) -> io::Result<usize> {
        let read = self.stream.read(buf);
        self.logged("read", read)
    }
}

impl<'a, S: Write + Drop, G: Log> Write for LoggedStream<'a, S, G> {
    ghost contents = { λ l. S.contents l.stream };

    fn write(&mut self, buf: &[u8]) -> io::Result<usize> {
        let written = self.stream.write(buf);
        // The console takes it for a failed call.
        if let Ok(0) = written {
            error!(self.log; "can't write {}: it takes nothing", self.name);
        }
        self.logged("write", written)
    }

    fn flush(&mut self) -> io::Result<()> {
        let flushed = self.stream.flush();
        self.logged("write", flushed)
    }
}
