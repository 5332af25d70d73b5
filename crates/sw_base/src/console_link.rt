ghost use Rattle.std.specs.Prelude.{◌≡◌};
ghost use Rattle.sw_base.specs.Link.{opened};

use crate::{Failed, Link};
use std::io::{Read, Write};

/// A reader and a writer of std as one link, such as the console's input and output. A write of
/// 0 bytes counts as a failed one.
///
/// std does not say what a flush of a writer does, so here what was written counts as flushed.
#[derive(Drop)]
pub struct ConsoleLink<R: Read + Drop, W: Write + Drop> {
    reader: R,
    writer: W,
    read_faults: u64,
    write_faults: u64,
}

impl<R: Read + Drop, W: Write + Drop> ConsoleLink<R, W> {
    pub fn new(reader: R, writer: W) -> Self
        ensures opened { ⟦<ConsoleLink<R, W> as Link>⟧.state result ≡ opened (R.remaining reader) (W.contents writer) }
    {
        ConsoleLink {
            reader,
            writer,
            read_faults: 0,
            write_faults: 0,
        }
    }
}

impl<R: Read + Drop, W: Write + Drop> Link for ConsoleLink<R, W> {
    ghost state = { λ c. record {
      left = R.remaining c.reader;
      written = W.contents c.writer;
      flushed = W.contents c.writer;
      read_faults = c.read_faults;
      write_faults = c.write_faults;
    } };

    fn read(&mut self, into: &mut [u8]) -> Result<usize, Failed> {
        match self.reader.read(into) {
            Ok(taken) => Ok(taken),
            Err(_) => {
                self.read_faults = self.read_faults.saturating_add(1);
                Err(Failed)
            }
        }
    }

    fn write(&mut self, piece: &[u8]) -> Result<usize, Failed> {
        match self.writer.write(piece) {
            Ok(sent) if sent > 0 => Ok(sent),
            _ => {
                self.write_faults = self.write_faults.saturating_add(1);
                Err(Failed)
            }
        }
    }

    fn flush(&mut self) -> Result<(), Failed> {
        match self.writer.flush() {
            Ok(()) => Ok(()),
            Err(_) => {
                self.write_faults = self.write_faults.saturating_add(1);
                Err(Failed)
            }
        }
    }
}
