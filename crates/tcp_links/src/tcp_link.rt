ghost use Rattle.std.specs.Prelude.{◌≡◌, ◌≤◌, ◌<◌, ◌↔◌, ◌∷◌, [], ◌||◌, if◌then◌else◌, IfOk, IsErr, IsTrue, IsFalse, length, take, None};
ghost use Rattle.std.specs.Io.KnownBytes.{ReadConsumes, WriteAppends};
ghost use Rattle.sw_base.specs.Link.{LinkState, opened};
ghost use Rattle.tcp_links.specs.Endings.{has_fault, how_ended};

use crate::{HasFailed, LimitedReads, LimitedStream, LinkEnding};
use std::io;
use std::io::{ErrorKind, Read, Write};
use std::net::TcpStream;
use std::time::Duration;
use sw_base::{Failed, Link};

// The first byte of a hello of TLS: the type of a record that is a handshake (RFC 8446, section 5.1).
const TLS_HANDSHAKE: u8 = 0x16;

/// A stream as a link: what it reads and what it writes are told by two halves, a reader and a writer.
/// It tells what they tell; `std` does not say what a flush of a writer does, so what was written counts
/// as flushed. A write of 0 bytes counts as a failed one, and a call that a signal interrupts is made
/// again. Where the first byte that comes begins a hello of TLS, each read after it fails: whoever sends
/// that awaits an answer in TLS, and would send nothing more. The error of the last call that failed is
/// kept, for whoever says why.
#[derive(Drop)]
pub struct TcpLink<R: Read + Drop, W: Write + Drop> {
    reader: R,
    writer: W,
    // Whether bytes have come, and whether they begin a hello of TLS.
    has_begun: bool,
    speaks_tls: bool,
    // Whether a read found the end of the input.
    at_end: bool,
    read_faults: u64,
    write_faults: u64,
    error: Option<io::Error>,
}

/// A socket as a link, by two handles of it. Their bytes `std` doesn't tell.
pub type SocketLink = TcpLink<TcpStream, TcpStream>;

impl TcpLink<TcpStream, TcpStream> {
    /// A link over a socket, of which it makes a second handle to write by.
    pub fn over(stream: TcpStream) -> io::Result<SocketLink>
        ensures { IfOk result (λ link. ⟦<SocketLink as Link>⟧.state link ≡ opened None None) }
    {
        let writer = stream.try_clone()?;
        Ok(TcpLink::new(stream, writer))
    }
}

impl<R: Read + Drop, W: Write + Drop> TcpLink<R, W> {
    /// A link over two halves. No call of it has failed.
    pub fn new(reader: R, writer: W) -> Self
        ensures { ⟦<TcpLink<R, W> as Link>⟧.state result ≡ opened (R.remaining reader) (W.contents writer) }
    {
        TcpLink {
            reader,
            writer,
            has_begun: false,
            speaks_tls: false,
            at_end: false,
            read_faults: 0,
            write_faults: 0,
            error: None,
        }
    }

    /// Reads once, unless the first bytes that came begin a hello of TLS.
    fn read_plain(&mut self, into: &mut [u8]) -> io::Result<usize>
        ensures bound { IfOk result (λ n. n ≤ length into.new) }
        ensures same { length into.new ≡ length into.old }
        ensures bytes { ReadConsumes (R.remaining self.old.reader) (R.remaining self.new.reader) result into.new }
        ensures seen { IsFalse self.old.has_begun → IfOk result (λ n. IsTrue self.new.speaks_tls ↔ (take 1 (take n into.new) ≡ 0x16 ∷ [])) }
        ensures plain { IsTrue self.old.speaks_tls → IsErr result × IsTrue self.new.speaks_tls }
        ensures writer { self.new.writer ≡ self.old.writer }
        ensures reads { self.new.read_faults ≡ self.old.read_faults }
        ensures writes { self.new.write_faults ≡ self.old.write_faults }
    {
        if self.speaks_tls {
            return Err(io::Error::new(ErrorKind::InvalidData, "it speaks TLS"));
        }
        let n = read_again(&mut self.reader, into)?;
        if !self.has_begun {
            self.has_begun = true;
            self.speaks_tls = is_hello(&into[..n]);
        }
        Ok(n)
    }

    /// The half that reads, where its peer may have sent more than was read and still awaits the last
    /// reply.
    pub(crate) fn into_unfinished(self) -> Option<R>
        ensures { result ≡ (if self.at_end || has_fault self.read_faults self.write_faults then None else Some self.reader) }
    {
        if self.at_end || self.has_failed() {
            return None;
        }
        Some(self.reader)
    }
}

impl<R: Read + Drop, W: Write + Drop> HasFailed for TcpLink<R, W> {
    ghost ending = { λ l. how_ended l.error l.at_end };

    fn has_failed(&self) -> bool {
        self.read_faults > 0 || self.write_faults > 0
    }

    fn ending(&self) -> LinkEnding {
        LinkEnding::of(self.error, self.at_end)
    }
}

impl<R: Read + LimitedStream + Drop, W: Write + Drop> LimitedReads for TcpLink<R, W> {
    fn limit_reads(&mut self, limit: Duration) -> bool {
        self.reader.limit_reads(limit)
    }
}

/// Reads once, and again where a signal interrupted that.
fn read_again<R: Read>(reader: &mut R, into: &mut [u8]) -> io::Result<usize>
    ensures bound { IfOk result (λ n. n ≤ length into.new) }
    ensures same { length into.new ≡ length into.old }
    ensures bytes { ReadConsumes (R.remaining reader.old) (R.remaining reader.new) result into.new }
{
    for _ in 0..u64::MAX {
        match reader.read(into) {
            Ok(n) => return Ok(n),
            Err(error) => {
                if error.kind() != ErrorKind::Interrupted {
                    return Err(error);
                }
            }
        }
    }
    Err(io::Error::from(ErrorKind::Interrupted))
}

/// Whether the first bytes of a stream begin a hello of TLS.
fn is_hello(bytes: &[u8]) -> bool
    ensures { IsTrue result ↔ (take 1 bytes.now ≡ 0x16 ∷ []) }
{
    bytes.first() == Some(&TLS_HANDSHAKE)
}

/// Writes once, and again where a signal interrupted that: 1 byte at least.
fn write_again<W: Write>(writer: &mut W, piece: &[u8]) -> io::Result<usize>
    ensures bound { IfOk result (λ n. (0 < n) × (n ≤ length piece.now)) }
    ensures bytes { WriteAppends (W.contents writer.old) (W.contents writer.new) result piece.now }
{
    for _ in 0..u64::MAX {
        match writer.write(piece) {
            Ok(n) if n > 0 => return Ok(n),
            Ok(_) => return Err(io::Error::from(ErrorKind::WriteZero)),
            Err(error) => {
                if error.kind() != ErrorKind::Interrupted {
                    return Err(error);
                }
            }
        }
    }
    Err(io::Error::from(ErrorKind::Interrupted))
}

impl<R: Read + Drop, W: Write + Drop> Link for TcpLink<R, W> {
    ghost state = { λ l. record {
      left = R.remaining l.reader;
      written = W.contents l.writer;
      flushed = W.contents l.writer;
      read_faults = l.read_faults;
      write_faults = l.write_faults;
    } };

    fn read(&mut self, into: &mut [u8]) -> Result<usize, Failed> {
        match self.read_plain(into) {
            Ok(n) => {
                self.at_end = n == 0;
                Ok(n)
            }
            Err(error) => {
                self.read_faults = self.read_faults.saturating_add(1);
                self.error = Some(error);
                Err(Failed)
            }
        }
    }

    fn write(&mut self, piece: &[u8]) -> Result<usize, Failed> {
        match write_again(&mut self.writer, piece) {
            Ok(n) => Ok(n),
            Err(error) => {
                self.write_faults = self.write_faults.saturating_add(1);
                self.error = Some(error);
                Err(Failed)
            }
        }
    }

    fn flush(&mut self) -> Result<(), Failed> {
        match self.writer.flush() {
            Ok(()) => Ok(()),
            Err(error) => {
                self.write_faults = self.write_faults.saturating_add(1);
                self.error = Some(error);
                Err(Failed)
            }
        }
    }
}
