ghost use Rattle.std.specs.Prelude.{◌≡◌};

use std::alloc::Global;
use sw_base::{Failed, Link};

// The most bytes of a reply that are kept, but for the rest of the last piece.
const MOST_KEPT: usize = 16384;

/// A link that keeps the begin of what it has read, for whoever logs it. It is taken for one that carries
/// one reply.
#[derive(Drop)]
pub struct LoggedLink<L: Link + Drop> {
    link: L,
    is_kept: bool,
    kept: Vec<u8>,
}

impl<L: Link + Drop> LoggedLink<L> {
    /// A link over another one, which keeps nothing unless it is told to.
    pub fn new(alloc: Global, link: L, is_kept: bool) -> Self
        ensures { ⟦<LoggedLink<L> as Link>⟧.state result ≡ L.state link }
    {
        LoggedLink {
            link,
            is_kept,
            kept: Vec::new(alloc),
        }
    }

    /// The status and the body of a reply that refuses: one with another status than 200.
    pub fn refusal(&self) -> Option<(&str, &str)> {
        let text = str::from_utf8(&self.kept).ok()?;
        let (head, body) = text.split_once("\r\n\r\n")?;
        let status = head.strip_prefix("HTTP/1.1 ")?.get(..3)?;
        if status == "200" {
            return None;
        }
        Some((status, body))
    }

    /// The link in it.
    pub fn into_inner(self) -> L
        ensures { L.state result ≡ ⟦<LoggedLink<L> as Link>⟧.state self }
    {
        self.link
    }
}

impl<L: Link + Drop> Link for LoggedLink<L> {
    ghost state = { λ l. L.state l.link };

    fn read(&mut self, into: &mut [u8]) -> Result<usize, Failed> {
        let n = self.link.read(into)?;
        if self.is_kept && self.kept.len() < MOST_KEPT {
            // Without memory the reply isn't shown.
            self.is_kept = self.kept.extend_from_slice(&into[..n]).is_ok();
        }
        Ok(n)
    }

    fn write(&mut self, piece: &[u8]) -> Result<usize, Failed> {
        self.link.write(piece)
    }

    fn flush(&mut self) -> Result<(), Failed> {
        self.link.flush()
    }
}
