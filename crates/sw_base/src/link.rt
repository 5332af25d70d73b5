ghost use Rattle.std.specs.Prelude.{◌<◌, length};
ghost use Rattle.sw_base.specs.Link.{LinkState, IsClean, Reads, Writes, Flushes};

use crate::Failed;

/// A two-way stream of bytes to one peer.
pub trait Link {
    ghost state: { Self → LinkState };

    /// Takes the next bytes into the front of `into`, and says how many. 0 is the end of the input.
    /// A peer may wait for what was written before it sends more, so all of that is flushed first.
    fn read(&mut self, into: &mut [u8]) -> Result<usize, Failed>
        requires room { 0 < length into.old }
        requires clean { IsClean (state self.old) }
        ensures { Reads (state self.old) (state self.new) result into.new };

    /// Writes some bytes from the front of `piece`, and says how many: 1 at least.
    fn write(&mut self, piece: &[u8]) -> Result<usize, Failed>
        requires { 0 < length piece.now }
        ensures { Writes (state self.old) (state self.new) result piece.now };

    /// Sends on what was written. A failed flush counts among the failed writes.
    fn flush(&mut self) -> Result<(), Failed>
        ensures { Flushes (state self.old) (state self.new) result };
}
