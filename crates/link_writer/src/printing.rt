//! The last text that a program prints.
ghost use Rattle.link_writer.specs.Printing.{Prints};

use crate::send_flushed;
use sw_base::Link;

/// Prints a text, and answers the exit status: this one, or 4 where a write or the flush failed.
pub fn print<L: Link>(console: &mut L, text: &[u8], status: u8) -> u8
    ensures { Prints text.now status (L.state console.old) (L.state console.new) result }
{
    match send_flushed(console, text) {
        Ok(()) => status,
        Err(_) => 4,
    }
}
