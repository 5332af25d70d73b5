ghost use Rattle.std.specs.Prelude.{◌≡◌, ◌++◌, OnOk};
ghost use Rattle.sw_base.specs.Link.{IsClean};
ghost use Rattle.link_writer.specs.Sends.{Sends};

use sw_base::{Failed, Link};

// The most bytes of a body that is copied behind its head, so that both go out in one write.
const JOINED_LIMIT: usize = 65536;

/// Writes a text whole. It doesn't flush.
///
/// # Errors
///
/// A write failed. No call follows it.
pub fn send_whole<L: Link>(link: &mut L, text: &[u8]) -> Result<(), Failed>
    ensures { Sends (L.state link.old) (L.state link.new) text.now result }
{
    let mut rest = text;
    'writes: while !rest.is_empty() {
        match link.write(rest) {
            Ok(n) => {
                let (_, after) = rest.split_at(n);
                rest = after;
            }
            Err(failed) => return Err(failed),
        }
    }
    Ok(())
}

/// Writes a text whole and flushes it.
///
/// # Errors
///
/// A write or the flush failed. No call follows it.
pub fn send_flushed<L: Link>(link: &mut L, text: &[u8]) -> Result<(), Failed>
    ensures flushed { OnOk result (IsClean (L.state link.new)) }
    ensures sends { Sends (L.state link.old) (L.state link.new) text.now result }
{
    match send_whole(link, text) {
        Ok(()) => link.flush(),
        Err(failed) => Err(failed),
    }
}

/// Writes a text and one behind it, each from where it lies, and flushes them.
fn send_apart<L: Link>(link: &mut L, head: &[u8], body: &[u8]) -> Result<(), Failed>
    ensures flushed { OnOk result (IsClean (L.state link.new)) }
    ensures sends { Sends (L.state link.old) (L.state link.new) (head.now ++ body.now) result }
{
    match send_whole(link, head) {
        Ok(()) => send_flushed(link, body),
        Err(failed) => Err(failed),
    }
}

/// Writes a head and its body whole and flushes them. A body of at most 65536 bytes is put behind
/// its head first, since over a socket two small writes cost a packet more, and may wait for each
/// other; a longer one is written from where it lies, and so is one that finds no memory.
///
/// # Errors
///
/// A write or the flush failed. No call follows it.
pub fn send_both<L: Link>(link: &mut L, mut head: Vec<u8>, body: &[u8]) -> Result<(), Failed>
    ensures flushed { OnOk result (IsClean (L.state link.new)) }
    ensures sends { Sends (L.state link.old) (L.state link.new) (head.items ++ body.now) result }
{
    if body.len() <= JOINED_LIMIT && head.extend_from_slice(body).is_ok() {
        send_flushed(link, &head)
    } else {
        send_apart(link, &head, body)
    }
}
