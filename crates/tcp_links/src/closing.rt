use std::io::Read;
use std::net::{Shutdown, TcpStream};
use std::time::Duration;

// What is read of a stream that closes: so many pieces, of so many bytes each, in so many
// milliseconds each.
const PIECES: u32 = 10;

const PIECE: usize = 8192;

const PIECE_MILLIS: u64 = 100;

/// Closes a stream. Where bytes came on it that nobody read, the system would tell the peer that the
/// connection broke, and the peer might lose the last reply. So the stream then says first that
/// nothing more will come, and reads what the peer still sends: until it closes too, but 80 KiB and
/// one second at most.
pub fn close(mut stream: TcpStream) {
    if has_unread(&stream)
        && stream.shutdown(Shutdown::Write).is_ok()
        && stream
            .set_read_timeout(Some(Duration::from_millis(PIECE_MILLIS)))
            .is_ok()
    {
        read_rest(&mut stream);
    }
}

/// Whether bytes came that nobody read. Doesn't wait for any.
fn has_unread(stream: &TcpStream) -> bool {
    let mut first = [0u8];
    stream.set_nonblocking(true).is_ok()
        && stream.peek(&mut first).unwrap_or(0) > 0
        && stream.set_nonblocking(false).is_ok()
}

/// Reads to the end, or until a read fails.
fn read_rest<S: Read>(stream: &mut S) {
    let mut piece = [0u8; PIECE];
    for _ in 0..PIECES {
        if stream.read(&mut piece).unwrap_or(0) == 0 {
            return;
        }
    }
}
