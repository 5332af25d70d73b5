//! Reads one reply from a link: its head, and the body whose size the head tells.
//!
//! [`receive_reply`] is the whole of it. A reply stands at the front of some bytes where the grammar
//! of `httparse` (RFC 9112) reads a head there, of at most 16384 bytes and 64 fields, with exactly
//! one Content-Length, of 1 to 10 digits and at most 16777216, and as many bytes follow: `IsReply`
//! of `specs/Replies.antt`. As in that grammar, a line may end in a bare LF, and empty lines may
//! stand before the first. `specs/Reading.antt` says what reading does to the link, and that what it
//! answers is so of all the bytes of the link, those that it left too.
#![tactic(auto)]

mod body;
mod head;
mod received;

pub use received::{Received, receive_reply};
