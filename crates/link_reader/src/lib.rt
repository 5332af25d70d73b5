//! Reads requests from a link: first the bytes of a head, then those of its body.
//!
//! A reader takes bytes from a link in pieces, and a piece may hold more than was asked about. What
//! was taken and not used yet stays in a [`Pending`], which contracts see as the list of those
//! bytes. So the bytes that were pending and those taken from the link, one after the other, are
//! the input, and each contract says how that list divides: [`read_head`] says where the head at
//! its front ends, through the first CR LF CR LF, or that none ends in [`HEAD_LIMIT`] bytes;
//! [`read_body`] says that it is the head, a body of the size that is asked for, and what is
//! pending still. Where the input ends too early, or a read fails, what came until then is told,
//! and a failure is told only where the link's count of failed reads rose.
#![tactic(auto)]

mod body_buffer;
mod body_end;
mod head_end;
mod pending;

pub use body_end::{BodyEnd, read_body};
pub use head_end::{HeadEnd, read_head};
pub use pending::{HEAD_LIMIT, Pending};
