//! One connection of the task server: the requests that come over a link are taken, answered by a
//! door, and their replies written, one after the other.
//!
//! [`session`] is the whole of it. Its contract, `IsAnswered` of `specs/Answered.antt`, is a relation
//! between what it finds and what it leaves of its link, its clock and its door (`ConnectionState`): there is
//! a list of exchanges, each a request as it stood on the link with its outcome, such that the bytes
//! taken from the link are those requests one after the other and a rest, the bytes written are
//! their replies, the moments that the clock handed in are theirs, and the logs of the pools grew
//! by what each of them did. The count of faults that the door tells rose by at least the number of
//! replies that are a keeper's fault. How the connection ended then says what the rest is. The bytes
//! of a reply are `shown` of `specs/Replies.antt`. What a request means, or the refusal that it gets
//! before any pool is asked, is `request_of` of `specs/Requests.antt`.
//!
//! [`session`] is [`converse`] over a door. [`converse`] is the same loop whatever answers: it knows
//! [`Replies`] alone, whose marker for a door stands in `src/door_session.rt`, and its contract,
//! `Converses` of `specs/Conversing.antt`, says of each request that it did what the marker says.
//! [`read_call`] reads what a request asks of a pool, of all calls or of those that boards serve.
//! A [`RequestReader`] takes the requests off the link. Whoever serves one connection after another
//! makes it once: what one connection left in it is forgotten as the next begins.
//!
//! The crate passes on the link and the clock of `sw_base` and the door of `pool_doors`, which a
//! caller of [`session`] needs.
#![tactic(auto)]

mod answer;
mod connection;
mod connection_counts;
mod door_session;
mod ended;
mod laws;
mod permitted_call;
mod permitting;
mod replies;
mod reply;
mod request;
mod request_reader;
mod send;
mod served_calls;

pub use connection::converse;
pub use connection_counts::ConnectionCounts;
pub use door_session::{counted_session, session};
pub use ended::Ended;
pub use laws::a_reply_begins_with_its_status;
pub use permitted_call::{PermittedCall, read_call};
pub use pool_doors::{Answered, CallFault, Door};
pub use replies::Replies;
pub use reply::{Refusal, ReplyBytes, whole_reply};
pub use request::{Caller, Received, RequestLine};
pub use request_reader::RequestReader;
pub use served_calls::ServedCalls;
pub use sw_base::{Clock, ConsoleLink, Failed, Link, MemoryLink, StepClock, SystemClock};
