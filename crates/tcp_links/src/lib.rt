//! The system's sockets as links, with three limits of time each.
//!
//! [`TcpAll`] is a listener and a dialer over TCP. A [`TcpAcceptor`] is one worker's share of a
//! listening socket. Their links are [`DeadlineLink`]s over [`TcpLink`]s, each of which has two halves, a
//! reader and a writer, and tells what they tell. The halves of a socket are two handles of it, of which
//! `std` says nothing; the counts of faults are exact.
//!
//! [`Limits`] has the three limits. Before a request begins a read waits for `idle` at most, which is
//! shorter where one worker serves all links; no other call on a socket waits for longer than `call`;
//! and no read or write of a request begins later than `request` after its first byte. So a peer that
//! sends nothing, one that sends a byte a second and one that never reads its reply hold a worker for
//! the three together at most, and then their link has failed. One that begins with a hello of TLS
//! fails at its next read, at once.
//!
//! What fails is logged at `error`, with the system's reason: a listen, an accept, a dial, and a call on
//! a link unless a limit of time ended it, which at a server is no fault of its own. So is a reply by
//! which a server refuses, since a link that is dialed is a [`LoggedLink`]. Where they listen and how links
//! ended is logged at `info`.
//!
//! Proved is that every call meets the contracts of `sw_base`: a call fails only where the count of
//! its side rose, and then it moves nothing; what an acceptor or a link has failed at shows in the
//! count of the listener or dialer that it goes back to. A link gives the bytes that its reader gave and
//! no others, has written those that its writer took, and is at its end only where its reader is. Not
//! proved, since no contract can say it: how long a call takes, which bytes a socket moves, and that a
//! peer gets them.
#![tactic(auto)]

mod closing;
mod deadline_link;
mod has_failed;
mod limited_reads;
mod limited_stream;
mod limits;
mod link_ending;
mod logged_link;
mod tcp_acceptor;
mod tcp_all;
mod tcp_link;

pub use deadline_link::DeadlineLink;
pub use has_failed::HasFailed;
pub use limited_reads::LimitedReads;
pub use limited_stream::LimitedStream;
pub use limits::Limits;
pub use link_ending::LinkEnding;
pub use logged_link::LoggedLink;
pub use tcp_acceptor::TcpAcceptor;
pub use tcp_all::TcpAll;
pub use tcp_link::{SocketLink, TcpLink};
