//! The pools that the doors of one server share, the passes to them, and the doors.
//!
//! A [`Server`] has a turnstile for each pool, round the pool's machine and its keeper, and a door has
//! [`Passes`], one for each pool. A server is made with empty logs and its first passes
//! (`specs/Opened.antt`). Passes are split for a door more, and joined once a door is done:
//! each has then seen a beginning of the one log of its pool, and what that has of its numbers is what
//! it had seen of them (`specs/Joined.antt`). Once all passes are joined the server is closed and
//! gives its machines, whose logs are legal and have, past their openings, the entries of the joined
//! passes and no others. The length of a log is read at any moment without a turn.
//!
//! Entries of a log are copied in a turn, which adds none (`specs/Turns.antt`); so something else than
//! a door can follow the log.
//!
//! A [`SharedDoor`] is a door over a server and passes to its pools. A call waits for the turn of its
//! pool and takes one: the log that it finds is what the pass had seen, and then entries of others.
//! Each entry of the call is counted right after it is added. What a call does at its point is what it
//! does at a door that writes alone. No contract says that a turn comes.
#![tactic(auto)]

mod closing;
mod copying;
mod kept;
mod opening;
mod places;
mod server;
mod shared_desk;
mod shared_door;
mod view;

pub use kept::Kept;
pub use server::{Passes, Server};
pub use shared_door::SharedDoor;
pub use view::{Lasting, PoolView};
