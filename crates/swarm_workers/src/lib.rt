//! Workers that serve connections.
//!
//! [`serve_links`] serves the links that come to an acceptor, one after another, each by a session,
//! whatever that is held over ([`LinkSessions`]). A worker ([`work`]) does so by `swarm_http`'s
//! `session` over one door; `IsWorked` of `specs/Works.antt` says what it does.
//! [`run_workers`] has workers do so beside each other, each over a door, a clock and an acceptor of
//! its own. [`serve_shared`] makes them: their doors are `shared_doors`' to the pools of one server,
//! so that each pool has one log, and once all workers are done their passes are joined and the
//! machines come out. `ServesShared` of `specs/Shared.antt` says what that comes to: each pool's log
//! is a legal one, begins with all that each worker has seen, and has the entries of each worker's
//! requests once, under its number, and no others.
//!
//! Not proved is that two workers really run beside each other, nor that each gets its turn.
#![tactic(auto)]

mod crew;
mod ending;
mod links;
mod making;
mod shared;
mod worked;
mod worker;

pub use crew::{Worker, run_workers};
pub use ending::{end_workers, graver};
pub use links::{LinkSessions, serve_links};
pub use making::{make_workers, split_all};
pub use shared::serve_shared;
pub use worked::{WorkStop, Worked};
pub use worker::work;
