//! What the calls ask for.
//!
//! [`read_request`] says what a call asks for, by its route, the parts of its target and its body, or
//! the first rule that it breaks; `asked_of` of `specs/Asking.antt` is its meaning. The bodies of the
//! calls on tasks, on blobs and on output are read by `task_bodies`, those of bots and on bots by
//! `bot_bodies`; this crate puts what was read to its pool, by a name or by the place in an id
//! (`specs/Pools.antt`). After the rules of the fields comes whether the settings have the pool, and
//! then whether a cursor is one of this pool. Any answer may give way to want of memory. With the
//! request come its bytes, which are hashed here once.
//!
//! Beside those two the crate stands on `routes` for the calls, on `json_fields`, `swarm_model`,
//! `task_props` and `dimensions`, and on `serde_json` and `sha2`.
#![tactic(auto)]

mod asked;
mod asking;
mod asking_blobs;
mod parts;
mod pools;
mod request;

pub use asked::{Asked, WireFault};
pub use parts::Parts;
pub use request::read_request;
