//! A door over machines of its own, and over keepers of their records.
//!
//! [`PlainDoor`] has one machine and one keeper for each pool of its settings, in their order; its
//! state is that of `specs/Machines.antt`. It is made of what the keepers have, and hands machines
//! and keepers out at its end. Each entry is made ready in its machine, then its line is kept, with
//! the bytes of the blob that it places and without those of the blob that it removes, and then it is
//! added; where it cannot be kept, the machine stays as it was, and the call stops. So wherever a
//! keeper tells its records, they tell where the log begins, their lines are those of the log, and the
//! blobs of the pool have their bytes in them (`specs/Records.antt`).
//!
//! What a call does at its point stands in [`serve`], of a [`PoolCall`](pool_doors::PoolCall) over a [`Desk`]: settling,
//! answering, and keeping what is added. A door whose machines are shared with others has a desk of its own.
//!
//! The door holds the bytes of each blob of its pools: those of a request are handed on with the
//! entry that brings them, and those of the blobs that a reply names are copied before the answer's
//! entry is added.
//!
//! A door can be ended by a checkpoint instead: pool by pool the records begin anew from the rows to
//! which the log led, and have no lines (`specs/Checkpoints.antt`). The blobs stay.
//!
//! The crate is generic over [`Machine`](swarm_model::Machine) and
//! [`Keeper`](swarm_keeper::Keeper), and stands on `pool_doors`, `pool_loading`, `entry_lines` and
//! `base_lines`.
#![tactic(auto)]

mod adding;
mod checkpoint_fault;
mod checkpointing;
mod desk;
mod load_fault;
mod loading;
mod pieces;
mod plain_desk;
mod plain_door;
mod serving;
mod settling;
mod unkept;

pub use adding::add_entry;
pub use checkpoint_fault::{CheckpointFault, CheckpointWhy};
pub use desk::Desk;
pub use load_fault::LoadFault;
pub use pieces::pieces_of;
pub use plain_door::PlainDoor;
pub use serving::serve;
pub use unkept::serve_unkept;
