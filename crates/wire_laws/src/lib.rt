//! What holds of both ends of the wire.
//!
//! The server writes replies by one table (`reply_bodies`) and a client or a bot reads them by
//! another (`server_calls`); a bot writes requests by one (`bot_requests`) and the server reads them
//! by another (`swarm_wire`, over `task_bodies` and `bot_bodies`). Each law says that the two belong
//! together, and is the contract of an empty function. [`replies_are_told`]: of each reply that fits
//! its place (`specs/Fitting.antt`), what is read of the shown bytes is that reply
//! (`specs/Told.antt`). [`requests_for_work_are_meant`], [`reports_are_meant`],
//! [`blob_requests_are_meant`] and [`targets_are_found`]: what the server reads in a bot's request is
//! what the bot meant (`specs/Meant.antt`). [`ranges_lie_within`]: the numbers that a bot sends are
//! among those that the server reads. [`sound_properties_are_checked`]: the properties of a pool's tasks fit
//! a reply, as far as their rules go. The requests of a client are read as they are meant by
//! the contracts of `client_commands`. How the server reads the heads of requests, no law says.
//!
//! A JSON value is read of its text where `IsReadable` holds of it (`proofs/Readable.antt`); the other
//! files of `proofs/` go by replies and requests. The crate has no code that runs.
#![tactic(auto)]

mod laws;

pub use laws::{
    blob_requests_are_meant, ranges_lie_within, replies_are_told, reports_are_meant,
    requests_for_work_are_meant, small_properties_fit, sound_properties_are_checked,
    targets_are_found,
};
