//! The requests of a bot, byte for byte.
//!
//! A request is a function of the [`Hands`] of the bot, what it works with, and of the action that
//! asks for it: [`handshake_request`], [`poll_request`], [`claim_request`], [`update_request`],
//! [`get_blob_request`] and [`put_blob_request`] write exactly the texts of `specs/Requests.antt`. So
//! a request that is sent again is the same to the byte. The JSON bodies are those of
//! `specs/Bodies.antt`, compact and with their keys in order of bytes, and the dimensions in them those
//! of `specs/Dimensions.antt`: each key once with all its values.
//!
//! The crate stands on `bot_core`, `bot_dimensions`, `named_caches`, `task_props` and `dimensions`, on
//! `client_requests`, which writes heads, and `routes`, which names the paths, on `json_values`, and
//! on `serde_json`, `base64` and `hex`.
#![tactic(auto)]

mod bodies;
mod dimension_values;
mod hands;
mod names;
mod reports;
mod requests;

pub use hands::Hands;
pub use requests::{
    claim_request, get_blob_request, handshake_request, poll_request, put_blob_request,
    update_request,
};
