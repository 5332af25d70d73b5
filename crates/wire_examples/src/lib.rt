//! The definitions of settings, of kept lines and of what is sent and shown at work.
//!
//! Each example is a function without a body, whose clauses the check computes: what a definition
//! says of one small case, taken from a standard or a document. A public function that answers by
//! the definition has no body that answers otherwise there. No crate of the program stands on this
//! one.
#![tactic(auto)]

pub mod asking_examples;
pub mod base_line_examples;
pub mod blob_body_examples;
pub mod bot_body_examples;
pub mod bot_request_examples;
pub mod client_examples;
pub mod line_examples;
pub mod reply_examples;
pub mod settings_examples;
pub mod task_body_examples;
