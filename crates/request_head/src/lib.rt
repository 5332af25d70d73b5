//! What the head of a request says.
//!
//! [`check_head`] takes the bytes through the first CR LF CR LF and gives one of three answers, each
//! exactly where it is due: `NoHead`, `Refused` with the method and the cause, or `Good` with all that a
//! served request's head may say. A head is what `httparse` reads by the grammar of RFC 9112, with at most
//! 64 fields; it also takes a bare LF as the end of a line, and empty lines before the first.
//! `specs/HeadFields` has each part of an answer as a function of that head: its refusal, method, body's
//! size, caller and the others. The fields are found by their names with `head_fields`; `Expect` and
//! fields of other names are ignored.
#![tactic(auto)]

mod after;
mod caller;
mod connection;
mod head;
mod head_check;
mod head_refusal;
mod method;

pub use after::After;
pub use caller::is_caller;
pub use head::Head;
pub use head_check::{HeadCheck, check_head};
pub use head_refusal::HeadRefusal;
pub use method::Method;
