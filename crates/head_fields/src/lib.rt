//! The fields of a head, by their names.
//!
//! A head, of a request or of a reply, is read by `httparse` into spans of its text. Of the fields
//! at such spans [`is_named`] compares one name, [`only`] finds the value of the one field of a
//! name, [`lacks`] says that there is none, and [`only_number`] reads the digits of a field that
//! may stand there once. `specs/Fields` and `specs/Numbers` have each answer as a function of the
//! names and values alone. Names of fields are the same in any case of letters (RFC 9110,
//! section 5.1).
#![tactic(auto)]

mod fields;
mod found;
mod number;

pub use fields::{is_named, lacks, only, only_number};
pub use number::Number;
