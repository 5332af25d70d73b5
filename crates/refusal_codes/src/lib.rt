//! The codes of the refusals, by docs/protocol.md: their names, their numbers and their statuses.
//!
//! The server writes the name of a [`RefusalCode`] and its status, a client reads the name, and the
//! bot's events carry the number. `code_row` of `specs/Codes.antt` has one row for each; what reads
//! a name or a number looks for it in these rows, so no code can be written that is not read.
#![tactic(auto)]

mod laws;
mod refusal_code;

pub use laws::{
    each_name_is_read, each_number_is_read, one_code_has_a_name, one_code_has_a_number,
};
pub use refusal_code::RefusalCode;
