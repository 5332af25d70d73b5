//! What the lines of a pool are made of: numbers, texts, digests, lists, requests and reports as
//! JSON values, and back.
//!
//! A [`LineField`] is a type whose values stand in lines. Its laws say that what is written is read
//! as the value that it was written for, has no float, so that it has one text, and nests within the
//! levels that a reader of JSON allows. A digest is 64 hexadecimal digits in lower case. The
//! dimensions of a bot are a list of `[KEY, [VALUE, ..]]`. A request for a task has its fields by
//! their names but for its uuid, which stands beside it: null stands for none. What is missing is
//! null.
//!
//! A reader takes more spellings than one; whoever reads a line writes what was read again, and
//! compares. `specs/Parts.antt` and `specs/Tasks.antt` have the value of each type,
//! `proofs/ReadTexts.antt` why a value is read of its text. The crate stands on `swarm_model`,
//! `task_props`, `dimensions`, `json_values`, `serde_json` and `hex`.
#![tactic(auto)]

mod dims;
mod line_fault;
mod line_field;
mod lists;
mod members;
mod names;
mod parts;
mod plain_values;
mod tasks;

pub use line_fault::LineFault;
pub use line_field::{LineField, NotNull};
pub use lists::list_values;
pub use members::{name_of, read_field, value_at, value_of, with_field};
pub use tasks::{read_request, request_value, text_or_empty, uuid_of};
