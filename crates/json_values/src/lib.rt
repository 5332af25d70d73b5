//! Writing JSON objects and lists (RFC 8259), a member or an item at a time.
//!
//! The functions `with_..` put one more member into those of an object; [`list_value`] is the list
//! of items that a [`ShowItem`] shows. `specs/Values.antt` has the values that they write. The crate
//! stands on `serde_json` alone.
#![tactic(auto)]

mod list;
mod members;

pub use list::{ShowItem, list_value, with_list};
pub use members::{
    with, with_flag, with_signed_or_null, with_text, with_text_or_null, with_whole,
    with_whole_or_null,
};
