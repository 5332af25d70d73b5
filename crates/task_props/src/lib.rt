//! What a task is: its properties, its slices, the request for it, and the rules on their fields.
//!
//! Every type here is plain data that contracts see field by field. Who keeps a request has a share
//! of it ([`SharedTask`]); contracts see the request itself.
//!
//! [`properties_value`] is the JSON object that every format of properties has (`specs/Shown.antt`).
//! [`Properties::canonical`] is the compact JSON of `specs/Canonical.antt`, and [`Properties::hash`]
//! its SHA-256 (FIPS 180-4), by which a run is known again. `is_checked` of `specs/Checked.antt` says
//! which tasks keep the rules (`FieldRules`, `ItemRules`, `Paths` and `Slices`): the texts of checked
//! properties are equal exactly where the properties are. `task_checks` reads a request by these
//! rules. The crate stands on `dimensions`.
#![tactic(auto)]

mod cache;
mod canonical;
mod digest;
mod examples;
mod file;
mod laws;
mod new_task;
mod prop_fault;
mod prop_rule;
mod properties;
mod shared_task;
mod shown;
mod slice;
mod task_field;

pub use cache::Cache;
pub use digest::{Digest, are_hex_digits, read_digest};
pub use examples::{hash_of_a_small_task, text_of_a_small_task};
pub use file::File;
pub use laws::{a_canonical_text_is_of_one_properties, checked_properties_have_one_text_each};
pub use new_task::NewTask;
pub use prop_fault::PropFault;
pub use prop_rule::PropRule;
pub use properties::Properties;
pub use shared_task::SharedTask;
pub use shown::{ListValues, properties_value};
pub use slice::Slice;
pub use task_field::{SliceField, TaskField};
