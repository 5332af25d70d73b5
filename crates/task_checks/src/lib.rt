//! Checks a request for a task by the rules of its fields.
//!
//! [`check_task`] reads the fields of a request, a [`RawTask`], as the task that they mean, or tells
//! the first rule that they break with the dotted path of its field: `specs/Broken.antt` has the
//! order in which the rules are tried, `specs/Reading.antt` what unbroken fields mean. The rules of
//! single fields are those of `task_props` (`FieldRules`, `ItemRules`, `Paths` and `Slices` of its
//! `specs/`). The crate stands on `task_props` and `dimensions`.
#![tactic(auto)]

mod broken;
mod broken_items;
mod check;
mod field_rules;
mod inputs;
mod item_rule;
mod item_rules;
mod paths;
mod raw_task;
mod reading;
mod slices;

pub use broken_items::has_path;
pub use check::check_task;
pub use field_rules::{
    LARGEST_CONTENT, MOST_SLICES, broken_command, count_rule, digest_rule, expiration_rule,
    grace_rule, name_rule, priority_rule, size_rule, timeout_rule, tolerance_rule, uuid_rule,
};
pub use item_rules::{cache_name_rule, env_key_rule, env_value_rule};
pub use paths::path_rule;
pub use raw_task::{RawFile, RawProperties, RawSlice, RawTask};
pub use slices::slices_rule;
