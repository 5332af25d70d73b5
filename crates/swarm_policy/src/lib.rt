//! The settings of a server.
//!
//! [`read_settings`] reads them from a TOML text (TOML 1.0): a folder `store`, which may be left
//! out, and one to four tables `[[pools]]`, each with a name, limits and grants. The settings of
//! a text, or the first rule that it breaks with its place, are `settings_of`
//! (`specs/Documents.antt`); pools, limits, grants and the fields of a table have a file each, in
//! `specs/` as in `src/`. What is read keeps its rules (`are_settings` of `swarm_model`), and no two
//! pools have one name. A [`SettingsFault`] is printed as its place and the name of its rule
//! (`specs/Faults.antt`).
//!
//! [`open_settings`] are the settings of a server that was given none: one pool, named `default`,
//! whose limits are the defaults and in which every caller may do everything. `specs/Open.antt`
//! writes them out, over the rows of the limits (`specs/Limits.antt`). `allowed` of `swarm_model` tells
//! whether a pool gives a caller a permission.
//!
//! The crate stands on `swarm_model`, `dimensions` and `toml`, and has the frame of
//! its definitions, `Gives` and `◌>>=◌`, from `json_fields`.
#![tactic(auto)]

mod documents;
mod fields;
mod grants;
mod limits;
mod open;
mod places;
mod pools;
mod settings_fault;
mod settings_rule;
mod value_fault;

pub use documents::read_settings;
pub use open::open_settings;
pub use settings_fault::SettingsFault;
pub use settings_rule::SettingsRule;
