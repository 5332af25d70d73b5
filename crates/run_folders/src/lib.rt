//! The folders of a runner: the work folder of a run, the kept caches, and the programs of the system by
//! which both are held in order.
//!
//! Nothing that a task names, be it an input, an output or a cache, leads out of the work folder, and no
//! symbolic link is followed on the way. The work folder and that of the kept caches are held open
//! ([`HeldFolder`]), so a link or a folder that was put in the place of one is known. Proved is which names
//! and paths are taken, by the rule on the paths of a task, and that each call is safe and ends; the rest no
//! clause says. Each program of the system is given 300 seconds.
//!
//! The crate stands below `shell_runner`, which starts the children.
#![tactic(auto)]

mod found;
mod held_folder;
mod kept_caches;
mod paths;
mod places;
mod tools;

pub use held_folder::HeldFolder;
pub use kept_caches::KeptCaches;
pub use paths::{is_env_key, is_name, path_below, path_of_name};
pub use places::{read_file, remove_folder};
pub use tools::{await_group, signal_group};
