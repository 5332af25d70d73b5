//! All that the program does, over a console, a clock, files, a store, a listener, a dialer and a
//! runner.
//!
//! [`run`] reads the words of the command line by `command_words` and carries them out. The words
//! `session` and `serve` are carried out over a door of their own: `session` serves one connection
//! over the console, by `swarm_http`'s `session`, and `serve` those that come at an address, by
//! `swarm_workers`' `work`; `CarriesOutWork` of `specs/ServerWork.antt` says what each does to the door and to the
//! outside. With several workers `serve` is `swarm_workers`' `serve_shared`; `RunsShared` of
//! `specs/Sharing.antt` says what comes of it, and with boards `board_workers`' `serve_with_boards`
//! (`RunsCrews` of `specs/Boarding.antt`), unless a pool is too large for them (`large_path` of
//! `specs/LargePools.antt`). Their settings are the open ones, or with
//! `--settings FILE` those of a file; `RunsFile` of `specs/SettingsFile.antt` says what a file comes
//! to. Where the settings name a folder, the door is made of the records that the store has of each
//! pool there, and the records grow with the logs; `RunsKept` of `specs/KeptRecords.antt` is that
//! contract, [`the_next_start_goes_on`] what it says of two commands in a row, and `RunsBy` of
//! `specs/Run.antt` holds them together. The word `checkpoint` makes such
//! records begin anew from the rows for which they stand; `RunsCheckpoint` of `specs/Checkpoints.antt`
//! says what comes of it, and [`all_records_begin_anew`] what status 0 tells. The word `drill` serves a
//! session that is made from a number over a link in memory; `Drills` of `specs/Drills.antt` is its
//! contract. The commands that ask a server are those of `remote_commands`. `serve` and `drill` end
//! with the summary of the pools and `checkpoint` with the front of each, which `pool_summaries` writes.
#![tactic(auto)]

mod attaching;
mod boarding;
mod checkpoint;
mod door_command;
mod drill;
mod kept_records;
mod large_pools;
mod listening;
mod printing;
mod program;
mod serving;
mod settings_file;
mod sharing;
mod telling;

pub use checkpoint::all_records_begin_anew;
pub use kept_records::the_next_start_goes_on;
pub use program::run;
