//! The records of pools in files of SQLite: a file for each pool.
//!
//! A file `FOLDER/POOL.sqlite` has the tables `base`, `lines`, `blobs` and `meta` (`src/tables.rt`). An
//! append is one transaction: its line, the blob that it adds and the blob that it removes are
//! kept, or nothing is. So is a replacement: the lines of the base and the count are others and the
//! lines of the log are gone, or all is as it was. [`SqliteStore`] hands out a [`SqliteKeeper`] for
//! each. Neither tells what is kept, so their contracts speak of causes alone: a call that answers
//! Failed has raised a count. Within, `Records` is told over every file that tells what stands in it
//! (`PoolFile`), and says what a fault leaves (`specs/Kept.antt`). What a file of SQLite holds is shown by
//! tests alone.
//!
//! `meta` has the version, 2, and how many entries came before the base. A file of version 1 has
//! neither a base nor a count. As it is opened it gets a base without lines and the count 0, in one
//! transaction, which changes nothing else. A file with any other version, without one of the tables,
//! or with a value of another type in them can't be opened. Other tables and further rows of `meta` are
//! left alone.
//!
//! A call that fails closes the file. It is opened anew at once, else as the next call begins, else as the
//! keeper goes back to its store, and must then be what it was: locked for the keeper alone, the same file on
//! the disk, with the same count, the same number of lines and the same last one. Where it has the line of
//! the call that failed besides, that is taken out in a transaction, and what the call did to blobs is
//! undone. Where it is anything else, as with the whole base of a replacement that failed, each call fails
//! until the keeper goes back; so it does where such a base would have as many lines as the old one, no line
//! came after that, and the two can't be told apart. Where it can't be opened as the keeper goes back either, the line may stand.
//!
//! `sqlite` always writes to a log beside the file and syncs it at each commit, so no pragma is
//! set. While a keeper is out, its file is locked against all others.
//! The crate stands on `swarm_keeper`, `sw_base`, `dimensions` and `sqlite`.
#![tactic(auto)]

mod changes;
mod known;
mod opened_tables;
mod pool_file;
mod records;
mod site;
mod sql_file;
mod sqlite_keeper;
mod sqlite_store;
mod standing;
mod tables;

pub use sqlite_keeper::SqliteKeeper;
pub use sqlite_store::SqliteStore;
