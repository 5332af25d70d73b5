//! The named caches that a bot keeps, in the order of their last use.
//!
//! A [`CacheTable`] has the name and the size of each cache, the last used first, and two limits: how
//! many caches there may be and how many bytes they may have. A bot takes a cache out for a run, gives
//! it back behind it with its size, and then trims the table, a cache at a time from the one that was
//! used the longest ago on, until both limits hold. The names of the table are the values that the bot
//! tells of its dimension `caches`.
//!
//! Contracts see the table as a list of names and sizes with the two limits (`Caches` of
//! `specs/Caches.antt`). The folders of the caches are a runner's.
#![tactic(auto)]

mod cache_table;

pub use cache_table::CacheTable;
