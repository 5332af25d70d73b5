//! A list whose items stay where they lie in memory.
//!
//! Contracts see a [`PlacedList`] as the list of its items, and as how many there may be. An item
//! that comes or goes in the middle moves none of the others: a place that is given up is given to
//! an item that comes later. The numbers of the places are kept in the order of the items, in blocks
//! of 1024. So an item that comes or goes costs at most a move of 512 numbers within one block, and
//! a number for each block behind it: some 100 for 100,000 items.
//! The crate stands on std alone.
#![tactic(auto)]

mod order;
mod placed_list;

pub use placed_list::PlacedList;
