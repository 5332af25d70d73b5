//! A list in blocks, so that an item that comes or goes in the middle moves the items of one block.
//!
//! A search, an insertion and a removal go by a test of the items: contracts speak of the first item
//! that does not pass it, where those that pass it stand first. [`BlockList::reserve`] makes room for
//! an item, and is the only call that takes memory. Contracts see a [`BlockList`] as the list of its
//! items, and as how many more it takes without memory.
//!
//! The first items lie in the head block, which grows as a `Vec` does. Behind it are blocks with
//! memory for 128 items each. A full block is split in the middle, but an item that goes behind all
//! others begins a block. A removal joins two blocks side by side that have at most 64 items
//! together. What the calls mean for a list in a strict order, `proofs/Rising.antt` says. The crate
//! stands on std alone.
#![tactic(auto)]

mod block;
mod block_list;
mod blocks;
mod place;

pub use block_list::BlockList;
