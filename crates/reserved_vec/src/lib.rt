//! A list that takes an item without memory where a buffer was made ready for it.
//!
//! Contracts see a [`ReservedVec`] as the list of its items. Whether the next item needs a larger
//! buffer follows from the length alone, and [`ReservedVec::make_room`] makes that buffer ready in
//! a [`SpareBuffer`].
//! The crate stands on std alone.
#![tactic(auto)]

mod reserved_vec;

pub use reserved_vec::{ReservedVec, SpareBuffer};
