//! Published copies of a pool's rows.
//!
//! A [`RowCopy`] holds the tasks and bots of a pool, without blobs and without indexes, and follows
//! the entries of a log that it is given one after another. It stands for a [`Kept`] value
//! (`specs/Kept.antt`): the state that it began with, the rows without blobs after the entries, and
//! the entries. It absorbs them as `left_right` asks it of a value that is held twice. What a copy
//! answers is that of a machine with its rows (`reply.rt`); that these need no blobs for it is said by
//! the laws of `laws.rt`.
#![tactic(auto)]

mod kept;
mod laws;
mod reply;
mod row_copy;
mod sound_copy;

pub use kept::Kept;
pub use laws::{replies_read_rows_alone, rows_alone_are_sound};
pub use row_copy::RowCopy;
