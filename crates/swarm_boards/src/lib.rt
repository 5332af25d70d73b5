//! Boards: published copies of a pool's rows, which are read without waiting.
//!
//! A [`Poster`] follows the log of a pool from a base. It takes in entries one by one and publishes
//! them together; it keeps two copies of the rows of tasks and bots. A [`View`] reads the copy that is
//! shown, while the poster changes the other. What a view shows is the reply of a machine after some
//! list of published entries, which begins with all that the view has seen and with each list that it
//! was told (`IsAsked` of `pool_views`), so it never goes back. [`BoardViews`] has a view of each pool
//! for the session of a board.
//!
//! The copies stand in `left_right`, under a rule (`specs/Published.antt`): the copy that is shown
//! follows a legal log of the base, and that log begins with each list that a view has seen or was
//! told. Only the poster waits, for readers that still read the copy that is to change.
#![tactic(auto)]

mod board_views;
mod poster;
mod rule;
mod view;
mod writer;

pub use board_views::BoardViews;
pub use poster::Poster;
pub use view::View;
