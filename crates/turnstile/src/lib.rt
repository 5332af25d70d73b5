//! A lock round one value, at which passes take turns by ticket, and whose log's length is read
//! without a turn.
//!
//! A [`Turnstile`] is made with its value and a first [`Pass`]. Passes are split, carried into
//! threads, and joined again. [`Turnstile::enter`] waits for the turn of a pass; the [`Turn`] has the
//! value until it is left. The value has a log that only grows ([`Counted`]), and each entry bears
//! the number of the pass that made it. [`Turnstile::front`] reads the log's length at any moment.
//!
//! A pass knows a beginning of the one log. What its turns find begins with that, and is as long as
//! each front that the pass was told; the entries of its own numbers are those that it raised. Two
//! passes that are joined have seen beginnings of one log, and once all are joined the turnstile is
//! closed and gives the value back.
//!
//! No contract says that a turn ever comes. It is meant that who draws a ticket first is served
//! first, and that a waiting pass sleeps until it is served; neither is a clause.
#![tactic(auto)]

mod counted;
pub mod examples;
mod pass;
mod steps;
mod turn;
mod turnstile;
mod view;

pub use counted::Counted;
pub use pass::Pass;
pub use turn::Turn;
pub use turnstile::Turnstile;
