//! The value of the bot's option `--dimensions`.
//!
//! [`read_pairs`] reads a text `key=value;key=value`, in which a key may stand several times:
//! `fitting_pairs` of `specs/Pairs` says which texts fit, and what their pairs are. The server has
//! to take a bot with these pairs. The bot itself adds its name as `id`, its pool, and its caches,
//! so none of these keys may stand in the text, and there must be room for them among the 64 keys
//! of a bot.
//!
//! [`group_pairs`] gives the pairs by key, as a bot tells its dimensions: `groups_of` of
//! `specs/Groups`.
#![tactic(auto)]

mod groups;
mod pairs;

pub use groups::{group_pairs, with_bot};
pub use pairs::{PairsFault, read_pairs};
