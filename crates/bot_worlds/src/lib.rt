//! One bot and one pool, with all that lies between them, as definitions and laws.
//!
//! A world (`WorldState` of `specs/World.antt`) has the bot, the log of the pool, the requests that
//! the bot sent, the replies that the pool gave, and the runs that the bot was told of, with what their
//! commands wrote. A [`Turn`] changes it: a request of the bot comes to the pool, again and in any
//! order; the bot takes a reply or gets none, wakes, or hears of its command; another caller asks the
//! pool. `specs/Turns.antt` has the exact change of each. By [`two_ends_agree`], whatever is lost,
//! repeated or reordered: the output that the pool shows of each run of the bot is a prefix of what its
//! command wrote, and all of it where the last report drops nothing; and a command is started at most
//! once for a claim, and only for a claim that the log holds (`specs/TwoEnds.antt`).
//!
//! The crate has no code that runs. It stands on `bot_core`, `swarm_model`, `refusal_codes`,
//! `bot_requests` and `reply_bodies` for their definitions, and on `log_laws` and `pool_laws` for what
//! a log tells of a bot.
#![tactic(auto)]

mod child_run;
mod laws;
mod sent;
mod turn;

pub use child_run::ChildRun;
pub use laws::two_ends_agree;
pub use sent::{Got, Sent};
pub use turn::{ChildTurn, Turn};
