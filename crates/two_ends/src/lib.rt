//! One bot and one pool, played turn by turn.
//!
//! A [`World`] has a bot, a machine of a pool, and all that lies between them: the requests that the
//! bot sent, the replies that the pool gave, and the runs that the bot was told of, with what their
//! commands wrote. [`play`] does one [`Turn`] after another: a request comes to the pool, for the first
//! time or again; the bot takes a reply or gets none, wakes, or hears of its command; another caller
//! asks the pool. Each turn changes the world exactly as `bot_worlds` defines it, and a turn that can't
//! happen changes nothing.
//!
//! Whatever the turns are: the output that the pool keeps of each run of the bot is a prefix of what
//! its command wrote, and all of it where the last report drops nothing; and a command is started at
//! most once for a claim, and only for one that the log holds.
//!
//! The crate is generic over [`Machine`](swarm_model::Machine). It stands on `bot_worlds`, which
//! defines worlds and turns, on `bot_core`, the bot, and on `swarm_history`, which settles and answers
//! at a machine.
#![tactic(auto)]

mod asking;
mod bot_end;
mod events;
mod feeding;
mod hearing;
mod playing;
mod requests;
mod runs;
mod turns;
mod world;

pub use bot_worlds::{ChildRun, ChildTurn, Got, Sent, Turn};
pub use playing::play;
pub use world::World;
