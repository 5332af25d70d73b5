//! Worlds: one bot and one pool, with all that is lost, repeated and reordered between them.
//!
//! On each world the program looks at the three sentences on a bot and its pool by itself, behind each
//! expectation and at the end: the output that is kept of a run of the bot has the bytes of what its
//! command wrote there, and none where it was never started; it is all of it where the last report drops
//! nothing; and no command is started twice, nor for a claim that the log doesn't have.
//!
//! A text has one entry a line. Lines that are blank or begin with `#` are left out. The bot is `bot-1`,
//! and its pool `default`.
//!
//! | Line | Meaning |
//! |---|---|
//! | `settings KEY = N, KEY = N` | the settings of the pools of the worlds below; one has room for 64 units where there is no such line |
//! | `limits tasks N polls N steps N` | the limits of the bots below; 100, 1000 and 100000 where there is none |
//! | `request NAME TARGET BODY` | a request that others may make in the worlds below: a call, as `docs/protocol.md` has it |
//! | `world NAME at N` | begins a world: a bot that begins at the moment, and a pool without entries |
//! | `deliver PLACE at N` | the request at this place comes to the pool |
//! | `answer PLACE at N` | the bot takes the reply at this place |
//! | `lose at N`, `wake at N` | the bot gets no reply; a sleep of it is over |
//! | `child WORD at N` | the bot hears of its command: `prepared`, `started`, `output TIMES TEXT`, `quiet`, `ended CODE`, `signalled`, `uploaded`, `cleaned` or `failed` |
//! | `WHO asks NAME at N` | another caller makes the request of that name |
//! | `WHAT: TEXT` | what stands in the world then |
//! | `look` | the sentences are looked at |
//! | `steps NAME ROW; ROW`, `do NAME` | names turns and expectations, and plays those of that name |
//!
//! A place counts from 0, or as `-1`, `-2` from the last one back. In a text that a command writes `\n` is
//! the end of a line. `world_text` has what may be asked of a world, and how it is written.

mod brief_text;
mod course;
mod message_text;
mod opening;
mod player;
mod pool_text;
mod requests;
mod sentences;
mod turn_text;
mod world_text;

use crate::fault::tell_fault;
use crate::worlds::player::play_worlds;
use std::io;
use swarm_machine::Pool;

/// Plays the worlds of a text, and prints how many it has with their expectations, or tells where the
/// first one differs. It answers whether none does.
pub(crate) fn check_worlds<R: Print + Eprint + AllocGlobal>(
    rt: &R,
    file: &str,
    text: &str,
) -> io::Result<bool> {
    match play_worlds::<Pool>(rt.alloc(), text) {
        Ok(counts) => {
            let worlds = counts.worlds;
            let expectations = counts.expectations;
            println!(rt; "{file}: {worlds} worlds, {expectations} expectations")?;
            Ok(true)
        }
        Err(fault) => tell_fault(rt, file, &fault),
    }
}
