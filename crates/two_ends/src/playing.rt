ghost use Rattle.std.specs.Prelude.{IfOk, IfErr};
ghost use Rattle.bot_worlds.specs.Turns.{Played, PlayedPart};
ghost use Rattle.bot_worlds.specs.TwoEnds.{OutputIsPrefix, StartsOnce};

use crate::world::World;
use bot_worlds::Turn;
use std::alloc::AllocError;
use swarm_model::Machine;

/// Plays turns, one after another.
///
/// In each world that comes of it: the output that the pool keeps of each run of the bot is a prefix of
/// what the run's command wrote, and all of it where the last report drops nothing; and each command is
/// started at most once for a claim, and only for one that the log holds.
///
/// # Errors
///
/// Only want of memory. The world comes back as the first of the turns left it, and then at most
/// deadlines that had come were settled.
pub fn play<M: Machine + Drop>(
    world: World<M>,
    turns: &[Turn],
) -> Result<World<M>, (AllocError, World<M>)>
    ensures played { IfOk result (λ w. Played world turns.now w) }
    ensures part { IfErr result (λ back. PlayedPart world turns.now back.1) }

    ensures output { IfOk result OutputIsPrefix }
    ensures starts { IfOk result StartsOnce }
    ensures part_output { IfErr result (λ back. OutputIsPrefix back.1) }
    ensures part_starts { IfErr result (λ back. StartsOnce back.1) }
{
    let mut world = world;
    for turn in turns {
        if let Err(error) = world.turn(turn) {
            world.agree();
            return Err((error, world));
        }
    }
    world.agree();
    Ok(world)
}
