//! A whole list of steps.
ghost use Rattle.std.specs.Prelude.{◌≡◌, IfOk};
ghost use Rattle.vec_world.specs.World.{world_of};
ghost use Rattle.vec_world.specs.Fresh.{EachLoadTells, HasGenuineNumbers};

use crate::{NoMemory, Step, World};
use std::alloc::Global;

/// Runs the steps in order, on `words` words and for `passes` passes, and gives the world that they
/// make.
///
/// There may be none of either. The work is linear in the words, the passes and the steps. The only
/// error is that there was no memory.
pub fn run(alloc: Global, words: u32, passes: u8, steps: &[Step]) -> Result<World, NoMemory>
    // The world is the one that the rules make of the whole list.
    ensures rules { IfOk result (λ world. world ≡ world_of words passes steps.now) }

    // Each load of the list tells what stood at a numbered point of the log.
    ensures fresh { IfOk result (λ _. EachLoadTells words passes steps.now) }

    // Nobody knows, and no word bears, a number that is neither committed nor in flight.
    ensures genuine { IfOk result HasGenuineNumbers }
{
    let mut world = World::start(alloc, words, passes)?;
    for step in steps {
        world.act(*step)?;
    }
    Ok(world)
}
