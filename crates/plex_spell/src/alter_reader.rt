ghost use Rattle.std.specs.Prelude.{◌≡◌};
ghost use Rattle.plex_spell.specs.AlterReading.{alter_at, alteration_at, inner_forms};
ghost use Rattle.plex_spell.specs.Forms.{command_at};
ghost use Rattle.plex_spell.specs.Places.{Gives, names_of};

use crate::cache_reader::cache;
use crate::fields::bounded;
use crate::judge::Judge;
use crate::misses::Miss;
use crate::words::Words;
use cf_types::limits::{ALTER_STEP, CAPACITY};
use cf_types::{AlterCmd, CacheCmd, Caps};
use std::alloc::Global;

// What stands behind ALTER.
fn alteration(judge: &Judge, words: &mut Words) -> Result<AlterCmd<CacheCmd>, Miss>
    ensures { Gives result words.new (alteration_at judge.now.rigour
        (names_of judge.now) words.old) }
{
    if words.skip(b"START") {
        let entries = bounded(judge.rigour, words, 1, CAPACITY)?;
        let elements = bounded(judge.rigour, words, 1, CAPACITY)?;
        return Ok(AlterCmd::Start {
            caps: Caps { entries, elements },
        });
    }
    if words.skip(b"STEP") {
        let n = bounded(judge.rigour, words, 1, ALTER_STEP)?;
        return Ok(AlterCmd::Step { n });
    }
    if words.skip(b"STOP") {
        return Ok(AlterCmd::Stop);
    }
    Err(Miss::NoForm)
}

// A command of the cache itself.
#[tactic(auto, using(crate::proofs::FormLaws::command_made))]
fn inner(alloc: Global, judge: &Judge, words: &mut Words) -> Result<AlterCmd<CacheCmd>, Miss>
    ensures { Gives result words.new (command_at judge.now.rigour
        (names_of judge.now) inner_forms words.old) }
{
    let cmd = cache(alloc, judge, words)?;
    Ok(AlterCmd::Inner(cmd))
}

/// Takes a command of a cache structure whose capacity can be altered.
pub fn alter(alloc: Global, judge: &Judge, words: &mut Words) -> Result<AlterCmd<CacheCmd>, Miss>
    ensures { Gives result words.new (alter_at judge.now.rigour (names_of judge.now) words.old) }
{
    if words.skip(b"ALTER") {
        return alteration(judge, words);
    }
    inner(alloc, judge, words)
}
