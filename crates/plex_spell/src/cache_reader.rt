ghost use Rattle.std.specs.Prelude.{◌≡◌, codes};
ghost use Rattle.cf_types.specs.declared.cache_commands.CacheCmd.TheVariants as cache;
ghost use Rattle.plex_spell.specs.CacheReading.{cache_at, read_places, read_of, write_places, write_of, name_places, number_places};
ghost use Rattle.plex_spell.specs.Places.{Gives, names_of};
ghost use Rattle.plex_spell.specs.Patterns.{values_at};

use crate::fields::{class, data, name, number, old, short_option, storage};
use crate::judge::Judge;
use crate::misses::Miss;
use crate::words::{Words, is};
use cf_types::CacheCmd;
use std::alloc::Global;

fn read(judge: &Judge, words: &mut Words) -> Result<CacheCmd, Miss>
    ensures { Gives result words.new (values_at judge.now.rigour
        (names_of judge.now) read_places read_of words.old) }
{
    let name = name(judge.rigour, words)?;
    let index = number(judge.rigour, words)?;
    let old = old(judge.rigour, words)?;
    let stg = storage(judge.rigour, words)?.unwrap_or(1);
    Ok(CacheCmd::Read {
        name,
        index,
        old,
        stg,
    })
}

fn write(alloc: Global, judge: &Judge, words: &mut Words) -> Result<CacheCmd, Miss>
    ensures { Gives result words.new (values_at judge.now.rigour
        (names_of judge.now) write_places write_of words.old) }
{
    let name = name(judge.rigour, words)?;
    let index = number(judge.rigour, words)?;
    let body = data(alloc, judge.rigour, words)?;
    let class = class(judge.rigour, words)?;
    let adj = short_option(judge.rigour, words, b"ADJ")?;
    let old = old(judge.rigour, words)?;
    let stg = storage(judge.rigour, words)?.unwrap_or(1);
    let when_reg = words.skip(b"WHENREG");
    Ok(CacheCmd::Write {
        name,
        index,
        body,
        class,
        adj,
        old,
        stg,
        when_reg,
    })
}

/// Takes a command of a cache structure.
pub fn cache(alloc: Global, judge: &Judge, words: &mut Words) -> Result<CacheCmd, Miss>
    ensures { Gives result words.new (cache_at judge.now.rigour (names_of judge.now) words.old) }
{
    let Some(verb) = words.next() else {
        return Err(Miss::NoForm);
    };
    if is(verb, b"READ") {
        return read(judge, words);
    }
    if is(verb, b"WRITE") {
        return write(alloc, judge, words);
    }
    if is(verb, b"CROSSINVAL") {
        let name = name(judge.rigour, words)?;
        return Ok(CacheCmd::CrossInval { name });
    }
    if is(verb, b"REGLIST") {
        return Ok(CacheCmd::RegList);
    }
    if is(verb, b"CASTOUT") {
        let name = name(judge.rigour, words)?;
        return Ok(CacheCmd::Castout { name });
    }
    if is(verb, b"UNLOCK") {
        let name = name(judge.rigour, words)?;
        return Ok(CacheCmd::Unlock { name });
    }
    if is(verb, b"COCLASS") {
        let class = number(judge.rigour, words)?;
        return Ok(CacheCmd::CoClass { class });
    }
    if is(verb, b"COSTATS") {
        return Ok(CacheCmd::CoStats);
    }
    if is(verb, b"DIRINFO") {
        let name = name(judge.rigour, words)?;
        return Ok(CacheCmd::DirInfo { name });
    }
    if is(verb, b"DELETE") {
        let name = name(judge.rigour, words)?;
        return Ok(CacheCmd::Delete { name });
    }
    if is(verb, b"STGSTATS") {
        let stg = number(judge.rigour, words)?;
        return Ok(CacheCmd::StgStats { stg });
    }
    Err(Miss::NoForm)
}
