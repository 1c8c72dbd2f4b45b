ghost use Rattle.std.specs.Prelude.{◌≡◌, ◌≤◌, length, IfOk};
ghost use Rattle.cf_types.specs.declared.limits.TheConstants.{CONNECTORS};
ghost use Rattle.cf_types.specs.declared.alter_commands.AlterReply.TheVariants as alter;
ghost use Rattle.line_rows.specs.Rows.{form, first_of};
ghost use Rattle.reply_rows.specs.Contents.{cache_row, altered_row, altered, alter_forms};

use crate::cache_reader::cache_reply;
use crate::one_word::{OneWord, progress};
use crate::rows::{one, plain};
use cf_types::{AlterReply, CacheReply, Caps, Name16, NoMemory};
use plex_spell::Words;
use std::alloc::Global;

/// Reads a reply of a cache structure on its content.
pub fn inner_cache_reply(
    alloc: Global,
    connectors: &[Name16],
    words: &Words,
) -> Result<Option<AlterReply<CacheReply>>, NoMemory>
    requires { length connectors.now ≤ CONNECTORS }
    ensures { IfOk result (λ r. r
        ≡ form (cache_row connectors.now) (λ v. alter.Inner v) words.now) }
{
    match cache_reply(alloc, connectors, words)? {
        Some(answer) => Ok(Some(AlterReply::Inner(answer))),
        None => Ok(None),
    }
}

// The capacity to which a step went.
fn altered(connectors: &[Name16], line: &Words) -> Option<AlterReply<CacheReply>>
    requires { length connectors.now ≤ CONNECTORS }
    ensures { result ≡ form altered_row altered line.now }
{
    let mut words = line.again();
    if !words.skip(b"ALTERED") {
        return None;
    }
    let entries: u32 = one(connectors, &mut words)?;
    let elements: u32 = one(connectors, &mut words)?;
    let done = progress(words.next()?)?;
    if words.is_done() {
        let caps = Caps { entries, elements };
        Some(AlterReply::Altered { caps, done })
    } else {
        None
    }
}

/// Reads a reply of a cache structure on its capacity.
pub fn alter_reply(connectors: &[Name16], words: &Words) -> Option<AlterReply<CacheReply>>
    requires { length connectors.now ≤ CONNECTORS }
    ensures { result ≡ first_of alter_forms words.now }
{
    if plain(words, b"OK").is_some() {
        return Some(AlterReply::Ok);
    }
    altered(connectors, words)
}
