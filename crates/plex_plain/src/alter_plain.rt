//! The words of the commands of a cache structure whose capacity can be altered.

ghost use Rattle.std.specs.Prelude.{◌≡◌, ◌++◌, OnOk};
ghost use Rattle.plex_spell.specs.Words.{tail_of};
ghost use Rattle.plex_plain.specs.PlainWords.{alter_words};

use crate::cache_plain::put_cache;
use crate::line_text::{put_numbers, put_of, put_word};
use cf_types::{AlterCmd, CacheCmd, NoMemory};

/// Puts the words of a command of a cache structure whose capacity can be altered to a line, with a
/// blank before each. Where there is no memory, the line is left in the middle of them.
pub fn put_alter(line: &mut Vec<u8>, cmd: &AlterCmd<CacheCmd>) -> Result<(), NoMemory>
    ensures { OnOk result (line.new.items ≡ line.old.items ++ tail_of (alter_words cmd.now)) }
{
    match cmd {
        AlterCmd::Inner(cmd) => put_cache(line, cmd),
        AlterCmd::Start { caps } => {
            put_word(line, b"ALTER START")?;
            put_numbers(line, caps.entries, caps.elements)
        }
        AlterCmd::Step { n } => put_of(line, b"ALTER STEP", *n),
        AlterCmd::Stop => put_word(line, b"ALTER STOP"),
    }
}
