ghost use Rattle.std.specs.Prelude.{◌≡◌, ◌++◌, IfOk, OnOk};
ghost use Rattle.std.specs.Fmt.{decimal};
ghost use Rattle.plex_run.specs.StatusLines.{why_word, script_line, full_line};

use crate::program::JOURNAL_LIMIT;
use itoa::Buffer;
use plex_load::scripts::Why;
use plex_load::spell::name_text;
use plex_load::types::{Name16, NoMemory};
use std::alloc::Global;

/// The word of a cause.
pub(crate) fn why_text(why: Why) -> &'static [u8]
    ensures { result.now ≡ why_word why }
{
    match why {
        Why::Late => b"LATE",
        Why::Syntax => b"SYNTAX",
        Why::Limit => b"LIMIT",
        Why::Unknown => b"UNKNOWN",
        Why::Twice => b"TWICE",
        Why::Space => b"SPACE",
    }
}

// Puts a text to a line.
fn put_text(line: &mut Vec<u8>, text: &[u8]) -> Result<(), NoMemory>
    ensures { OnOk result (line.new.items ≡ line.old.items ++ text.now) }
{
    line.extend_from_slice(text)?;
    Ok(())
}

// Puts a number to a line.
fn put_number(line: &mut Vec<u8>, number: u32) -> Result<(), NoMemory>
    ensures { OnOk result (line.new.items ≡ line.old.items ++ decimal number) }
{
    let mut buffer = Buffer::new();
    put_text(line, buffer.format(number).as_bytes())
}

/// The line of a text that isn't served, and why.
pub(crate) fn script_line(alloc: Global, number: u32, why: &[u8]) -> Result<Vec<u8>, NoMemory>
    ensures { IfOk result (λ line. line.items ≡ script_line number why.now) }
{
    let mut line = Vec::from_slice(alloc, b"SCRIPT ")?;
    put_number(&mut line, number)?;
    put_text(&mut line, b" ")?;
    put_text(&mut line, why)?;
    put_text(&mut line, b"\n")?;
    Ok(line)
}

/// What goes before a report: the line of the structure whose journal got full, or nothing.
pub(crate) fn full_line(alloc: Global, full: Option<Name16>) -> Result<Vec<u8>, NoMemory>
    ensures { IfOk result (λ line. line.items ≡ full_line full) }
{
    let Some(name) = full else {
        return Ok(Vec::new(alloc));
    };
    let mut line = Vec::from_slice(alloc, b"JOURNALFULL ")?;
    put_text(&mut line, name_text(&name))?;
    put_text(&mut line, b" ")?;
    put_number(&mut line, JOURNAL_LIMIT)?;
    put_text(&mut line, b"\n")?;
    Ok(line)
}
