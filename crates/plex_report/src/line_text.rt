//! Words of a line that name callers and structures of a script. Where there is no memory for a
//! word, the line is left in the middle of it.

ghost use Rattle.std.specs.Prelude.{◌≡◌, ◌∷◌, ◌++◌, [], OnOk, IfOk};
ghost use Rattle.std.specs.Fmt.{decimal};
ghost use Rattle.plex_script.specs.PlexSpell.Words.{tail_of};
ghost use Rattle.plex_report.specs.Naming.{caller_word, caller_name, structure_name, structure_word};
ghost use Rattle.plex_report.specs.RefusalWords.{holder_word};

use plex_script::Script;
use plex_script::plain::{put_digits, put_word};
use plex_script::types::{ConnId, NoMemory, StrNo};
use std::alloc::Global;

/// Puts a blank and the name of the caller with this number to a line.
pub(crate) fn put_caller_name(
    line: &mut Vec<u8>,
    script: &Script,
    number: usize,
) -> Result<(), NoMemory>
    ensures { OnOk result (line.new.items ≡ line.old.items
        ++ tail_of (caller_name script.now number ∷ [])) }
{
    plex_script::plain::put_caller(line, script.connectors.items(), number)
}

/// Puts a blank and a caller to a line.
pub(crate) fn put_caller(line: &mut Vec<u8>, script: &Script, by: ConnId) -> Result<(), NoMemory>
    ensures { OnOk result (line.new.items ≡ line.old.items
        ++ tail_of (caller_word script.now by ∷ [])) }
{
    put_caller_name(line, script, by.0 as usize)
}

/// Puts a blank and who holds something to a line.
pub(crate) fn put_holder(
    line: &mut Vec<u8>,
    script: &Script,
    holder: Option<ConnId>,
) -> Result<(), NoMemory>
    ensures { OnOk result (line.new.items ≡ line.old.items
        ++ tail_of (holder_word script.now holder ∷ [])) }
{
    match holder {
        None => put_word(line, b"NONE"),
        Some(conn) => put_caller(line, script, conn),
    }
}

/// Puts the name of the structure with this number to a line, with no blank before it.
pub(crate) fn put_structure_name(
    line: &mut Vec<u8>,
    script: &Script,
    number: usize,
) -> Result<(), NoMemory>
    ensures { OnOk result (line.new.items ≡ line.old.items ++ structure_name script.now number) }
{
    plex_script::plain::put_structure_name(line, script.structures.items(), number)
}

/// A line that begins with a structure.
pub(crate) fn structure_begun(
    alloc: Global,
    script: &Script,
    on: StrNo,
) -> Result<Vec<u8>, NoMemory>
    ensures { IfOk result (λ line. line.items ≡ structure_word script.now on) }
{
    let mut line = Vec::new(alloc);
    put_structure_name(&mut line, script, on.0 as usize)?;
    Ok(line)
}

/// A line that begins with a number.
pub(crate) fn numbered(alloc: Global, number: u64) -> Result<Vec<u8>, NoMemory>
    ensures { IfOk result (λ line. line.items ≡ decimal number) }
{
    let mut line = Vec::new(alloc);
    put_digits(&mut line, number)?;
    Ok(line)
}
