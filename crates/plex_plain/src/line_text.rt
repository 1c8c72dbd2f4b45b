//! Words that are put to a line, one by one.

ghost use Rattle.std.specs.Prelude.{◌≡◌, ◌∷◌, ◌++◌, [], codes, OnOk};
ghost use Rattle.std.specs.Fmt.{decimal};
ghost use Rattle.plex_spell.specs.Tokens.{name_word};
ghost use Rattle.plex_spell.specs.Words.{tail_of};
ghost use Rattle.plex_plain.specs.Naming.{facility_word, record_word, resource_word, caller_name, structure_name};
ghost use Rattle.plex_plain.specs.PlainWords.{state_word, refs_word, keep_word, end_word};

use cf_types::{CfId, EntryId, Name16, NoMemory, Refs, Resource, StrForm};
use itoa::Buffer;
use plex_spell::name_text;

/// Puts a text to a line, with no blank before it.
pub fn put_text(line: &mut Vec<u8>, text: &[u8]) -> Result<(), NoMemory>
    ensures { OnOk result (line.new.items ≡ line.old.items ++ text.now) }
{
    line.extend_from_slice(text)?;
    Ok(())
}

/// Puts a number to a line, with no blank before it.
pub fn put_digits(line: &mut Vec<u8>, number: u64) -> Result<(), NoMemory>
    ensures { OnOk result (line.new.items ≡ line.old.items ++ decimal number) }
{
    let mut buffer = Buffer::new();
    put_text(line, buffer.format(number).as_bytes())
}

/// Puts a blank and a word, or words with one blank between them, to a line.
pub fn put_word(line: &mut Vec<u8>, word: &[u8]) -> Result<(), NoMemory>
    ensures { OnOk result (line.new.items ≡ line.old.items ++ tail_of (word.now ∷ [])) }
{
    line.push(b' ')?;
    line.extend_from_slice(word)?;
    Ok(())
}

/// Puts a blank and a number to a line.
pub fn put_number(line: &mut Vec<u8>, number: u64) -> Result<(), NoMemory>
    ensures { OnOk result (line.new.items ≡ line.old.items ++ tail_of (decimal number ∷ [])) }
{
    let mut buffer = Buffer::new();
    put_word(line, buffer.format(number).as_bytes())
}

/// Puts two numbers to a line, with a blank before each.
pub fn put_numbers(line: &mut Vec<u8>, first: u32, second: u32) -> Result<(), NoMemory>
    ensures { OnOk result (line.new.items ≡ line.old.items
        ++ tail_of (decimal first ∷ decimal second ∷ [])) }
{
    put_number(line, u64::from(first))?;
    put_number(line, u64::from(second))
}

/// Puts a word and a number to a line, with a blank before each.
pub fn put_of(line: &mut Vec<u8>, word: &[u8], number: u32) -> Result<(), NoMemory>
    ensures { OnOk result (line.new.items ≡ line.old.items
        ++ tail_of (word.now ∷ decimal number ∷ [])) }
{
    put_word(line, word)?;
    put_number(line, u64::from(number))
}

/// Puts a blank and a name to a line.
pub fn put_name(line: &mut Vec<u8>, name: &Name16) -> Result<(), NoMemory>
    ensures { OnOk result (line.new.items ≡ line.old.items ++ tail_of (name_word name.now ∷ [])) }
{
    put_word(line, name_text(name))
}

/// Puts a blank and a facility to a line.
pub fn put_facility(line: &mut Vec<u8>, cf: CfId) -> Result<(), NoMemory>
    ensures { OnOk result (line.new.items ≡ line.old.items ++ tail_of (facility_word cf ∷ [])) }
{
    put_word(line, b"CF")?;
    put_digits(line, u64::from(cf.0))
}

/// Puts a blank and a list record to a line.
pub fn put_record(line: &mut Vec<u8>, id: EntryId) -> Result<(), NoMemory>
    ensures { OnOk result (line.new.items ≡ line.old.items ++ tail_of (record_word id ∷ [])) }
{
    put_word(line, b"#")?;
    put_digits(line, id.0)
}

// The hash value of a resource, behind `@`.
fn put_hash(line: &mut Vec<u8>, hash: u32) -> Result<(), NoMemory>
    ensures { OnOk result (line.new.items ≡ line.old.items ++ (codes "@" ++ decimal hash)) }
{
    put_text(line, b"@")?;
    put_digits(line, u64::from(hash))
}

/// Puts a blank and a resource to a line.
pub fn put_resource(line: &mut Vec<u8>, r: Resource) -> Result<(), NoMemory>
    ensures { OnOk result (line.new.items ≡ line.old.items ++ tail_of (resource_word r ∷ [])) }
{
    put_name(line, &r.name)?;
    put_hash(line, r.hash)
}

/// Puts the name of the caller with this number to a line, with no blank before it: the operator is
/// 0, and the connectors follow from 1. A number that no connector has stands for itself.
pub fn put_caller_name(
    line: &mut Vec<u8>,
    connectors: &[Name16],
    number: usize,
) -> Result<(), NoMemory>
    ensures { OnOk result (line.new.items ≡ line.old.items
        ++ caller_name connectors.now number) }
{
    if number == 0 {
        return put_text(line, b"OP");
    }
    match connectors.get(number - 1) {
        Some(name) => put_text(line, name_text(name)),
        None => put_digits(line, number as u64),
    }
}

/// Puts a blank and the name of the caller with this number to a line.
pub fn put_caller(line: &mut Vec<u8>, connectors: &[Name16], number: usize) -> Result<(), NoMemory>
    ensures { OnOk result (line.new.items ≡ line.old.items
        ++ tail_of (caller_name connectors.now number ∷ [])) }
{
    put_word(line, b"")?;
    put_caller_name(line, connectors, number)
}

/// Puts the name of the structure with this number to a line, with no blank before it. A number
/// that no structure has stands for itself.
pub fn put_structure_name(
    line: &mut Vec<u8>,
    structures: &[StrForm],
    number: usize,
) -> Result<(), NoMemory>
    ensures { OnOk result (line.new.items ≡ line.old.items
        ++ structure_name structures.now number) }
{
    match structures.get(number) {
        Some(form) => put_text(line, name_text(&form.name)),
        None => put_digits(line, number as u64),
    }
}

/// The state of a lock.
pub fn state_text(excl: bool) -> &'static [u8]
    ensures { result.now ≡ state_word excl }
{
    if excl { b"EXCL" } else { b"SHR" }
}

/// The word for what the records of a list structure are known by.
pub fn refs_text(refs: Refs) -> &'static [u8]
    ensures { result.now ≡ refs_word refs }
{
    match refs {
        Refs::Names => b"NAMES",
        Refs::Keys => b"KEYS",
        Refs::Nothing => b"NOTHING",
    }
}

/// Whether a structure stays when nobody is connected.
pub(crate) fn keep_text(keep: bool) -> &'static [u8]
    ensures { result.now ≡ keep_word keep }
{
    if keep { b"KEEP" } else { b"DELETE" }
}

/// The first or the last of a header.
pub(crate) fn end_text(head: bool) -> &'static [u8]
    ensures { result.now ≡ end_word head }
{
    if head { b"HEAD" } else { b"TAIL" }
}
