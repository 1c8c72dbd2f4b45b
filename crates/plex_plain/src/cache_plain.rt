//! The words of the commands of a cache structure.

ghost use Rattle.std.specs.Prelude.{◌≡◌, ◌∷◌, ◌++◌, [], codes, if◌then◌else◌, OnOk};
ghost use Rattle.std.specs.Fmt.{decimal};
ghost use Rattle.plex_spell.specs.Tokens.{name_word};
ghost use Rattle.plex_spell.specs.Words.{tail_of};
ghost use Rattle.cf_types.specs.declared.cache_commands.CacheCmd.TheVariants as cmd;
ghost use Rattle.plex_plain.specs.PlainWords.{class_told, castout_words, cache_words, told_words, name_words, number_words, text_words};

use crate::line_text::{put_name, put_number, put_of, put_word};
use crate::values::{put_flag, put_option};
use cf_types::{Adjunct, Body, CacheCmd, Name16, NoMemory};

// The storage class that is written out, if one is.
fn class_told(stg: u32) -> Option<u32>
    ensures { result ≡ class_told stg }
{
    if stg == 1 { None } else { Some(stg) }
}

// A word, a name, and the index that it is registered for.
fn put_use(line: &mut Vec<u8>, word: &[u8], name: &Name16, index: u32) -> Result<(), NoMemory>
    ensures { OnOk result (line.new.items ≡ line.old.items
        ++ tail_of (word.now ∷ name_word name.now ∷ decimal index ∷ [])) }
{
    put_word(line, word)?;
    put_name(line, name)?;
    put_number(line, u64::from(index))
}

// The name that is given up, and the storage class.
fn put_old(line: &mut Vec<u8>, old: &Option<Name16>, stg: u32) -> Result<(), NoMemory>
    ensures { OnOk result (line.new.items ≡ line.old.items
        ++ tail_of (told_words (codes "OLD") name_words old.now
        ++ (told_words (codes "STG") number_words (class_told stg) ++ []))) }
{
    put_option(line, b"OLD", old)?;
    put_option(line, b"STG", &class_told(stg))
}

#[tactic(auto, using(crate::proofs::CommandLaws::words_read))]
fn put_read(
    line: &mut Vec<u8>,
    name: &Name16,
    index: u32,
    old: &Option<Name16>,
    stg: u32,
) -> Result<(), NoMemory>
    ensures { OnOk result (line.new.items ≡ line.old.items
        ++ tail_of (cache_words (cmd.Read name.now index old.now stg))) }
{
    put_use(line, b"READ", name, index)?;
    put_old(line, old, stg)
}

// Whether an entry is written as changed, and in which castout class.
fn put_class(line: &mut Vec<u8>, class: Option<u32>) -> Result<(), NoMemory>
    ensures { OnOk result (line.new.items ≡ line.old.items ++ tail_of (castout_words class)) }
{
    match class {
        None => put_word(line, b"UNCHANGED"),
        Some(class) => {
            put_word(line, b"CHANGED")?;
            put_number(line, u64::from(class))
        }
    }
}

// What is written: the data, the castout class and the adjunct.
fn put_data(
    line: &mut Vec<u8>,
    body: &Body,
    class: Option<u32>,
    adj: &Option<Adjunct>,
) -> Result<(), NoMemory>
    ensures { OnOk result (line.new.items ≡ line.old.items
        ++ tail_of (body.now ∷ (castout_words class
        ++ told_words (codes "ADJ") text_words adj.now))) }
{
    put_word(line, body.bytes())?;
    put_class(line, class)?;
    put_option(line, b"ADJ", adj)
}

// The options behind the adjunct.
fn put_options(
    line: &mut Vec<u8>,
    old: &Option<Name16>,
    stg: u32,
    when_reg: bool,
) -> Result<(), NoMemory>
    ensures { OnOk result (line.new.items ≡ line.old.items
        ++ tail_of (told_words (codes "OLD") name_words old.now
        ++ (told_words (codes "STG") number_words (class_told stg)
        ++ ((if when_reg then codes "WHENREG" ∷ [] else []) ++ [])))) }
{
    put_option(line, b"OLD", old)?;
    put_option(line, b"STG", &class_told(stg))?;
    put_flag(line, b"WHENREG", when_reg)
}

// A word and a name.
fn put_one(line: &mut Vec<u8>, word: &[u8], name: &Name16) -> Result<(), NoMemory>
    ensures { OnOk result (line.new.items ≡ line.old.items
        ++ tail_of (word.now ∷ name_word name.now ∷ [])) }
{
    put_word(line, word)?;
    put_name(line, name)
}

/// Puts the words of a command of a cache structure to a line, with a blank before each. Where
/// there is no memory, the line is left in the middle of them.
#[tactic(auto, using(crate::proofs::CommandLaws::words_write))]
pub fn put_cache(line: &mut Vec<u8>, cmd: &CacheCmd) -> Result<(), NoMemory>
    ensures { OnOk result (line.new.items ≡ line.old.items ++ tail_of (cache_words cmd.now)) }
{
    match cmd {
        CacheCmd::Read {
            name,
            index,
            old,
            stg,
        } => put_read(line, name, *index, old, *stg),
        CacheCmd::Write {
            name,
            index,
            body,
            class,
            adj,
            old,
            stg,
            when_reg,
        } => {
            put_use(line, b"WRITE", name, *index)?;
            put_data(line, body, *class, adj)?;
            put_options(line, old, *stg, *when_reg)
        }
        CacheCmd::CrossInval { name } => put_one(line, b"CROSSINVAL", name),
        CacheCmd::RegList => put_word(line, b"REGLIST"),
        CacheCmd::Castout { name } => put_one(line, b"CASTOUT", name),
        CacheCmd::Unlock { name } => put_one(line, b"UNLOCK", name),
        CacheCmd::CoClass { class } => put_of(line, b"COCLASS", *class),
        CacheCmd::CoStats => put_word(line, b"COSTATS"),
        CacheCmd::DirInfo { name } => put_one(line, b"DIRINFO", name),
        CacheCmd::Delete { name } => put_one(line, b"DELETE", name),
        CacheCmd::StgStats { stg } => put_of(line, b"STGSTATS", *stg),
    }
}
