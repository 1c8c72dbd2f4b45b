//! The words of the commands of a list structure.

ghost use Rattle.std.specs.Prelude.{◌≡◌, ◌∷◌, ◌++◌, [], codes, OnOk};
ghost use Rattle.std.specs.Fmt.{decimal};
ghost use Rattle.plex_spell.specs.Words.{tail_of};
ghost use Rattle.plex_spell.specs.Tokens.Token.{Literal};
ghost use Rattle.plex_spell.specs.Fields.{all_tokens};
ghost use Rattle.plex_spell.specs.ListWords.{at_tokens, cond_tokens};
ghost use Rattle.plex_plain.specs.PlainWords.{plain_words, end_word, list_words, told_words, number_words, name_words, key_words, text_words};

use crate::line_text::{end_text, put_number, put_numbers, put_of, put_record, put_word};
use crate::values::{Worded, put_option};
use cf_types::{Adjunct, At, Body, Cond, Key16, ListCmd, Name16, NoMemory};

// Which record is meant.
fn put_reference(line: &mut Vec<u8>, at: &At) -> Result<(), NoMemory>
    ensures { OnOk result (line.new.items ≡ line.old.items
        ++ tail_of (plain_words [] [] (at_tokens at.now))) }
{
    match at {
        At::Id(id) => put_record(line, *id),
        At::Name(name) => {
            put_word(line, b"NAME")?;
            name.put(line)
        }
        At::Head(header) => put_of(line, b"HEAD", *header),
        At::Tail(header) => put_of(line, b"TAIL", *header),
        At::Key(header, key) => {
            put_of(line, b"KEY", *header)?;
            key.put(line)
        }
    }
}

// The condition on a list lock, where there is one.
fn put_cond(line: &mut Vec<u8>, cond: &Option<Cond>) -> Result<(), NoMemory>
    ensures { OnOk result (line.new.items ≡ line.old.items
        ++ tail_of (plain_words [] [] (cond_tokens cond.now))) }
{
    match cond {
        None => Ok(()),
        Some(Cond::NotHeld(lock)) => put_of(line, b"NOTHELD", *lock),
        Some(Cond::HeldBy(lock)) => put_of(line, b"HELDBY", *lock),
    }
}

/// Puts data and adjunct to a line, where they are given.
pub fn put_content(
    line: &mut Vec<u8>,
    body: &Option<Body>,
    adj: &Option<Adjunct>,
) -> Result<(), NoMemory>
    ensures { OnOk result (line.new.items ≡ line.old.items
        ++ tail_of (told_words (codes "DATA") text_words body.now
        ++ told_words (codes "ADJ") text_words adj.now)) }
{
    put_option(line, b"DATA", body)?;
    put_option(line, b"ADJ", adj)
}

/// Puts name and key to a line, where they are given.
pub fn put_label(
    line: &mut Vec<u8>,
    name: &Option<Name16>,
    key: &Option<Key16>,
) -> Result<(), NoMemory>
    ensures { OnOk result (line.new.items ≡ line.old.items
        ++ tail_of (told_words (codes "NAME") name_words name.now
        ++ told_words (codes "KEY") key_words key.now)) }
{
    put_option(line, b"NAME", name)?;
    put_option(line, b"KEY", key)
}

// A header, and which end of it.
fn put_place(line: &mut Vec<u8>, header: u32, head: bool) -> Result<(), NoMemory>
    ensures { OnOk result (line.new.items ≡ line.old.items
        ++ tail_of (decimal header ∷ end_word head ∷ [])) }
{
    put_number(line, u64::from(header))?;
    put_word(line, end_text(head))
}

// The version that a record must have, where one is given, and the condition on a list lock.
fn put_guards(
    line: &mut Vec<u8>,
    version: &Option<u32>,
    cond: &Option<Cond>,
) -> Result<(), NoMemory>
    ensures { OnOk result (line.new.items ≡ line.old.items
        ++ tail_of (told_words (codes "VERSION") number_words version.now
        ++ plain_words [] [] (cond_tokens cond.now))) }
{
    put_option(line, b"VERSION", version)?;
    put_cond(line, cond)
}

// A command on one record, under a condition.
#[tactic(auto, using(crate::proofs::CommandLaws::words_at))]
fn put_on(line: &mut Vec<u8>, verb: &[u8], at: &At, cond: &Option<Cond>) -> Result<(), NoMemory>
    ensures { OnOk result (line.new.items ≡ line.old.items
        ++ tail_of (plain_words [] [] (Literal verb.now
        ∷ all_tokens (at_tokens at.now ∷ cond_tokens cond.now ∷ [])))) }
{
    put_word(line, verb)?;
    put_reference(line, at)?;
    put_cond(line, cond)
}

// A list lock, and what is done with it.
fn put_use(line: &mut Vec<u8>, lock: u32, deed: &[u8]) -> Result<(), NoMemory>
    ensures { OnOk result (line.new.items ≡ line.old.items
        ++ tail_of (codes "LOCK" ∷ decimal lock ∷ deed.now ∷ [])) }
{
    put_of(line, b"LOCK", lock)?;
    put_word(line, deed)
}

// A word, a header and a number.
fn put_header(line: &mut Vec<u8>, word: &[u8], header: u32, n: u32) -> Result<(), NoMemory>
    ensures { OnOk result (line.new.items ≡ line.old.items
        ++ tail_of (word.now ∷ decimal header ∷ decimal n ∷ [])) }
{
    put_word(line, word)?;
    put_numbers(line, header, n)
}

/// Puts the words of a command of a list structure to a line, with a blank before each. Where there
/// is no memory, the line is left in the middle of them.
#[tactic(auto, using(crate::proofs::CommandLaws::words_make, crate::proofs::CommandLaws::words_update, crate::proofs::CommandLaws::words_move, crate::proofs::CommandLaws::words_delete))]
pub fn put_list(line: &mut Vec<u8>, cmd: &ListCmd) -> Result<(), NoMemory>
    ensures { OnOk result (line.new.items ≡ line.old.items ++ tail_of (list_words cmd.now)) }
{
    match cmd {
        ListCmd::Write {
            header,
            head,
            name,
            key,
            body,
            adj,
            cond,
        } => {
            put_word(line, b"WRITE")?;
            put_place(line, *header, *head)?;
            put_label(line, name, key)?;
            put_content(line, body, adj)?;
            put_cond(line, cond)
        }
        ListCmd::Update {
            at,
            body,
            adj,
            version,
            cond,
        } => {
            put_word(line, b"UPDATE")?;
            put_reference(line, at)?;
            put_content(line, body, adj)?;
            put_guards(line, version, cond)
        }
        ListCmd::Read { at, cond } => put_on(line, b"READ", at, cond),
        ListCmd::Move {
            at,
            header,
            head,
            key,
            version,
            cond,
        } => {
            put_word(line, b"MOVE")?;
            put_reference(line, at)?;
            put_place(line, *header, *head)?;
            put_option(line, b"KEY", key)?;
            put_guards(line, version, cond)
        }
        ListCmd::Delete { at, version, cond } => {
            put_word(line, b"DELETE")?;
            put_reference(line, at)?;
            put_guards(line, version, cond)
        }
        ListCmd::ReadList { header } => put_of(line, b"READLIST", *header),
        ListCmd::LockSet { lock } => put_use(line, *lock, b"SET"),
        ListCmd::LockReset { lock } => put_use(line, *lock, b"RESET"),
        ListCmd::LockTest { lock } => put_use(line, *lock, b"TEST"),
        ListCmd::LControls { header } => put_of(line, b"LCONTROLS", *header),
        ListCmd::SetLimit { header, n } => put_header(line, b"SETLIMIT", *header, *n),
        ListCmd::Monitor { header, index } => put_header(line, b"MONITOR", *header, *index),
        ListCmd::Unmonitor { header } => put_of(line, b"UNMONITOR", *header),
    }
}
