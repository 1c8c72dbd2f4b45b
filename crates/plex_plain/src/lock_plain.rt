//! The words of the commands of a lock structure.

ghost use Rattle.std.specs.Prelude.{◌≡◌, ◌∷◌, ◌++◌, [], codes, OnOk};
ghost use Rattle.plex_spell.specs.Words.{tail_of};
ghost use Rattle.plex_spell.specs.Tokens.Token.{Literal, OnResource};
ghost use Rattle.plex_spell.specs.Fields.{all_tokens, state, option_tokens, short_tokens};
ghost use Rattle.plex_spell.specs.LockWords.{decision};
ghost use Rattle.plex_plain.specs.Naming.{resource_word};
ghost use Rattle.plex_plain.specs.PlainWords.{plain_word, plain_words, lock_words};

use crate::line_text::{put_caller, put_resource, put_word, state_text};
use crate::values::put_option;
use cf_types::{Adjunct, Decision, LockCmd, Name16, NoMemory, Resource};

// What a manager decides on a waiter.
fn put_decision(line: &mut Vec<u8>, connectors: &[Name16], how: Decision) -> Result<(), NoMemory>
    ensures { OnOk result (line.new.items ≡ line.old.items
        ++ tail_of (plain_word [] connectors.now (decision how) ∷ [])) }
{
    match how {
        Decision::Keep => put_word(line, b"KEEP"),
        Decision::Deny => put_word(line, b"DENY"),
        Decision::Notify => put_word(line, b"NOTIFY"),
    }
}

// A word and a resource.
fn put_about(line: &mut Vec<u8>, word: &[u8], r: Resource) -> Result<(), NoMemory>
    ensures { OnOk result (line.new.items ≡ line.old.items
        ++ tail_of (word.now ∷ resource_word r ∷ [])) }
{
    put_word(line, word)?;
    put_resource(line, r)
}

// A request for a resource: the state, and record data where it is given.
#[tactic(auto, using(crate::proofs::CommandLaws::words_request))]
fn put_request(
    line: &mut Vec<u8>,
    connectors: &[Name16],
    verb: &[u8],
    r: Resource,
    excl: bool,
    rec: &Option<Adjunct>,
) -> Result<(), NoMemory>
    ensures { OnOk result (line.new.items ≡ line.old.items
        ++ tail_of (plain_words [] connectors.now (Literal verb.now ∷ OnResource r ∷ state excl
        ∷ all_tokens (option_tokens (codes "REC") short_tokens rec.now ∷ [])))) }
{
    put_about(line, verb, r)?;
    put_word(line, state_text(excl))?;
    put_option(line, b"REC", rec)
}

/// Puts the words of a command of a lock structure to a line, with a blank before each. Where there
/// is no memory, the line is left in the middle of them.
pub fn put_lock(line: &mut Vec<u8>, connectors: &[Name16], cmd: &LockCmd) -> Result<(), NoMemory>
    ensures { OnOk result (line.new.items ≡ line.old.items
        ++ tail_of (lock_words connectors.now cmd.now)) }
{
    match cmd {
        LockCmd::Obtain { r, excl, rec } => {
            put_request(line, connectors, b"OBTAIN", *r, *excl, rec)
        }
        LockCmd::Alter { r, excl, rec } => put_request(line, connectors, b"ALTER", *r, *excl, rec),
        LockCmd::Release { r } => put_about(line, b"RELEASE", *r),
        LockCmd::Decide { r, conn, how } => {
            put_about(line, b"DECIDE", *r)?;
            put_caller(line, connectors, conn.0 as usize)?;
            put_decision(line, connectors, *how)
        }
        LockCmd::RtRead { conn } => {
            put_word(line, b"RTREAD")?;
            put_caller(line, connectors, conn.0 as usize)
        }
        LockCmd::RtDelete { conn, r } => {
            put_word(line, b"RTDELETE")?;
            put_caller(line, connectors, conn.0 as usize)?;
            put_resource(line, *r)
        }
    }
}
