//! What is told of a script whose lines were done by lock words.
ghost use Rattle.std.specs.Prelude.{◌≡◌, ◌++◌, ◌∷◌, [], IfOk, OnOk, map, codes};
ghost use Rattle.std.specs.List.{flat_map};
ghost use Rattle.plex_script.specs.PlexSpell.Words.{tail_of, line_of, line_text};
ghost use Rattle.plex_locks.specs.Told.{value_words, outcome_words, request_words, done_line, structure_line, heading, hand_lines, word_line, word_lines, locks_text};

use crate::outcomes::{Done, Outcome};
use crate::requests::Request;
use lock_words::EXCL;
use plex_script::Script;
use plex_script::plain::{put_name, put_number, put_resource, put_text, put_word, state_text};
use plex_script::types::{Listing, Name16, NoMemory, StrForm};
use std::alloc::Global;

/// What became of a connector's lines, in their order.
#[derive(Drop)]
pub struct HandTold {
    /// The connector's name.
    pub name: Name16,
    pub done: Listing<Done>,
}

/// What became of a script's lines: for each connector, and the lock words in the end.
#[derive(Drop)]
pub struct Locked {
    pub hands: Listing<HandTold>,
    pub words: Listing<u64>,
}

// How a word is held.
fn put_value(line: &mut Vec<u8>, value: u64) -> Result<(), NoMemory>
    ensures { OnOk result (line.new.items ≡ line.old.items ++ tail_of (value_words value)) }
{
    if value == EXCL {
        return put_word(line, b"EXCL");
    }
    put_word(line, b"SHR")?;
    put_number(line, value)
}

fn put_outcome(line: &mut Vec<u8>, outcome: Outcome) -> Result<(), NoMemory>
    ensures { OnOk result (line.new.items ≡ line.old.items ++ tail_of (outcome_words outcome)) }
{
    match outcome {
        Outcome::Granted => put_word(line, b"GRANTED"),
        Outcome::Held { excl } => {
            put_word(line, b"HELD")?;
            put_word(line, state_text(excl))
        }
        Outcome::Contended { value } => {
            put_word(line, b"CONTENDED")?;
            put_value(line, value)
        }
        Outcome::Raced => put_word(line, b"RACED"),
        Outcome::Freed => put_word(line, b"OK"),
        Outcome::NotHeld => put_word(line, b"NOTHELD"),
    }
}

fn put_request(line: &mut Vec<u8>, request: Request) -> Result<(), NoMemory>
    ensures { OnOk result (line.new.items ≡ line.old.items ++ line_of (request_words request)) }
{
    match request {
        Request::Obtain { r, excl } => {
            put_text(line, b"OBTAIN")?;
            put_resource(line, r)?;
            put_word(line, state_text(excl))
        }
        Request::Release { r } => {
            put_text(line, b"RELEASE")?;
            put_resource(line, r)
        }
    }
}

// Puts the line of a request and its outcome to a text.
fn put_done(text: &mut Vec<u8>, done: &Done) -> Result<(), NoMemory>
    ensures { OnOk result (text.new.items ≡ text.old.items ++ line_text (done_line done.now)) }
{
    put_request(text, done.request)?;
    put_word(text, b"->")?;
    put_outcome(text, done.outcome)?;
    put_text(text, b"\n")
}

// Puts the lines of what became of requests to a text.
fn put_all_done(text: &mut Vec<u8>, all: &[Done]) -> Result<(), NoMemory>
    ensures { OnOk result (text.new.items ≡ text.old.items
        ++ flat_map line_text (map done_line all.now)) }
{
    for done in all {
        put_done(text, done)?;
    }
    Ok(())
}

// Puts the lines of a connector to a text.
fn put_hand(text: &mut Vec<u8>, told: &HandTold) -> Result<(), NoMemory>
    ensures { OnOk result (text.new.items ≡ text.old.items
        ++ flat_map line_text (hand_lines told.now)) }
{
    let all = told.done.items();
    put_text(text, b"HAND")?;
    put_name(text, &told.name)?;
    put_number(text, all.len() as u64)?;
    put_text(text, b"\n")?;
    put_all_done(text, all)
}

// Puts the lines of connectors to a text.
fn put_hands(text: &mut Vec<u8>, hands: &[HandTold]) -> Result<(), NoMemory>
    ensures { OnOk result (text.new.items ≡ text.old.items
        ++ flat_map line_text (flat_map hand_lines hands.now)) }
{
    for told in hands {
        put_hand(text, told)?;
    }
    Ok(())
}

// Puts the line of a structure to a text.
fn put_structure(text: &mut Vec<u8>, form: &StrForm) -> Result<(), NoMemory>
    ensures { OnOk result (text.new.items ≡ text.old.items ++ line_text (structure_line form.now)) }
{
    put_text(text, b"LOCKWORDS")?;
    put_name(text, &form.name)?;
    put_number(text, u64::from(form.caps.entries))?;
    put_text(text, b"\n")
}

// Puts the lines of structures to a text.
fn put_structures(text: &mut Vec<u8>, structures: &[StrForm]) -> Result<(), NoMemory>
    ensures { OnOk result (text.new.items ≡ text.old.items
        ++ flat_map line_text (map structure_line structures.now)) }
{
    for form in structures {
        put_structure(text, form)?;
    }
    Ok(())
}

// Puts the line of a word to a text, if it is held.
fn put_held(text: &mut Vec<u8>, word: usize, value: u64) -> Result<(), NoMemory>
    ensures { OnOk result (text.new.items ≡ text.old.items
        ++ flat_map line_text (word_lines word (value ∷ []))) }
{
    if value == 0 {
        return Ok(());
    }
    put_text(text, b"WORD")?;
    put_number(text, word as u64)?;
    put_value(text, value)?;
    put_text(text, b"\n")
}

// Puts the lines of words that are held to a text.
fn put_words(text: &mut Vec<u8>, words: &[u64]) -> Result<(), NoMemory>
    ensures { OnOk result (text.new.items ≡ text.old.items
        ++ flat_map line_text (word_lines 0 words.now)) }
{
    for word in 0..words.len() {
        put_held(text, word, words[word])?;
    }
    Ok(())
}

/// What is told of a script's lines, line by line: `LOCKWORDS`, the structure's name and how many
/// words it has, where there is a structure; for each connector `HAND`, its name and the number of
/// its lines, and each of these with what became of it behind `->`; `WORD`, the number of a word
/// and how it is held, for each that is; and `END`.
///
/// # Errors
///
/// `NoMemory` where there is no memory for the text.
pub fn locks_text(alloc: Global, script: &Script, told: &Locked) -> Result<Vec<u8>, NoMemory>
    ensures { IfOk result (λ text. text.items ≡ locks_text script.now told.now) }
{
    let mut text = Vec::new(alloc);
    put_structures(&mut text, script.structures.items())?;
    put_hands(&mut text, told.hands.items())?;
    put_words(&mut text, told.words.items())?;
    put_text(&mut text, b"END\n")?;
    Ok(text)
}
