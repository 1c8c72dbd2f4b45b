//! Which scripts lock words can do.
ghost use Rattle.std.specs.Prelude.{◌≡◌, ◌==◌, ◌<◌, ◌∷◌, length, position};
ghost use Rattle.plex_script.specs.CfTypes.Forms.{is_lock};
ghost use Rattle.plex_script.specs.PlexSpell.Words.{lines_of, without_return};
ghost use Rattle.plex_locks.specs.Others.{other_structure, is_declaring, declaring, first_other};

use crate::requests::other_line;
use plex_script::Script;
use plex_script::spell::Words;
use plex_script::types::{Kind, StrForm};

fn is_lock(kind: Kind) -> bool
    ensures { result ≡ is_lock kind }
{
    match kind {
        Kind::Lock => true,
        Kind::Cache | Kind::List { .. } => false,
    }
}

// The place of the first structure that isn't the one lock structure.
fn other_structure(structures: &[StrForm]) -> Option<usize>
    ensures { result ≡ other_structure structures.now }
{
    match structures {
        [] => None,
        [form] => { if is_lock(form.kind) { None } else { Some(0) } }
        [form, _, ..] => { if is_lock(form.kind) { Some(1) } else { Some(0) } }
    }
}

// The place of the first line feed.
fn feed_place(text: &[u8]) -> Option<usize>
    ensures { result ≡ position (λ b. b == 10) text.now }
{
    text.iter().position(|byte| *byte == b'\n')
}

// A line without the carriage return at its end.
#[tactic(auto, using(crate::proofs::ToldLaws::returns_read))]
fn without_return(line: &[u8]) -> &[u8]
    ensures { result.now ≡ without_return line.now }
{
    if line.is_empty() {
        return line;
    }
    let last = line.len() - 1;
    if line[last] == b'\r' {
        &line[..last]
    } else {
        line
    }
}

// The line that a text begins with, without what ends it, and the text behind it.
#[tactic(auto, using(crate::proofs::ToldLaws::lines_read))]
fn first_line(text: &[u8]) -> (&[u8], &[u8])
    requires { 0 < length text.now }
    ensures lines { lines_of text.now ≡ result.0.now ∷ lines_of result.1.now }
    ensures shorter { length result.1.now < length text.now }
{
    match feed_place(text) {
        Some(place) => (without_return(&text[..place]), &text[place + 1..]),
        None => (text, &text[text.len()..]),
    }
}

fn is_declaring(line: &[u8]) -> bool
    ensures { result ≡ is_declaring line.now }
{
    Words::of(line).begins(b"STRUCTURE")
}

// The number of the line that declares the structure at this place.
fn declaring(text: &[u8], place: usize) -> Option<u32>
    ensures { result ≡ declaring place 0 (lines_of text.now) }
{
    let mut left = place;
    let mut number = 0u32;
    let mut rest = text;
    while !rest.is_empty() {
        let (line, more) = first_line(rest);
        number = number.saturating_add(1);
        if is_declaring(line) {
            if left == 0 {
                return Some(number);
            }
            left -= 1;
        }
        rest = more;
    }
    None
}

/// The number of the first line of a script's text that lock words can't do: one that declares a
/// structure beside the one lock structure, or a line of a caller that asks something else than to
/// obtain or release a lock, or is to be asked again.
pub fn first_other(text: &[u8], script: &Script) -> Option<u32>
    ensures { result ≡ first_other text.now script.now }
{
    match other_structure(script.structures.items()) {
        Some(place) => declaring(text, place),
        None => other_line(script.lines.items()),
    }
}
