ghost use Rattle.std.specs.Prelude.{◌≡◌, ◌==◌, ◌||◌, ◌<◌, ◌≤◌, length, IfSome, IfNone, position, true, false, not};
ghost use Rattle.std.specs.Char.{is_ascii_uppercase, is_ascii_digit};
ghost use Rattle.std.specs.List.{list_all, before_first, after_first};
ghost use Rattle.std.specs.Option.{option_copied};
ghost use Rattle.cf_types.specs.Term.{IsTerm, term_byte, text_in_block};
ghost use Rattle.plex_spell.specs.Tokens.{is_term, is_name, is_capital, name_word};
ghost use Rattle.plex_spell.specs.Places.{text_of, stands_in};

use crate::rigour::Rigour;
use crate::words::is;
use cf_types::{Key16, Name16};

fn is_term_byte(byte: u8) -> bool
    ensures { result ≡ term_byte byte }
{
    byte.is_ascii_alphanumeric() || byte == b'.' || byte == b'_' || byte == b'-'
}

fn are_term_bytes(word: &[u8]) -> bool
    ensures { result ≡ list_all term_byte word.now }
{
    word.iter().all(|byte| is_term_byte(*byte))
}

/// Whether a word is made of term characters.
pub fn is_term(word: &[u8]) -> bool
    ensures { result ≡ is_term word.now }
{
    match word {
        [] => false,
        [_, ..] => are_term_bytes(word),
    }
}

// Whether a text is made of capital letters, digits and `_`.
fn are_capital(text: &[u8]) -> bool
    ensures { result ≡ list_all
        (λ c. is_ascii_uppercase c || is_ascii_digit c || c == 95) text.now }
{
    text.iter().all(|byte| byte.is_ascii_uppercase() || byte.is_ascii_digit() || *byte == b'_')
}

fn is_capital(word: &[u8]) -> bool
    ensures { result ≡ is_capital word.now }
{
    match word {
        [] => false,
        [first, rest @ ..] => first.is_ascii_uppercase() && are_capital(rest),
    }
}

/// Whether a word has the form of a name of a structure or a connector: capital letters, digits and
/// `_`, first a letter, and none of the words of the script language.
pub fn is_name(word: &[u8]) -> bool
    ensures { result ≡ is_name word.now }
{
    is_capital(word)
        && !(is(word, b"OP")
            || is(word, b"SYS")
            || is(word, b"NONE")
            || is(word, b"FACILITY")
            || is(word, b"STRUCTURE")
            || is(word, b"PREF")
            || is(word, b"CONNECTOR"))
}

/// Reads a text of term characters, `limit` at most. Where the form alone counts, its front stands
/// for a longer one.
pub fn text(rigour: Rigour, word: &[u8], limit: usize) -> Option<&[u8]>
    requires { 0 < limit }
    ensures value { option_copied result ≡ text_of rigour limit word.now }
    ensures term { IfSome result (λ text. IsTerm limit text.now) }
{
    if !is_term(word) {
        return None;
    }
    if word.len() <= limit {
        return Some(word);
    }
    if rigour == Rigour::Form {
        Some(&word[..limit])
    } else {
        None
    }
}

// The place where the byte first stands.
fn place_of(word: &[u8], at: u8) -> Option<usize>
    ensures { result ≡ position (λ b. b == at) word.now }
{
    word.iter().position(|byte| *byte == at)
}

/// What stands before a byte and after it, where it first stands.
#[tactic(auto, using(crate::proofs::TextLaws::cuts_told))]
pub fn cut(word: &[u8], at: u8) -> Option<(&[u8], &[u8])>
    ensures found { IfSome result (λ parts. (stands_in at word.now ≡ true)
        × (parts.0.now ≡ before_first (λ b. b == at) word.now)
        × (parts.1.now ≡ after_first (λ b. b == at) word.now)) }
    ensures none { IfNone result (stands_in at word.now ≡ false) }
{
    let place = place_of(word, at)?;
    Some((&word[..place], &word[place + 1..]))
}

// The place of the first blank.
fn blank_place(bytes: &[u8]) -> Option<usize>
    ensures { result ≡ position (λ b. b == 32) bytes.now }
{
    bytes.iter().position(|byte| *byte == b' ')
}

// The bytes before the first blank.
#[tactic(auto, using(crate::proofs::WordLists::place_or_length))]
fn unpadded_text(bytes: &[u8]) -> &[u8]
    ensures { result.now ≡ text_in_block bytes.now }
{
    let len = blank_place(bytes).unwrap_or(bytes.len());
    &bytes[..len]
}

/// The text of a name.
pub fn name_text(name: &Name16) -> &[u8]
    ensures { result.now ≡ name_word name.now }
{
    unpadded_text(&name.0)
}

/// The text of a key.
pub fn key_text(key: &Key16) -> &[u8]
    ensures { result.now ≡ text_in_block key.now.0 }
{
    unpadded_text(&key.0)
}
