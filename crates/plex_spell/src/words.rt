ghost use Rattle.std.specs.Prelude.{◌≡◌};
ghost use Rattle.plex_spell.specs.Words.{same_word};

use crate::cuts::{after_blanks, first_word};
use std::marker::Model;

/// The words of a line that are left to read: what stands between blanks and tabs.
#[derive(Drop)]
pub struct Words<'a> {
    rest: &'a [u8],
}

impl<'a> Model for Words<'a> {
    ghost use Rattle.std.specs.Prelude.{ℕ, List};
    ghost use Rattle.plex_spell.specs.Words.{words_of};

    ghost Value = { List (List ℕ) };

    ghost view = { λ words. words_of words.rest.now };
}

impl<'a> Words<'a> {
    ghost use Rattle.std.specs.Prelude.{◌≡◌, ◌↔◌, IsTrue, IfSome, IfNone, [], ◌∷◌, if◌then◌else◌};
    ghost use Rattle.plex_spell.specs.Words.{words_of, begins_with, words_behind};

    /// All words of a line.
    pub fn of(line: &'a [u8]) -> Words<'a>
        ensures { result ≡ words_of line.now }
    {
        Words { rest: line }
    }

    /// The same words, to be read a second time.
    pub fn again(&self) -> Words<'a>
        ensures { result ≡ self.now }
    {
        Words { rest: self.rest }
    }

    /// Takes the next word.
    pub fn next(&mut self) -> Option<&'a [u8]>
        ensures word { IfSome result (λ word. self.old ≡ word.now ∷ self.new) }
        ensures none { IfNone result ((self.old ≡ []) × (self.new ≡ [])) }
    {
        let text = after_blanks(self.rest);
        if text.is_empty() {
            self.rest = text;
            return None;
        }
        let (word, rest) = first_word(text);
        self.rest = rest;
        Some(word)
    }

    /// Whether the next word is this one.
    pub fn begins(&self, wanted: &[u8]) -> bool
        ensures { result ≡ begins_with wanted.now self.now }
    {
        self.again().skip(wanted)
    }

    /// Takes the next word where it is this one.
    pub fn skip(&mut self, wanted: &[u8]) -> bool
        ensures value { result ≡ begins_with wanted.now self.old }
        ensures rest { self.new ≡ (if result then words_behind self.old else self.old) }
    {
        let text = after_blanks(self.rest);
        if text.is_empty() {
            return false;
        }
        let (word, rest) = first_word(text);
        if word != wanted {
            return false;
        }
        self.rest = rest;
        true
    }

    /// Whether no word is left.
    pub fn is_done(&self) -> bool
        ensures { IsTrue result ↔ (self.now ≡ []) }
    {
        after_blanks(self.rest).is_empty()
    }
}

/// Whether two words are the same.
pub fn is(word: &[u8], wanted: &[u8]) -> bool
    ensures { result ≡ same_word word.now wanted.now }
{
    word == wanted
}
