//! Values of one word, and parts of commands and replies that may lack.

ghost use Rattle.std.specs.Prelude.{◌≡◌, ℕ, List, ◌∷◌, ◌++◌, [], if◌then◌else◌, OnOk};
ghost use Rattle.std.specs.Fmt.{decimal};
ghost use Rattle.cf_types.specs.Term.{text_in_block};
ghost use Rattle.plex_spell.specs.Tokens.{name_word};
ghost use Rattle.plex_spell.specs.Words.{tail_of};
ghost use Rattle.plex_plain.specs.PlainWords.{told_words};

use crate::line_text::{put_name, put_number, put_word};
use cf_types::{Adjunct, Body, Key16, Name16, NoMemory};
use plex_spell::key_text;

/// A value that is one word of a line.
pub trait Worded {
    ghost word: { Self → List ℕ };

    /// Puts a blank and the word to a line.
    fn put(&self, line: &mut Vec<u8>) -> Result<(), NoMemory>
        ensures { OnOk result (line.new.items ≡ line.old.items ++ tail_of (word self.now ∷ [])) };
}

impl Worded for u32 {
    ghost word = { λ n. decimal n };

    fn put(&self, line: &mut Vec<u8>) -> Result<(), NoMemory> {
        put_number(line, u64::from(*self))
    }
}

impl Worded for Name16 {
    ghost word = { λ name. name_word name };

    fn put(&self, line: &mut Vec<u8>) -> Result<(), NoMemory> {
        put_name(line, self)
    }
}

impl Worded for Key16 {
    ghost word = { λ key. text_in_block key.0 };

    fn put(&self, line: &mut Vec<u8>) -> Result<(), NoMemory> {
        put_word(line, key_text(self))
    }
}

impl Worded for Adjunct {
    ghost word = { λ text. text };

    fn put(&self, line: &mut Vec<u8>) -> Result<(), NoMemory> {
        put_word(line, self.bytes())
    }
}

impl Worded for Body {
    ghost word = { λ text. text };

    fn put(&self, line: &mut Vec<u8>) -> Result<(), NoMemory> {
        put_word(line, self.bytes())
    }
}

/// Puts a word and a value to a line, where there is one.
pub fn put_option<T: Worded>(
    line: &mut Vec<u8>,
    word: &[u8],
    value: &Option<T>,
) -> Result<(), NoMemory>
    ensures { OnOk result (line.new.items ≡ line.old.items
        ++ tail_of (told_words word.now (λ x. T.word x ∷ []) value.now)) }
{
    match value {
        None => Ok(()),
        Some(value) => {
            put_word(line, word)?;
            value.put(line)
        }
    }
}

/// Puts a word to a line, where it is to stand there.
pub fn put_flag(line: &mut Vec<u8>, word: &[u8], flag: bool) -> Result<(), NoMemory>
    ensures { OnOk result (line.new.items ≡ line.old.items
        ++ tail_of (if flag then word.now ∷ [] else [])) }
{
    if flag { put_word(line, word) } else { Ok(()) }
}
