//! Items of replies, each of them one word.

ghost use Rattle.std.specs.Prelude.{◌≡◌, ℕ, List, ◌∷◌, ◌++◌, [], codes, map, OnOk};
ghost use Rattle.std.specs.Fmt.{decimal};
ghost use Rattle.plex_script.specs.PlexSpell.Tokens.{name_word};
ghost use Rattle.plex_script.specs.PlexSpell.Words.{tail_of};
ghost use Rattle.plex_script.specs.PlexPlain.Naming.{record_word};
ghost use Rattle.plex_report.specs.ReplyWords.{index_word, count_word, held_word, counted_words};

use plex_script::plain::{
    put_digits, put_name, put_number, put_record, put_resource, put_text, put_word, state_text,
};
use plex_script::spell::name_text;
use plex_script::types::{Adjunct, EntryId, Name16, NoMemory, Resource};

/// An item of a reply.
pub(crate) trait Item {
    ghost word: { Self → List ℕ };

    /// Puts a blank and the item to a line.
    fn put(&self, line: &mut Vec<u8>) -> Result<(), NoMemory>
        ensures { OnOk result (line.new.items ≡ line.old.items ++ tail_of (word self.now ∷ [])) };
}

impl Item for Name16 {
    ghost word = { name_word };

    fn put(&self, line: &mut Vec<u8>) -> Result<(), NoMemory> {
        put_name(line, self)
    }
}

impl Item for EntryId {
    ghost word = { record_word };

    fn put(&self, line: &mut Vec<u8>) -> Result<(), NoMemory> {
        put_record(line, *self)
    }
}

// The second of two numbers, behind `:`.
fn put_count(line: &mut Vec<u8>, count: u32) -> Result<(), NoMemory>
    ensures { OnOk result (line.new.items ≡ line.old.items ++ (codes ":" ++ decimal count)) }
{
    put_text(line, b":")?;
    put_digits(line, u64::from(count))
}

impl Item for (u32, u32) {
    ghost word = { count_word };

    fn put(&self, line: &mut Vec<u8>) -> Result<(), NoMemory> {
        put_number(line, u64::from(self.0))?;
        put_count(line, self.1)
    }
}

impl Item for (u32, Name16) {
    ghost word = { index_word };

    fn put(&self, line: &mut Vec<u8>) -> Result<(), NoMemory> {
        put_number(line, u64::from(self.0))?;
        put_behind(line, name_text(&self.1))
    }
}

// A text behind `:`.
fn put_behind(line: &mut Vec<u8>, text: &[u8]) -> Result<(), NoMemory>
    ensures { OnOk result (line.new.items ≡ line.old.items ++ (codes ":" ++ text.now)) }
{
    put_text(line, b":")?;
    put_text(line, text)
}

impl Item for (Resource, bool, Adjunct) {
    ghost word = { held_word };

    fn put(&self, line: &mut Vec<u8>) -> Result<(), NoMemory> {
        put_resource(line, self.0)?;
        put_behind(line, state_text(self.1))?;
        put_behind(line, self.2.bytes())
    }
}

// Puts each of the items to a line, with a blank before it.
fn put_all<T: Item>(line: &mut Vec<u8>, items: &[T]) -> Result<(), NoMemory>
    ensures { OnOk result (line.new.items ≡ line.old.items ++ tail_of (map T.word items.now)) }
{
    for item in items {
        item.put(line)?;
    }
    Ok(())
}

/// Puts a word, the number of the items, and the items to a line.
pub(crate) fn put_counted<T: Item>(
    line: &mut Vec<u8>,
    word: &[u8],
    items: &[T],
) -> Result<(), NoMemory>
    ensures { OnOk result (line.new.items ≡ line.old.items
        ++ tail_of (counted_words word.now T.word items.now)) }
{
    put_word(line, word)?;
    put_number(line, items.len() as u64)?;
    put_all(line, items)
}
