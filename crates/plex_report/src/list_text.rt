//! The words of the commands and the replies of a list structure.

ghost use Rattle.std.specs.Prelude.{◌≡◌, ◌∷◌, ◌++◌, [], codes, OnOk};
ghost use Rattle.std.specs.Fmt.{decimal};
ghost use Rattle.plex_script.specs.PlexSpell.Words.{tail_of};
ghost use Rattle.plex_script.specs.PlexPlain.Naming.{record_word};
ghost use Rattle.plex_script.specs.PlexPlain.PlainWords.{key_words};
ghost use Rattle.plex_report.specs.CommandWords.{queue_words};
ghost use Rattle.plex_report.specs.ReplyWords.{list_reply_words, queue_reply_words};

use crate::items::put_counted;
use crate::line_text::put_holder;
use crate::spelled::Spelled;
use plex_script::Script;
use plex_script::plain::{
    put_content, put_label, put_number, put_numbers, put_of, put_queue, put_record, put_word,
};
use plex_script::spell::key_text;
use plex_script::types::{EntryId, Key16, ListReply, NoMemory, QueueCmd, QueueReply};

impl Spelled for QueueCmd {
    ghost words = { queue_words };

    fn put(&self, line: &mut Vec<u8>, _: &Script) -> Result<(), NoMemory> {
        put_queue(line, self)
    }
}

// A record's id, header and version.
fn put_entry(line: &mut Vec<u8>, id: EntryId, header: u32, version: u32) -> Result<(), NoMemory>
    ensures { OnOk result (line.new.items ≡ line.old.items
        ++ tail_of (codes "ENTRY" ∷ record_word id ∷ decimal header
        ∷ codes "VERSION" ∷ decimal version ∷ [])) }
{
    put_word(line, b"ENTRY")?;
    put_record(line, id)?;
    put_number(line, u64::from(header))?;
    put_of(line, b"VERSION", version)
}

impl Spelled for ListReply {
    ghost words = { list_reply_words };

    fn put(&self, line: &mut Vec<u8>, script: &Script) -> Result<(), NoMemory> {
        match self {
            ListReply::Id { id } => {
                put_word(line, b"ID")?;
                put_record(line, *id)
            }
            ListReply::Entry {
                id,
                header,
                version,
                name,
                key,
                body,
                adj,
            } => {
                put_entry(line, *id, *header, *version)?;
                put_label(line, name, key)?;
                put_content(line, body, adj)
            }
            ListReply::Ok => put_word(line, b"OK"),
            ListReply::Ids(ids) => put_counted(line, b"IDS", ids.items()),
            ListReply::Holder { holder } => {
                put_word(line, b"HOLDER")?;
                put_holder(line, script, *holder)
            }
            ListReply::Controls { count, limit } => {
                put_word(line, b"CONTROLS")?;
                put_numbers(line, *count, *limit)
            }
            ListReply::Empty => put_word(line, b"EMPTY"),
            ListReply::NotEmpty => put_word(line, b"NOTEMPTY"),
            ListReply::OkCount { n } => put_of(line, b"OK", *n),
        }
    }
}

// A sublist: its header, and the key of its records.
fn put_sublist(line: &mut Vec<u8>, header: u32, key: &Key16) -> Result<(), NoMemory>
    ensures { OnOk result (line.new.items ≡ line.old.items
        ++ tail_of (codes "SUBLIST" ∷ decimal header ∷ key_words key.now)) }
{
    put_of(line, b"SUBLIST", header)?;
    put_word(line, key_text(key))
}

impl Spelled for QueueReply {
    ghost words = { queue_reply_words };

    fn put(&self, line: &mut Vec<u8>, script: &Script) -> Result<(), NoMemory> {
        match self {
            QueueReply::List(answer) => answer.put(line, script),
            QueueReply::Empty => put_word(line, b"EMPTY"),
            QueueReply::NotEmpty => put_word(line, b"NOTEMPTY"),
            QueueReply::Ok { n } => put_of(line, b"OK", *n),
            QueueReply::Sublist { header, key } => put_sublist(line, *header, key),
        }
    }
}
