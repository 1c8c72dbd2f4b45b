//! The words of the commands of a list structure with event queues.

ghost use Rattle.std.specs.Prelude.{◌≡◌, ◌∷◌, ◌++◌, [], codes, OnOk};
ghost use Rattle.std.specs.Fmt.{decimal};
ghost use Rattle.plex_spell.specs.Words.{tail_of};
ghost use Rattle.plex_plain.specs.PlainWords.{queue_words, key_words};

use crate::line_text::{put_of, put_word};
use crate::list_plain::put_list;
use crate::values::Worded;
use cf_types::{Key16, NoMemory, QueueCmd};

// A word and a sublist: a header, and a key.
fn put_sublist(line: &mut Vec<u8>, word: &[u8], header: u32, key: &Key16) -> Result<(), NoMemory>
    ensures { OnOk result (line.new.items ≡ line.old.items
        ++ tail_of (word.now ∷ decimal header ∷ codes "KEY" ∷ key_words key.now)) }
{
    put_of(line, word, header)?;
    put_word(line, b"KEY")?;
    key.put(line)
}

/// Puts the words of a command of a list structure with event queues to a line, with a blank before
/// each. Where there is no memory, the line is left in the middle of them.
pub fn put_queue(line: &mut Vec<u8>, cmd: &QueueCmd) -> Result<(), NoMemory>
    ensures { OnOk result (line.new.items ≡ line.old.items ++ tail_of (queue_words cmd.now)) }
{
    match cmd {
        QueueCmd::List(cmd) => put_list(line, cmd),
        QueueCmd::MonSub { header, key } => put_sublist(line, b"MONSUB", *header, key),
        QueueCmd::UnmonSub { header, key } => put_sublist(line, b"UNMONSUB", *header, key),
        QueueCmd::Deq => put_word(line, b"DEQ"),
    }
}
