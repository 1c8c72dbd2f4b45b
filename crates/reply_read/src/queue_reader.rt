ghost use Rattle.std.specs.Prelude.{◌≡◌, ◌≤◌, length, IfOk};
ghost use Rattle.cf_types.specs.declared.limits.TheConstants.{CONNECTORS};
ghost use Rattle.cf_types.specs.declared.list_commands.QueueReply.TheVariants as queue;
ghost use Rattle.line_rows.specs.Rows.{form, first_of};
ghost use Rattle.reply_rows.specs.Contents.{list_row, queue_forms};

use crate::list_reader::list_reply;
use crate::rows::{plain, with_one, with_two};
use cf_types::{Key16, Name16, NoMemory, QueueReply};
use plex_spell::Words;
use std::alloc::Global;

/// Reads a reply of a list structure on records.
pub fn inner_list_reply(
    alloc: Global,
    connectors: &[Name16],
    words: &Words,
) -> Result<Option<QueueReply>, NoMemory>
    requires { length connectors.now ≤ CONNECTORS }
    ensures { IfOk result (λ r. r
        ≡ form (list_row connectors.now) (λ v. queue.List v) words.now) }
{
    match list_reply(alloc, connectors, words)? {
        Some(answer) => Ok(Some(QueueReply::List(answer))),
        None => Ok(None),
    }
}

/// Reads a reply of a list structure on event queues.
pub fn queue_reply(connectors: &[Name16], words: &Words) -> Option<QueueReply>
    requires { length connectors.now ≤ CONNECTORS }
    ensures { result ≡ first_of queue_forms words.now }
{
    if plain(words, b"EMPTY").is_some() {
        return Some(QueueReply::Empty);
    }
    if plain(words, b"NOTEMPTY").is_some() {
        return Some(QueueReply::NotEmpty);
    }
    if let Some(n) = with_one::<u32>(connectors, words, b"OK") {
        return Some(QueueReply::Ok { n });
    }
    if let Some((header, key)) = with_two::<u32, Key16>(connectors, words, b"SUBLIST") {
        return Some(QueueReply::Sublist { header, key });
    }
    None
}
