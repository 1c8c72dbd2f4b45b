ghost use Rattle.std.specs.Prelude.{◌≡◌, ◌≤◌, List, length, IfOk};
ghost use Rattle.cf_types.specs.declared.limits.TheConstants.{CONNECTORS};
ghost use Rattle.cf_types.specs.declared.names.Name16.{Name16};
ghost use Rattle.line_rows.specs.Rows.{first_of};
ghost use Rattle.reply_rows.specs.Answers.{Answers};
ghost use Rattle.reply_rows.specs.Contents.{alter_answers, queue_answers, lock_answers};
ghost use Rattle.reply_rows.specs.Replies.{reply_at, told_forms};
ghost use Rattle.reply_rows.specs.declared.sides.Side.TheVariants.{Common, Content, Around};

use crate::alter_reader::{alter_reply, inner_cache_reply};
use crate::lock_reader::lock_reply;
use crate::queue_reader::{inner_list_reply, queue_reply};
use crate::refusal_reader::refused;
use crate::shell_reader::shell_reply;
use cf_types::{AlterReply, CacheReply, LockReply, Name16, NoMemory, QueueReply};
use engine_api::Reply;
use plex_spell::Words;
use reply_rows::Side;
use std::alloc::Global;

/// A reply on the content of one kind of structure, or on what stands around it.
pub trait Answer: Sized {
    ghost answers: { List Name16 → Answers Self };

    /// Reads one on the content from all words that are left of a line; `None` where none prints
    /// so.
    fn content(
        alloc: Global,
        connectors: &[Name16],
        words: &Words,
    ) -> Result<Option<Self>, NoMemory>
        requires { length connectors.now ≤ CONNECTORS }
        ensures { IfOk result (λ r. r ≡ (answers connectors.now).content words.now) };

    /// Reads one on what stands around it; `None` where none prints so.
    fn around(connectors: &[Name16], words: &Words) -> Option<Self>
        requires { length connectors.now ≤ CONNECTORS }
        ensures { result ≡ (answers connectors.now).around words.now };
}

impl Answer for AlterReply<CacheReply> {
    ghost answers = { alter_answers };

    fn content(
        alloc: Global,
        connectors: &[Name16],
        words: &Words,
    ) -> Result<Option<AlterReply<CacheReply>>, NoMemory> {
        inner_cache_reply(alloc, connectors, words)
    }

    fn around(connectors: &[Name16], words: &Words) -> Option<AlterReply<CacheReply>> {
        alter_reply(connectors, words)
    }
}

impl Answer for QueueReply {
    ghost answers = { queue_answers };

    fn content(
        alloc: Global,
        connectors: &[Name16],
        words: &Words,
    ) -> Result<Option<QueueReply>, NoMemory> {
        inner_list_reply(alloc, connectors, words)
    }

    fn around(connectors: &[Name16], words: &Words) -> Option<QueueReply> {
        queue_reply(connectors, words)
    }
}

impl Answer for LockReply {
    ghost answers = { lock_answers };

    fn content(
        alloc: Global,
        connectors: &[Name16],
        words: &Words,
    ) -> Result<Option<LockReply>, NoMemory> {
        lock_reply(alloc, connectors, words)
    }

    fn around(_: &[Name16], _: &Words) -> Option<LockReply> {
        None
    }
}

// A reply that is no refusal, to a common command or else to one on the content or around it.
fn common_first<T: Answer + Drop>(
    alloc: Global,
    connectors: &[Name16],
    words: &Words,
    vary: bool,
) -> Result<Option<Reply<T>>, NoMemory>
    requires { length connectors.now ≤ CONNECTORS }
    ensures { IfOk result (λ r. r ≡ first_of (told_forms connectors.now
        (T.answers connectors.now) vary Common) words.now) }
{
    if let Some(answer) = shell_reply(connectors, words, vary) {
        return Ok(Some(Reply::Shell(answer)));
    }
    if let Some(answer) = T::content(alloc, connectors, words)? {
        return Ok(Some(Reply::Content(answer)));
    }
    match T::around(connectors, words) {
        Some(answer) => Ok(Some(Reply::Content(answer))),
        None => Ok(None),
    }
}

// A reply that is no refusal, to a command on the content, or else around it or a common one.
fn content_first<T: Answer + Drop>(
    alloc: Global,
    connectors: &[Name16],
    words: &Words,
    vary: bool,
) -> Result<Option<Reply<T>>, NoMemory>
    requires { length connectors.now ≤ CONNECTORS }
    ensures { IfOk result (λ r. r ≡ first_of (told_forms connectors.now
        (T.answers connectors.now) vary Content) words.now) }
{
    if let Some(answer) = T::content(alloc, connectors, words)? {
        return Ok(Some(Reply::Content(answer)));
    }
    if let Some(answer) = T::around(connectors, words) {
        return Ok(Some(Reply::Content(answer)));
    }
    match shell_reply(connectors, words, vary) {
        Some(answer) => Ok(Some(Reply::Shell(answer))),
        None => Ok(None),
    }
}

// A reply that is no refusal, to a command around the content, or else on it or a common one.
fn around_first<T: Answer + Drop>(
    alloc: Global,
    connectors: &[Name16],
    words: &Words,
    vary: bool,
) -> Result<Option<Reply<T>>, NoMemory>
    requires { length connectors.now ≤ CONNECTORS }
    ensures { IfOk result (λ r. r ≡ first_of (told_forms connectors.now
        (T.answers connectors.now) vary Around) words.now) }
{
    if let Some(answer) = T::around(connectors, words) {
        return Ok(Some(Reply::Content(answer)));
    }
    if let Some(answer) = T::content(alloc, connectors, words)? {
        return Ok(Some(Reply::Content(answer)));
    }
    match shell_reply(connectors, words, vary) {
        Some(answer) => Ok(Some(Reply::Shell(answer))),
        None => Ok(None),
    }
}

/// Reads the reply of an entry. Where two print alike, the one on this side is meant; `vary` is
/// whether the entry's command is VARY, which tells a loss behind OK.
pub fn reply<T: Answer + Drop>(
    alloc: Global,
    connectors: &[Name16],
    words: &Words,
    vary: bool,
    side: Side,
) -> Result<Option<Reply<T>>, NoMemory>
    requires { length connectors.now ≤ CONNECTORS }
    ensures { IfOk result (λ r. r ≡ reply_at connectors.now
        (T.answers connectors.now) vary side words.now) }
{
    if let Some(refusal) = refused(connectors, words) {
        return Ok(Some(Reply::Refused(refusal)));
    }
    match side {
        Side::Common => common_first(alloc, connectors, words, vary),
        Side::Content => content_first(alloc, connectors, words, vary),
        Side::Around => around_first(alloc, connectors, words, vary),
    }
}
