//! The entries of a history, one line each.

ghost use Rattle.std.specs.Prelude.{◌≡◌, ◌<◌, ℕ, List, [], ◌∷◌, length, replicate, IfOk, IfErr, IfSome, IfNone};
ghost use Rattle.cf_types.specs.declared.numbers.StrNo.{StrNo};
ghost use Rattle.plex_script.specs.declared.scripts.AnyAsk.TheVariants as any;
ghost use Rattle.plex_script.specs.declared.scripts.Script.{Script};
ghost use Rattle.plex_script.specs.Limits.{KeepsLimits};
ghost use Rattle.plex_report.specs.CommandWords.{alter_words, queue_words, lock_words};
ghost use Rattle.plex_report.specs.Lines.{entry_line};
ghost use Rattle.plex_report.specs.ReplyWords.{alter_reply_words, queue_reply_words, lock_reply_words};
ghost use Rattle.reply_rows.specs.Within.{IsAlterReply, IsQueueReply, IsLockReply};
ghost use Rattle.reply_rows.specs.Contents.{alter_answers, queue_answers, lock_answers};
ghost use Rattle.report_lines.specs.Picked.{IsPicked};
ghost use Rattle.report_lines.specs.Readable.{IsEntry};
ghost use Rattle.report_fronts.specs.Slots.Slot.{Entered};
ghost use Rattle.report_read.specs.Lines.{IsPlaced};
ghost use Rattle.report_read.specs.Reads.{IsRead, AreRead, IsStop};
ghost use Rattle.report_read.specs.Histories.{Shows};

use crate::cursor::{Cursor, TextBad, next_line};
use cf_types::{
    AlterCmd, AlterReply, CacheCmd, CacheReply, Listing, LockCmd, LockReply, NoMemory, QueueCmd,
    QueueReply, StrNo,
};
use engine_api::Entry;
use plex_script::Script;
use report_lines::{read_cache_entry, read_list_entry, read_lock_entry};
use std::alloc::Global;

/// An entry of a history of one kind, as a line shows it: what it prints, where it may stand in the
/// history of a structure, and where it is the one that is meant of those that print alike.
pub(crate) trait EntryLine: Sized {
    ghost prints: { Script → Self → List ℕ };

    ghost may: { Script → StrNo → Self → Type 0 };

    ghost meant: { Script → StrNo → Self → Type 0 };

    /// Reads it from its line, without the line feed; `None` where no entry of the structure prints
    /// so.
    fn read(
        alloc: Global,
        script: &Script,
        on: StrNo,
        line: &[u8],
    ) -> Result<Option<Self>, NoMemory>
        requires keeps { KeepsLimits script.now }
        requires known { on.0 < length script.now.structures }
        ensures found { IfOk result (λ read. IfSome read (λ entry.
            (prints script.now entry ≡ line.now) × may script.now on entry)) }
        ensures picked { IfOk result (λ read. IfSome read (meant script.now on)) }
        ensures none { IfOk result (λ read. IfNone read ((entry : Self) → may script.now on entry
            → prints script.now entry ≡ line.now → ⊥)) };
}

impl EntryLine for Entry<AlterCmd<CacheCmd>, AlterReply<CacheReply>> {
    ghost prints = { entry_line alter_words alter_reply_words };

    ghost may = { IsEntry (λ asked. any.Cache asked) IsAlterReply };

    ghost meant = { IsPicked (λ asked. any.Cache asked) alter_reply_words alter_answers };

    fn read(
        alloc: Global,
        script: &Script,
        on: StrNo,
        line: &[u8],
    ) -> Result<Option<Entry<AlterCmd<CacheCmd>, AlterReply<CacheReply>>>, NoMemory> {
        read_cache_entry(alloc, script, on, line)
    }
}

impl EntryLine for Entry<QueueCmd, QueueReply> {
    ghost prints = { entry_line queue_words queue_reply_words };

    ghost may = { IsEntry (λ asked. any.List asked) IsQueueReply };

    ghost meant = { IsPicked (λ asked. any.List asked) queue_reply_words queue_answers };

    fn read(
        alloc: Global,
        script: &Script,
        on: StrNo,
        line: &[u8],
    ) -> Result<Option<Entry<QueueCmd, QueueReply>>, NoMemory> {
        read_list_entry(alloc, script, on, line)
    }
}

impl EntryLine for Entry<LockCmd, LockReply> {
    ghost prints = { entry_line lock_words lock_reply_words };

    ghost may = { IsEntry (λ asked. any.Lock asked) (λ _. IsLockReply) };

    ghost meant = { IsPicked (λ asked. any.Lock asked) lock_reply_words lock_answers };

    fn read(
        alloc: Global,
        script: &Script,
        on: StrNo,
        line: &[u8],
    ) -> Result<Option<Entry<LockCmd, LockReply>>, NoMemory> {
        read_lock_entry(alloc, script, on, line)
    }
}

// Reads an entry from the next line.
fn one_entry<E: EntryLine + Drop>(
    alloc: Global,
    script: &Script,
    on: StrNo,
    text: &[u8],
    from: Cursor,
) -> Result<(E, Cursor), TextBad>
    requires keeps { KeepsLimits script.now }
    requires known { on.0 < length script.now.structures }
    requires small { length text.now < 4294967295 }
    requires placed { IsPlaced text.now from }
    requires shows { Shows E.prints E.may script.now on }
    ensures read { IfOk result (λ step. (E.may script.now on step.0 × E.meant script.now on step.0)
        × IsRead script.now text.now from (Entered on ∷ []) (E.prints script.now step.0 ∷ []) []
        step.1) }
    ensures stop { IfErr result (IsStop script.now text.now from (Entered on ∷ [])) }
{
    let Some((line, to)) = next_line(text, from) else {
        return Err(TextBad::Line {
            line: from.count + 1,
        });
    };
    match E::read(alloc, script, on, line)? {
        Some(entry) => Ok((entry, to)),
        None => Err(TextBad::Line {
            line: from.count + 1,
        }),
    }
}

/// Reads so many entries of a structure, one line each.
#[tactic(auto, using(crate::proofs::ManyLaws::none_read))]
pub(crate) fn read_entries<E: EntryLine + Drop>(
    alloc: Global,
    script: &Script,
    on: StrNo,
    n: u64,
    text: &[u8],
    from: Cursor,
) -> Result<(Listing<E>, Cursor), TextBad>
    requires keeps { KeepsLimits script.now }
    requires known { on.0 < length script.now.structures }
    requires small { length text.now < 4294967295 }
    requires placed { IsPlaced text.now from }
    requires shows { Shows E.prints E.may script.now on }
    ensures read { IfOk result (λ step. AreRead script.now text.now from (Entered on)
        (E.prints script.now) (λ entry. E.may script.now on entry × E.meant script.now on entry) n
        step.0 step.1) }
    ensures stop { IfErr result (IsStop script.now text.now from (replicate n (Entered on))) }
{
    let mut entries = Listing::new(alloc);
    let mut to = from;
    for _ in 0..n {
        let (entry, next) = one_entry::<E>(alloc, script, on, text, to)?;
        entries.push(entry)?;
        to = next;
    }
    Ok((entries, to))
}
