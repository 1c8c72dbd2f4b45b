//! The lines of a history.

ghost use Rattle.std.specs.Prelude.{◌≡◌, ◌<◌, ◌≤◌, ◌^◌, ◌∷◌, ◌++◌, ℕ, List, [], Bool, false, true, length, codes, IfOk, IfSome, IfNone, OnOk, if◌then◌else◌, Some, None};
ghost use Rattle.cf_types.specs.declared.limits.TheConstants.{CONNECTORS};
ghost use Rattle.cf_types.specs.Forms.{IsFacility};
ghost use Rattle.plex_spell.specs.Words.{same_word, tail_of};
ghost use Rattle.plex_plain.specs.Naming.{facility_word};
ghost use Rattle.plex_script.specs.declared.scripts.AnyAsk.{AnyAsk};
ghost use Rattle.plex_script.specs.declared.scripts.AnyAsk.TheVariants as any;
ghost use Rattle.plex_script.specs.Causes.{caller_of};
ghost use Rattle.plex_script.specs.Commands.{MakesCommand};
ghost use Rattle.plex_script.specs.Limits.{KeepsLimits};
ghost use Rattle.plex_report.specs.CommandWords.{alter_words, queue_words, lock_words};
ghost use Rattle.plex_report.specs.Lines.{is_of_vary, entry_line};
ghost use Rattle.plex_report.specs.ReplyWords.{alter_reply_words, queue_reply_words, lock_reply_words};
ghost use Rattle.engine_api.specs.declared.asks.Ask.{Ask};
ghost use Rattle.engine_api.specs.declared.asks.What.TheVariants as what;
ghost use Rattle.engine_api.specs.declared.histories.Entry.{Entry};
ghost use Rattle.cf_types.specs.declared.numbers.CfId.{CfId};
ghost use Rattle.cf_types.specs.declared.alter_commands.AlterCmd.{AlterCmd};
ghost use Rattle.cf_types.specs.declared.alter_commands.AlterReply.{AlterReply};
ghost use Rattle.cf_types.specs.declared.cache_commands.CacheCmd.{CacheCmd};
ghost use Rattle.cf_types.specs.declared.cache_commands.CacheReply.{CacheReply};
ghost use Rattle.cf_types.specs.declared.list_commands.QueueCmd.{QueueCmd};
ghost use Rattle.cf_types.specs.declared.list_commands.QueueReply.{QueueReply};
ghost use Rattle.cf_types.specs.declared.lock_commands.LockCmd.{LockCmd};
ghost use Rattle.cf_types.specs.declared.lock_commands.LockReply.{LockReply};
ghost use Rattle.reply_rows.specs.Contents.{alter_answers, queue_answers, lock_answers};
ghost use Rattle.reply_rows.specs.Within.{IsAlterReply, IsQueueReply, IsLockReply};
ghost use Rattle.report_lines.specs.Entries.{is_free, IsCutLine, any_words, StandsAs, is_loss, loss_alone, call_entry, mark_entry};
ghost use Rattle.report_lines.specs.Kinds.{IsKind};
ghost use Rattle.report_lines.specs.Picked.{IsPicked};
ghost use Rattle.report_lines.specs.Readable.{IsEntry};

use crate::kinds::{Command, Told};
use crate::replies::reply_in;
use cf_types::{
    AlterCmd, AlterReply, CacheCmd, CacheReply, CfId, ConnId, LockCmd, LockReply, Name16, NoMemory,
    QueueCmd, QueueReply, ShellCmd, ShellReply, StrNo,
};
use engine_api::{Ask, Entry, Reply, What};
use plex_plain::{put_alter, put_lock, put_queue, put_shell};
use plex_script::{AnyAsk, CommandBad, Script, read_command};
use plex_spell::singles::facility_number;
use plex_spell::texts::cut;
use plex_spell::{Rigour, connector_number, is, number};
use reply_read::Answer;
use reply_rows::{Side, asked_side};
use std::alloc::Global;

// What stands before the last `>`, and behind it.
fn last_mark(line: &[u8]) -> Option<(&[u8], &[u8])>
    ensures found { IfSome result (λ parts. (line.now ≡ parts.0.now ++ 62 ∷ parts.1.now)
        × (is_free 62 parts.1.now ≡ true)) }
    ensures none { IfNone result (is_free 62 line.now ≡ true) }
{
    let mut rest = line;
    while let [more @ .., last] = rest {
        if *last == b'>' {
            return Some((more, &line[rest.len()..]));
        }
        rest = more;
    }
    None
}

// What stands before a blank and a dash.
fn before_dash(text: &[u8]) -> Option<&[u8]>
    ensures found { IfSome result (λ front. text.now ≡ front.now ++ 32 ∷ 45 ∷ []) }
    ensures none { IfNone result ((front : List ℕ) → text.now ≡ front ++ 32 ∷ 45 ∷ [] → ⊥) }
{
    match text {
        [front @ .., b' ', b'-'] => Some(front),
        _ => None,
    }
}

// What stands behind a blank.
fn behind_blank(text: &[u8]) -> Option<&[u8]>
    ensures found { IfSome result (λ rest. text.now ≡ 32 ∷ rest.now) }
    ensures none { IfNone result ((rest : List ℕ) → text.now ≡ 32 ∷ rest → ⊥) }
{
    match text {
        [b' ', rest @ ..] => Some(rest),
        _ => None,
    }
}

// What stands before the last arrow, and behind it.
#[tactic(auto, using(crate::proofs::PartLaws::no_mark))]
fn arrow_cut(line: &[u8]) -> Option<(&[u8], &[u8])>
    ensures found { IfSome result (λ parts.
        (line.now ≡ parts.0.now ++ 32 ∷ 45 ∷ 62 ∷ 32 ∷ parts.1.now)
        × (is_free 62 parts.1.now ≡ true)) }
    ensures none { IfNone result ((front told : List ℕ)
        → line.now ≡ front ++ 32 ∷ 45 ∷ 62 ∷ 32 ∷ told → is_free 62 told ≡ true → ⊥) }
{
    let (before, behind) = last_mark(line)?;
    let front = before_dash(before)?;
    let told = behind_blank(behind)?;
    Some((front, told))
}

// An entry's line, cut into its number, who, what was done, and what was told of it.
#[derive(Clone, Copy)]
struct EntryParts<'a> {
    no: u32,
    who: &'a [u8],
    done: &'a [u8],
    told: &'a [u8],
}

fn parts(line: &[u8]) -> Option<EntryParts>
    ensures found { IfSome result (λ p. IsCutLine line.now p.no p.who.now p.done.now p.told.now) }
    ensures none { IfNone result ((n : ℕ) (who done told : List ℕ)
        → IsCutLine line.now n who done told → ⊥) }
{
    let (front, told) = arrow_cut(line)?;
    let (digits, rest) = cut(front, b' ')?;
    let (who, done) = cut(rest, b' ')?;
    let no = number(Rigour::Names, digits, 0, u32::MAX)?;
    Some(EntryParts {
        no,
        who,
        done,
        told,
    })
}

// The facility that a mark says is lost.
fn lost_facility(done: &[u8]) -> Option<CfId>
    ensures found { IfSome result (λ cf. (done.now ≡ codes "LOST " ++ facility_word cf)
        × IsFacility cf) }
    ensures none { IfNone result ((cf : CfId) → IsFacility cf
        → done.now ≡ codes "LOST " ++ facility_word cf → ⊥) }
{
    let (word, rest) = cut(done, b' ')?;
    if is(word, b"LOST") {
        return facility_number(rest);
    }
    None
}

// The caller of this name.
#[tactic(auto, using(crate::proofs::EntryLaws::caller_bound))]
fn caller(connectors: &[Name16], who: &[u8]) -> Option<ConnId>
    requires { length connectors.now ≤ CONNECTORS }
    ensures value { result ≡ caller_of connectors.now who.now }
    ensures known { IfSome result (λ by. by.0 ≤ length connectors.now) }
{
    if is(who, b"OP") {
        return Some(ConnId(0));
    }
    connector_number(connectors, who)
}

// Puts the words of a call to a line, with a blank before each.
fn put_asked(line: &mut Vec<u8>, connectors: &[Name16], asked: &AnyAsk) -> Result<(), NoMemory>
    ensures { OnOk result (line.new.items ≡ line.old.items
        ++ tail_of (any_words connectors.now asked.now)) }
{
    match asked {
        AnyAsk::Cache(Ask::Shell(cmd)) => put_shell(line, connectors, cmd),
        AnyAsk::Cache(Ask::Content(cmd)) => put_alter(line, cmd),
        AnyAsk::List(Ask::Shell(cmd)) => put_shell(line, connectors, cmd),
        AnyAsk::List(Ask::Content(cmd)) => put_queue(line, cmd),
        AnyAsk::Lock(Ask::Shell(cmd)) => put_shell(line, connectors, cmd),
        AnyAsk::Lock(Ask::Content(cmd)) => put_lock(line, connectors, cmd),
    }
}

// Whether the text is this one behind a blank.
fn is_behind_blank(line: &[u8], text: &[u8]) -> bool
    ensures { result ≡ same_word line.now (32 ∷ text.now) }
{
    match line {
        [] => false,
        [first, rest @ ..] => *first == b' ' && is(rest, text),
    }
}

// Whether the call stands in a line so.
fn stands_as(
    alloc: Global,
    connectors: &[Name16],
    asked: &AnyAsk,
    text: &[u8],
) -> Result<bool, NoMemory>
    ensures { IfOk result (λ so. so
        ≡ same_word (tail_of (any_words connectors.now asked.now)) (32 ∷ text.now)) }
{
    let mut line = Vec::new(alloc);
    put_asked(&mut line, connectors, asked)?;
    Ok(is_behind_blank(line.as_slice(), text))
}

// The call that the text makes, where it stands there plainly.
#[tactic(auto, using(crate::proofs::EntryLaws::stands_plainly))]
fn plain_command(
    alloc: Global,
    script: &Script,
    on: StrNo,
    by: ConnId,
    text: &[u8],
) -> Result<Option<AnyAsk>, NoMemory>
    requires keeps { KeepsLimits script.now }
    requires known { on.0 < length script.now.structures }
    requires caller { by.0 ≤ length script.now.connectors }
    ensures found { IfOk result (λ call. IfSome call (λ asked.
        MakesCommand script.now on by text.now asked
        × StandsAs script.now.connectors asked text.now)) }
    ensures none { IfOk result (λ call. IfNone call ((asked : AnyAsk) (other : List ℕ)
        → MakesCommand script.now on by other asked
        → StandsAs script.now.connectors asked text.now → ⊥)) }
{
    let asked = match read_command(alloc, script, on, by, text) {
        Ok(asked) => asked,
        Err(CommandBad::NotOne) => return Ok(None),
        Err(CommandBad::NoMemory(cause)) => return Err(cause),
    };
    if stands_as(alloc, script.connectors.items(), &asked, text)? {
        Ok(Some(asked))
    } else {
        Ok(None)
    }
}

// Whether it is VARY.
fn is_vary<C>(asked: &Ask<C>) -> bool
    ensures { result ≡ is_of_vary (what.Call asked.now) }
{
    match asked {
        Ask::Shell(ShellCmd::Vary { .. }) => true,
        _ => false,
    }
}

// The entry of a call, where the reply is one; the side is that of its command.
fn call_entry<C: Drop, R: Answer + Drop>(
    alloc: Global,
    connectors: &[Name16],
    no: u32,
    by: ConnId,
    side: Side,
    asked: Ask<C>,
    told: &[u8],
) -> Result<Option<Entry<C, R>>, NoMemory>
    requires { length connectors.now ≤ CONNECTORS }
    ensures { IfOk result (λ entry. entry ≡ call_entry connectors.now
        (R.answers connectors.now) no by side asked told.now) }
{
    let vary = is_vary(&asked);
    match reply_in(alloc, connectors, told, vary, side)? {
        None => Ok(None),
        Some(reply) => Ok(Some(Entry {
            no,
            by,
            what: What::Call(asked),
            reply,
        })),
    }
}

// Whether it tells of a loss.
fn is_loss(answer: &ShellReply) -> bool
    ensures { result ≡ is_loss answer.now }
{
    match answer {
        ShellReply::Simplex { .. } => true,
        ShellReply::Stopped { .. } => true,
        ShellReply::FailedNow => true,
        _ => false,
    }
}

// The reply, where it tells of a loss.
fn loss_alone<R: Drop>(reply: Reply<R>) -> Option<Reply<R>>
    ensures { result ≡ loss_alone reply }
{
    match reply {
        Reply::Shell(answer) if is_loss(&answer) => Some(Reply::Shell(answer)),
        _ => None,
    }
}

// The entry of a mark, where the reply tells of a loss.
fn mark_entry<C: Drop, R: Answer + Drop>(
    alloc: Global,
    connectors: &[Name16],
    no: u32,
    cf: CfId,
    told: &[u8],
) -> Result<Option<Entry<C, R>>, NoMemory>
    requires { length connectors.now ≤ CONNECTORS }
    ensures { IfOk result (λ entry. entry ≡ mark_entry connectors.now
        (R.answers connectors.now) no cf told.now) }
{
    let Some(told) = reply_in(alloc, connectors, told, false, Side::Common)? else {
        return Ok(None);
    };
    match loss_alone(told) {
        None => Ok(None),
        Some(reply) => Ok(Some(Entry {
            no,
            by: ConnId(0),
            what: What::Lost(cf),
            reply,
        })),
    }
}

// Reads an entry of a structure's history, whatever its kind.
fn read_entry<C: Command + Drop, R: Told + Drop>(
    alloc: Global,
    script: &Script,
    on: StrNo,
    line: &[u8],
) -> Result<Option<Entry<C, R>>, NoMemory>
    requires keeps { KeepsLimits script.now }
    requires known { on.0 < length script.now.structures }
    requires kind { IsKind C.asked C.words R.told R.answers R.within }
    ensures found { IfOk result (λ read. IfSome read (λ entry.
        (entry_line C.words R.told script.now entry ≡ line.now)
        × IsEntry C.asked R.within script.now on entry)) }
    ensures picked { IfOk result (λ read. IfSome read (IsPicked C.asked R.told R.answers
        script.now on)) }
    ensures none { IfOk result (λ read. IfNone read ((entry : Entry C R)
        → IsEntry C.asked R.within script.now on entry
        → entry_line C.words R.told script.now entry ≡ line.now → ⊥)) }
{
    let Some(parts) = parts(line) else {
        return Ok(None);
    };
    let connectors = script.connectors.items();
    if is(parts.who, b"SYS") {
        let Some(cf) = lost_facility(parts.done) else {
            return Ok(None);
        };
        return mark_entry(alloc, connectors, parts.no, cf, parts.told);
    }
    let Some(by) = caller(connectors, parts.who) else {
        return Ok(None);
    };
    let Some(call) = plain_command(alloc, script, on, by, parts.done)? else {
        return Ok(None);
    };
    let side = asked_side(&call);
    let Some(asked) = C::of_call(call) else {
        return Ok(None);
    };
    call_entry(alloc, connectors, parts.no, by, side, asked, parts.told)
}

/// Reads an entry of the history of a cache structure from its line, without the line feed: what
/// prints as exactly this line, a call that some text makes or a mark, with a reply in range.
/// Where several print alike, it is the one that is read of its words. `None` where no entry of the
/// structure prints so.
///
/// # Errors
///
/// `NoMemory` where there was no memory for what the line says.
pub fn read_cache_entry(
    alloc: Global,
    script: &Script,
    on: StrNo,
    line: &[u8],
) -> Result<Option<Entry<AlterCmd<CacheCmd>, AlterReply<CacheReply>>>, NoMemory>
    requires keeps { KeepsLimits script.now }
    requires known { on.0 < length script.now.structures }
    ensures found { IfOk result (λ read. IfSome read (λ entry.
        (entry_line alter_words alter_reply_words script.now entry ≡ line.now)
        × IsEntry (λ asked. any.Cache asked) IsAlterReply script.now on entry)) }
    ensures picked { IfOk result (λ read. IfSome read (IsPicked (λ asked. any.Cache asked)
        alter_reply_words alter_answers script.now on)) }
    ensures none { IfOk result (λ read. IfNone read
        ((entry : Entry (AlterCmd CacheCmd) (AlterReply CacheReply))
        → IsEntry (λ asked. any.Cache asked) IsAlterReply script.now on entry
        → entry_line alter_words alter_reply_words script.now entry ≡ line.now → ⊥)) }
{
    read_entry(alloc, script, on, line)
}

/// Reads an entry of the history of a list structure from its line, without the line feed: what
/// prints as exactly this line, a call that some text makes or a mark, with a reply in range.
/// Where several print alike, it is the one that is read of its words. `None` where no entry of the
/// structure prints so.
///
/// # Errors
///
/// `NoMemory` where there was no memory for what the line says.
pub fn read_list_entry(
    alloc: Global,
    script: &Script,
    on: StrNo,
    line: &[u8],
) -> Result<Option<Entry<QueueCmd, QueueReply>>, NoMemory>
    requires keeps { KeepsLimits script.now }
    requires known { on.0 < length script.now.structures }
    ensures found { IfOk result (λ read. IfSome read (λ entry.
        (entry_line queue_words queue_reply_words script.now entry ≡ line.now)
        × IsEntry (λ asked. any.List asked) IsQueueReply script.now on entry)) }
    ensures picked { IfOk result (λ read. IfSome read (IsPicked (λ asked. any.List asked)
        queue_reply_words queue_answers script.now on)) }
    ensures none { IfOk result (λ read. IfNone read ((entry : Entry QueueCmd QueueReply)
        → IsEntry (λ asked. any.List asked) IsQueueReply script.now on entry
        → entry_line queue_words queue_reply_words script.now entry ≡ line.now → ⊥)) }
{
    read_entry(alloc, script, on, line)
}

/// Reads an entry of the history of a lock structure from its line, without the line feed: what
/// prints as exactly this line, a call that some text makes or a mark, with a reply in range.
/// Where several print alike, it is the one that is read of its words. `None` where no entry of the
/// structure prints so.
///
/// # Errors
///
/// `NoMemory` where there was no memory for what the line says.
pub fn read_lock_entry(
    alloc: Global,
    script: &Script,
    on: StrNo,
    line: &[u8],
) -> Result<Option<Entry<LockCmd, LockReply>>, NoMemory>
    requires keeps { KeepsLimits script.now }
    requires known { on.0 < length script.now.structures }
    ensures found { IfOk result (λ read. IfSome read (λ entry.
        (entry_line lock_words lock_reply_words script.now entry ≡ line.now)
        × IsEntry (λ asked. any.Lock asked) (λ _. IsLockReply) script.now on entry)) }
    ensures picked { IfOk result (λ read. IfSome read (IsPicked (λ asked. any.Lock asked)
        lock_reply_words lock_answers script.now on)) }
    ensures none { IfOk result (λ read. IfNone read ((entry : Entry LockCmd LockReply)
        → IsEntry (λ asked. any.Lock asked) (λ _. IsLockReply) script.now on entry
        → entry_line lock_words lock_reply_words script.now entry ≡ line.now → ⊥)) }
{
    read_entry(alloc, script, on, line)
}
