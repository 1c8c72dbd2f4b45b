ghost use Rattle.std.specs.Prelude.{◌≡◌, ◌≤◌, ◌↔◌, true, false, drop, length, [], IfSome, IfNone};
ghost use Rattle.std.specs.List.{position};
ghost use Rattle.std.specs.Option.{option_copied};
ghost use Rattle.caller_slots.specs.RunShown.EngineApi.History.{own};
ghost use Rattle.caller_slots.specs.RunShown.Kinds.{IsOfKind};
ghost use Rattle.caller_walk.specs.Heard.{is_own, cache_ask, left_at, list_ask, lock_ask, AsksThis, IsOwnAt, IsHeardFirst, IsNext};

use call_same::Same;
use caller_slots::shown::scripts::api::{Ask, Entry, Told, What};
use caller_slots::shown::scripts::types::{
    AlterCmd, CacheCmd, ConnId, Kind, LockCmd, QueueCmd, ShellCmd,
};
use caller_slots::shown::scripts::{AnyAsk, AnyHistory, Step};

/// What a caller's next call tells.
#[derive(Clone, Copy)]
pub struct Heard {
    /// What the caller was told of it.
    pub told: Told,
    /// It asks what the caller's step asks.
    pub as_asked: bool,
    /// The place of the entry behind it, from 0.
    pub next: usize,
}

// Whether an entry is a call of this caller.
fn is_own<C, R>(entry: &Entry<C, R>, conn: ConnId) -> bool
    ensures { result ≡ is_own conn entry.now }
{
    match &entry.what {
        What::Call(_) => entry.by.0 == conn.0,
        What::Lost(_) => false,
    }
}

// The place of a caller's first call among these.
fn first_own<C, R>(entries: &[Entry<C, R>], conn: ConnId) -> Option<usize>
    ensures { result ≡ position (is_own conn) entries.now }
{
    entries.iter().position(|entry| is_own(entry, conn))
}

// The entries behind so many.
#[tactic(auto, using(crate::proofs::OwnLaws::tail_is))]
fn behind<C, R>(entries: &[Entry<C, R>], from: usize) -> &[Entry<C, R>]
    requires { from ≤ length entries.now }
    ensures { result.now ≡ drop from entries.now }
{
    &entries[from..]
}

// The place of a caller's first call behind so many entries.
#[tactic(auto, using(crate::proofs::OwnLaws::own_past))]
fn next_own<C, R>(entries: &[Entry<C, R>], conn: ConnId, from: usize) -> Option<usize>
    ensures none { IfNone result (own (drop from entries.now) conn ≡ []) }
    ensures place { IfSome result (IsOwnAt conn entries.now from) }
{
    if entries.len() <= from {
        return None;
    }
    match first_own(behind(entries, from), conn) {
        None => None,
        Some(place) => Some(from + place),
    }
}

// Whether a call asks what a step asks.
fn asks_this<C: Same>(now: Step, line: Option<&Ask<C>>, asked: &Ask<C>) -> bool
    ensures { (result ≡ true) ↔ AsksThis now (option_copied line.entry) asked.now }
{
    match now {
        Step::Call { .. } => match line {
            Some(ask) => ask.is_same(asked),
            None => false,
        },
        Step::Next { .. } => matches!(asked, Ask::Shell(ShellCmd::Next)),
        Step::Respond { .. } => matches!(asked, Ask::Shell(ShellCmd::Respond)),
        Step::Rest => false,
    }
}

// A caller's first call behind so many entries.
fn first_heard<C: Same, R>(
    entries: &[Entry<C, R>],
    conn: ConnId,
    from: usize,
    now: Step,
    line: Option<&Ask<C>>,
) -> Option<Heard>
    ensures { IsHeardFirst now (option_copied line.entry) conn entries.now from result }
{
    let Some(place) = next_own(entries, conn, from) else {
        return None;
    };
    let entry = &entries[place];
    match &entry.what {
        What::Call(asked) => Some(Heard {
            told: Told::of(entry.no, asked, &entry.reply),
            as_asked: asks_this(now, line, asked),
            next: place + 1,
        }),
        What::Lost(_) => unreachable!(),
    }
}

// The line's call, if it is one of a cache.
fn cache_ask(line: Option<&AnyAsk>) -> Option<&Ask<AlterCmd<CacheCmd>>>
    ensures { option_copied result ≡ cache_ask (option_copied line.entry) }
{
    match line {
        Some(AnyAsk::Cache(ask)) => Some(ask),
        _ => None,
    }
}

// The same of a list.
fn list_ask(line: Option<&AnyAsk>) -> Option<&Ask<QueueCmd>>
    ensures { option_copied result ≡ list_ask (option_copied line.entry) }
{
    match line {
        Some(AnyAsk::List(ask)) => Some(ask),
        _ => None,
    }
}

// The same of a lock structure.
fn lock_ask(line: Option<&AnyAsk>) -> Option<&Ask<LockCmd>>
    ensures { option_copied result ≡ lock_ask (option_copied line.entry) }
{
    match line {
        Some(AnyAsk::Lock(ask)) => Some(ask),
        _ => None,
    }
}

/// A caller's first call behind so many entries of a history, held against what its step asks of a
/// structure of this kind.
#[tactic(auto, using(crate::proofs::HeardLaws::heard_cache, crate::proofs::HeardLaws::heard_list, crate::proofs::HeardLaws::heard_lock))]
pub(crate) fn next_heard(
    history: &AnyHistory,
    kind: Kind,
    conn: ConnId,
    from: usize,
    now: Step,
    line: Option<&AnyAsk>,
) -> Option<Heard>
    requires { IsOfKind kind history.now }
    ensures { IsNext kind (option_copied line.entry) now conn history.now from result }
{
    let _ = kind;
    match history {
        AnyHistory::Cache(entries) => {
            first_heard(entries.entries(), conn, from, now, cache_ask(line))
        }
        AnyHistory::List(entries) => first_heard(
            entries.entries(),
            conn,
            from,
            now,
            list_ask(line),
        ),
        AnyHistory::Lock(entries) => first_heard(
            entries.entries(),
            conn,
            from,
            now,
            lock_ask(line),
        ),
    }
}

// Whether a caller has a call behind so many entries.
fn has_call<C, R>(entries: &[Entry<C, R>], conn: ConnId, from: usize) -> bool
    ensures { (result ≡ false) ↔ (own (drop from entries.now) conn ≡ []) }
{
    next_own(entries, conn, from).is_some()
}

/// Whether a caller has a call behind so many entries of a history.
#[tactic(auto, using(crate::proofs::HeardLaws::left_none))]
pub(crate) fn has_own(history: &AnyHistory, conn: ConnId, from: usize) -> bool
    ensures { (result ≡ false) ↔ (left_at conn history.now from ≡ []) }
{
    match history {
        AnyHistory::Cache(entries) => has_call(entries.entries(), conn, from),
        AnyHistory::List(entries) => has_call(entries.entries(), conn, from),
        AnyHistory::Lock(entries) => has_call(entries.entries(), conn, from),
    }
}
