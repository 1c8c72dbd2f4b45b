ghost use Rattle.std.specs.Prelude.{◌≡◌};
ghost use Rattle.plex_plain.specs.PlexSpell.Places.{Gives, Reads, names_of};
ghost use Rattle.plex_plain.specs.PlexSpell.ShellWords.{may_give, is_operator};
ghost use Rattle.plex_script.specs.LineWords.{has_vectors};
ghost use Rattle.plex_script.specs.LineReading.{cache_ask_at, list_ask_at, lock_ask_at, any_ask_at, retry_at, call_at, own_at, is_own, done_at, act_at};

use crate::scripts::{Act, AnyAsk};
use cf_types::{AlterCmd, CacheCmd, ConnId, Kind, LockCmd, QueueCmd, ShellCmd};
use engine_api::Ask;
use plex_plain::spell::{Judge, Miss, Words, alter, fields, lock, queue, shell};
use std::alloc::Global;

/// Whether the caller is the operator.
pub(crate) fn is_operator(by: ConnId) -> bool
    ensures { result ≡ is_operator by }
{
    by.0 == 0
}

// Whether the caller may give the command.
fn may_give(by: ConnId, cmd: &ShellCmd) -> bool
    ensures { result ≡ may_give by cmd.now }
{
    match cmd {
        ShellCmd::Connect { .. } => !is_operator(by),
        ShellCmd::Disconnect => !is_operator(by),
        ShellCmd::Fail => !is_operator(by),
        ShellCmd::Next => !is_operator(by),
        ShellCmd::Respond => !is_operator(by),
        ShellCmd::RebuildStart { .. } => true,
        ShellCmd::RebuildStop => true,
        ShellCmd::RebuildConnect => !is_operator(by),
        ShellCmd::Copy { .. } => !is_operator(by),
        ShellCmd::RebuildComplete => !is_operator(by),
        ShellCmd::ForceConn { .. } => is_operator(by),
        ShellCmd::ForceStr => is_operator(by),
        ShellCmd::LoseConn { .. } => is_operator(by),
        ShellCmd::RestoreConn { .. } => is_operator(by),
        ShellCmd::Vary { .. } => is_operator(by),
        ShellCmd::DuplexStart => is_operator(by),
        ShellCmd::DuplexStop => is_operator(by),
    }
}

// Whether structures of the kind have vectors.
fn has_vectors(kind: Kind) -> bool
    ensures { result ≡ has_vectors kind }
{
    match kind {
        Kind::Cache => true,
        Kind::List { .. } => true,
        Kind::Lock => false,
    }
}

fn cache_ask(
    alloc: Global,
    judge: &Judge,
    by: ConnId,
    words: &mut Words,
) -> Result<Ask<AlterCmd<CacheCmd>>, Miss>
    ensures { Gives result words.new
        (cache_ask_at judge.now.rigour (names_of judge.now) by words.old) }
{
    let mut ahead = words.again();
    match shell(judge, &mut ahead) {
        Ok(cmd) => {
            *words = ahead;
            if may_give(by, &cmd) {
                Ok(Ask::Shell(cmd))
            } else {
                Err(Miss::NoForm)
            }
        }
        Err(Miss::NoMemory(cause)) => Err(Miss::NoMemory(cause)),
        Err(Miss::NoForm) => {
            if is_operator(by) {
                return Err(Miss::NoForm);
            }
            Ok(Ask::Content(alter(alloc, judge, words)?))
        }
    }
}

fn list_ask(
    alloc: Global,
    judge: &Judge,
    by: ConnId,
    words: &mut Words,
) -> Result<Ask<QueueCmd>, Miss>
    ensures { Gives result words.new
        (list_ask_at judge.now.rigour (names_of judge.now) by words.old) }
{
    let mut ahead = words.again();
    match shell(judge, &mut ahead) {
        Ok(cmd) => {
            *words = ahead;
            if may_give(by, &cmd) {
                Ok(Ask::Shell(cmd))
            } else {
                Err(Miss::NoForm)
            }
        }
        Err(Miss::NoMemory(cause)) => Err(Miss::NoMemory(cause)),
        Err(Miss::NoForm) => {
            if is_operator(by) {
                return Err(Miss::NoForm);
            }
            Ok(Ask::Content(queue(alloc, judge, words)?))
        }
    }
}

fn lock_ask(judge: &Judge, by: ConnId, words: &mut Words) -> Result<Ask<LockCmd>, Miss>
    ensures { Gives result words.new
        (lock_ask_at judge.now.rigour (names_of judge.now) by words.old) }
{
    let mut ahead = words.again();
    match shell(judge, &mut ahead) {
        Ok(cmd) => {
            *words = ahead;
            if may_give(by, &cmd) {
                Ok(Ask::Shell(cmd))
            } else {
                Err(Miss::NoForm)
            }
        }
        Err(Miss::NoMemory(cause)) => Err(Miss::NoMemory(cause)),
        Err(Miss::NoForm) => {
            if is_operator(by) {
                return Err(Miss::NoForm);
            }
            Ok(Ask::Content(lock(judge, words)?))
        }
    }
}

fn any_ask(
    alloc: Global,
    judge: &Judge,
    by: ConnId,
    kind: Kind,
    words: &mut Words,
) -> Result<AnyAsk, Miss>
    ensures { Gives result words.new (any_ask_at judge.now.rigour
        (names_of judge.now) by kind words.old) }
{
    match kind {
        Kind::Cache => Ok(AnyAsk::Cache(cache_ask(alloc, judge, by, words)?)),
        Kind::List { .. } => Ok(AnyAsk::List(list_ask(alloc, judge, by, words)?)),
        Kind::Lock => Ok(AnyAsk::Lock(lock_ask(judge, by, words)?)),
    }
}

// A call, and how many times it is asked again.
fn call(
    alloc: Global,
    judge: &Judge,
    by: ConnId,
    kind: Kind,
    words: &mut Words,
) -> Result<(Act, u32), Miss>
    ensures { Gives result words.new
        (call_at judge.now.rigour (names_of judge.now) by kind words.old) }
{
    let ask = any_ask(alloc, judge, by, kind, words)?;
    let retry = fields::retry(judge.rigour, words)?;
    Ok((Act::Call(ask), retry.unwrap_or(0)))
}

// What asks the structure nothing.
fn own(judge: &Judge, kind: Kind, words: &mut Words) -> Result<(Act, u32), Miss>
    ensures { Gives result words.new (own_at judge.now.rigour kind words.old) }
{
    if words.skip(b"TEST") {
        if !has_vectors(kind) {
            return Err(Miss::NoForm);
        }
        return Ok((Act::Test(fields::number(judge.rigour, words)?), 0));
    }
    if words.skip(b"TESTWORD") {
        if !has_vectors(kind) {
            return Err(Miss::NoForm);
        }
        return Ok((Act::TestWord(fields::number(judge.rigour, words)?), 0));
    }
    if words.skip(b"POST") {
        return Ok((Act::Post, 0));
    }
    if words.skip(b"TAKE") {
        return Ok((Act::Take, 0));
    }
    if words.skip(b"EVENTS") {
        return Ok((Act::Events, 0));
    }
    Err(Miss::NoForm)
}

// Whether the words ask the structure nothing.
fn is_own(words: &Words) -> bool
    ensures { result ≡ is_own words.now }
{
    words.begins(b"TEST")
        || words.begins(b"TESTWORD")
        || words.begins(b"POST")
        || words.begins(b"TAKE")
        || words.begins(b"EVENTS")
}

fn done(
    alloc: Global,
    judge: &Judge,
    by: ConnId,
    kind: Kind,
    words: &mut Words,
) -> Result<(Act, u32), Miss>
    ensures { Gives result words.new
        (done_at judge.now.rigour (names_of judge.now) by kind words.old) }
{
    if !is_own(words) {
        return call(alloc, judge, by, kind, words);
    }
    if is_operator(by) {
        return Err(Miss::NoForm);
    }
    own(judge, kind, words)
}

/// Reads what a caller does at a structure of this kind, and how many times it is asked again, from
/// all the words behind who and structure.
pub(crate) fn act(
    alloc: Global,
    judge: &Judge,
    by: ConnId,
    kind: Kind,
    mut words: Words,
) -> Result<(Act, u32), Miss>
    ensures { Reads result (act_at judge.now.rigour (names_of judge.now) by kind words.entry) }
{
    let told = done(alloc, judge, by, kind, &mut words)?;
    if words.is_done() {
        Ok(told)
    } else {
        Err(Miss::NoForm)
    }
}
