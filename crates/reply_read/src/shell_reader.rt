ghost use Rattle.std.specs.Prelude.{◌≡◌, ◌≤◌, length, IfOk, codes};
ghost use Rattle.cf_types.specs.declared.shell_commands.ShellReply.TheVariants as shell;
ghost use Rattle.cf_types.specs.declared.limits.TheConstants.{CONNECTORS};
ghost use Rattle.cf_types.specs.declared.events.Event.TheVariants as event;
ghost use Rattle.line_rows.specs.Rows.{form, led};
ghost use Rattle.line_rows.specs.Singles.{a_connector, a_facility};
ghost use Rattle.reply_rows.specs.Parts.{a_resource, a_state, small, plain, with_one, with_two};
ghost use Rattle.reply_read.specs.Found.{Found, Skips};
ghost use Rattle.reply_rows.specs.Shells.{event_row, shell_row, told};

use crate::one_word::{OneWord, state};
use crate::rows::{one, plain, with_one, with_two};
use cf_types::{CfId, ConnId, Event, Name16, Resource, ShellReply};
use plex_spell::Words;

// A lock that was granted.
fn granted(connectors: &[Name16], line: &Words) -> Option<Event>
    requires { length connectors.now ≤ CONNECTORS }
    ensures { result ≡ form (with_two (codes "GRANTED") a_resource a_state)
        (λ v. event.Granted v.0 v.1.0) line.now }
{
    let mut words = line.again();
    if !words.skip(b"GRANTED") {
        return None;
    }
    let r: Resource = one(connectors, &mut words)?;
    let excl = state(words.next()?)?;
    if words.is_done() {
        Some(Event::Granted { r, excl })
    } else {
        None
    }
}

/// Reads an event.
pub fn event(connectors: &[Name16], words: &Words) -> Option<Event>
    requires { length connectors.now ≤ CONNECTORS }
    ensures { result ≡ (event_row connectors.now).values words.now }
{
    if let Some(conn) = with_one::<ConnId>(connectors, words, b"NEWCONN") {
        return Some(Event::NewConn { conn });
    }
    if let Some(conn) = with_one::<ConnId>(connectors, words, b"DISCFAIL") {
        return Some(Event::DiscFail { conn });
    }
    if let Some(number) = with_one::<u32>(connectors, words, b"QUIESCE") {
        return Some(Event::Quiesce { number });
    }
    if let Some(number) = with_one::<u32>(connectors, words, b"REBUILDCONNECT") {
        return Some(Event::RebuildConnect { number });
    }
    if let Some(number) = with_one::<u32>(connectors, words, b"CONNECTSDONE") {
        return Some(Event::ConnectsDone { number });
    }
    if let Some(number) = with_one::<u32>(connectors, words, b"CLEANUP") {
        return Some(Event::Cleanup { number });
    }
    if let Some(number) = with_one::<u32>(connectors, words, b"COMPLETE") {
        return Some(Event::Complete { number });
    }
    if let Some(number) = with_one::<u32>(connectors, words, b"STOP") {
        return Some(Event::Stop { number });
    }
    if let Some(number) = with_one::<u32>(connectors, words, b"STOPDONE") {
        return Some(Event::StopDone { number });
    }
    if let Some(cf) = with_one::<CfId>(connectors, words, b"LOSTCONN") {
        return Some(Event::LostConn { cf });
    }
    if plain(words, b"STRFAIL").is_some() {
        return Some(Event::StrFail);
    }
    if let Some((r, conn)) = with_two::<Resource, ConnId>(connectors, words, b"CONTENTION") {
        return Some(Event::Contention { r, conn });
    }
    if let Some((r, conn)) = with_two::<Resource, ConnId>(connectors, words, b"NOTIFY") {
        return Some(Event::Notify { r, conn });
    }
    if let Some(granted) = granted(connectors, words) {
        return Some(granted);
    }
    let r = with_one::<Resource>(connectors, words, b"DENIED")?;
    Some(Event::Denied { r })
}

// The words behind OK, where they are those of a loss that VARY brings about; else all words.
fn told<'a>(line: &Words<'a>, vary: bool) -> Option<Words<'a>>
    ensures { Skips vary result line.now }
{
    let mut words = line.again();
    if vary && !words.skip(b"OK") {
        return None;
    }
    Some(words)
}

fn simplex(connectors: &[Name16], line: &Words, vary: bool) -> Option<CfId>
    requires { length connectors.now ≤ CONNECTORS }
    ensures { Found (λ v. (v, tt)) result ((told vary (with_one (codes "SIMPLEX") a_facility)).values line.now) }
{
    let words = told(line, vary)?;
    with_one::<CfId>(connectors, &words, b"SIMPLEX")
}

fn stopped(connectors: &[Name16], line: &Words, vary: bool) -> Option<u32>
    requires { length connectors.now ≤ CONNECTORS }
    ensures { Found (λ v. (v, tt)) result ((told vary (with_one (codes "STOPPED") small)).values line.now) }
{
    let words = told(line, vary)?;
    with_one::<u32>(connectors, &words, b"STOPPED")
}

fn failed(line: &Words, vary: bool) -> Option<()>
    ensures { result ≡ (told vary (plain (codes "FAILED"))).values line.now }
{
    let words = told(line, vary)?;
    plain(&words, b"FAILED")
}

// OK, a word and a facility.
fn ok_at(connectors: &[Name16], line: &Words, word: &[u8]) -> Option<CfId>
    requires { length connectors.now ≤ CONNECTORS }
    ensures { Found (λ v. (v, tt)) result ((led (codes "OK") (with_one word.now a_facility)).values line.now) }
{
    let mut words = line.again();
    if !words.skip(b"OK") {
        return None;
    }
    with_one::<CfId>(connectors, &words, word)
}

fn ok_none(line: &Words) -> Option<()>
    ensures { result ≡ (led (codes "OK") (plain (codes "NONE"))).values line.now }
{
    let mut words = line.again();
    if !words.skip(b"OK") {
        return None;
    }
    plain(&words, b"NONE")
}

// A word and an event.
fn with_event(connectors: &[Name16], line: &Words, word: &[u8]) -> Option<Event>
    requires { length connectors.now ≤ CONNECTORS }
    ensures { result ≡ (led word.now (event_row connectors.now)).values line.now }
{
    let mut words = line.again();
    if !words.skip(word) {
        return None;
    }
    event(connectors, &words)
}

/// Reads a reply to a common command; `vary` is whether it was VARY.
pub fn shell_reply(connectors: &[Name16], words: &Words, vary: bool) -> Option<ShellReply>
    requires { length connectors.now ≤ CONNECTORS }
    ensures { result ≡ (shell_row connectors.now vary).values words.now }
{
    if plain(words, b"OK").is_some() {
        return Some(ShellReply::Ok);
    }
    if let Some(number) = with_one::<u32>(connectors, words, b"OK") {
        return Some(ShellReply::OkNumber { number });
    }
    if let Some(cf) = ok_at(connectors, words, b"NEW") {
        return Some(ShellReply::OkNew { cf });
    }
    if let Some(cf) = ok_at(connectors, words, b"RECONNECTED") {
        return Some(ShellReply::Reconnected { cf });
    }
    if let Some(event) = with_event(connectors, words, b"EVENT") {
        return Some(ShellReply::Event { event });
    }
    if let Some(event) = with_event(connectors, words, b"RESPONDED") {
        return Some(ShellReply::Responded { event });
    }
    if let Some((moved, left)) = with_two::<u32, u32>(connectors, words, b"COPIED") {
        return Some(ShellReply::Copied { moved, left });
    }
    if ok_none(words).is_some() {
        return Some(ShellReply::OkNone);
    }
    if let Some(cf) = simplex(connectors, words, vary) {
        return Some(ShellReply::Simplex { cf });
    }
    if let Some(number) = stopped(connectors, words, vary) {
        return Some(ShellReply::Stopped { number });
    }
    if failed(words, vary).is_some() {
        return Some(ShellReply::FailedNow);
    }
    let cf = with_one::<CfId>(connectors, words, b"OK")?;
    Some(ShellReply::OkAt { cf })
}
