ghost use Rattle.std.specs.Prelude.{◌≡◌, ◌≤◌, length, IfOk, codes};
ghost use Rattle.cf_types.specs.declared.limits.TheConstants.{CONNECTORS};
ghost use Rattle.cf_types.specs.declared.list_commands.ListReply.TheVariants as list;
ghost use Rattle.line_rows.specs.Rows.{form};
ghost use Rattle.reply_rows.specs.Contents.{list_row, entry_row, entry_end, key_end, content_end};
ghost use Rattle.reply_read.specs.Found.{Found};

use crate::cache_reader::cast_end;
use crate::one_word::OneWord;
use crate::rows::{listing, one, plain, with_one, with_two};
use crate::spelling::full_body;
use cf_types::{Adjunct, Body, ConnId, EntryId, Key16, ListReply, Name16, NoMemory};
use plex_spell::Words;
use std::alloc::Global;

// Data and adjunct of a record.
fn content(
    alloc: Global,
    connectors: &[Name16],
    line: &Words,
) -> Result<Option<(Option<Body>, Option<Adjunct>)>, NoMemory>
    requires { length connectors.now ≤ CONNECTORS }
    ensures { IfOk result (λ r. Found (λ v. (v.0, (v.1, tt))) r (content_end.values line.now)) }
{
    let mut words = line.again();
    if !words.skip(b"DATA") {
        return match cast_end(connectors, &words) {
            Some(adj) => Ok(Some((None, adj))),
            None => Ok(None),
        };
    }
    let Some(word) = words.next() else {
        return Ok(None);
    };
    let Some(body) = full_body(alloc, word)? else {
        return Ok(None);
    };
    match cast_end(connectors, &words) {
        Some(adj) => Ok(Some((Some(body), adj))),
        None => Ok(None),
    }
}

/// Reads a reply of a list structure.
pub fn list_reply(
    alloc: Global,
    connectors: &[Name16],
    words: &Words,
) -> Result<Option<ListReply>, NoMemory>
    requires { length connectors.now ≤ CONNECTORS }
    ensures { IfOk result (λ r. r ≡ (list_row connectors.now).values words.now) }
{
    if let Some(id) = with_one::<EntryId>(connectors, words, b"ID") {
        return Ok(Some(ListReply::Id { id }));
    }
    if let Some(entry) = entry(alloc, connectors, words)? {
        return Ok(Some(entry));
    }
    if plain(words, b"OK").is_some() {
        return Ok(Some(ListReply::Ok));
    }
    if let Some(ids) = listing(alloc, connectors, words, b"IDS")? {
        return Ok(Some(ListReply::Ids(ids)));
    }
    if let Some(holder) = with_one::<Option<ConnId>>(connectors, words, b"HOLDER") {
        return Ok(Some(ListReply::Holder { holder }));
    }
    if let Some((count, limit)) = with_two::<u32, u32>(connectors, words, b"CONTROLS") {
        return Ok(Some(ListReply::Controls { count, limit }));
    }
    if plain(words, b"EMPTY").is_some() {
        return Ok(Some(ListReply::Empty));
    }
    if plain(words, b"NOTEMPTY").is_some() {
        return Ok(Some(ListReply::NotEmpty));
    }
    if let Some(n) = with_one::<u32>(connectors, words, b"OK") {
        return Ok(Some(ListReply::OkCount { n }));
    }
    Ok(None)
}

// What stands behind a record's name.
fn keyed(
    alloc: Global,
    connectors: &[Name16],
    line: &Words,
) -> Result<Option<(Option<Key16>, Option<Body>, Option<Adjunct>)>, NoMemory>
    requires { length connectors.now ≤ CONNECTORS }
    ensures { IfOk result (λ r. Found (λ v. (v.0, (v.1, (v.2, tt)))) r (key_end.values line.now)) }
{
    let mut words = line.again();
    let mut key = None;
    if words.skip(b"KEY") {
        let Some(found) = one::<Key16>(connectors, &mut words) else {
            return Ok(None);
        };
        key = Some(found);
    }
    match content(alloc, connectors, &words)? {
        Some((body, adj)) => Ok(Some((key, body, adj))),
        None => Ok(None),
    }
}

// What stands behind a record's header.
fn named(
    alloc: Global,
    connectors: &[Name16],
    line: &Words,
) -> Result<Option<(Option<Name16>, Option<Key16>, Option<Body>, Option<Adjunct>)>, NoMemory>
    requires { length connectors.now ≤ CONNECTORS }
    ensures { IfOk result (λ r. Found (λ v. (v.0, (v.1, (v.2, (v.3, tt))))) r (entry_end.values line.now)) }
{
    let mut words = line.again();
    let mut name = None;
    if words.skip(b"NAME") {
        let Some(found) = one::<Name16>(connectors, &mut words) else {
            return Ok(None);
        };
        name = Some(found);
    }
    match keyed(alloc, connectors, &words)? {
        Some((key, body, adj)) => Ok(Some((name, key, body, adj))),
        None => Ok(None),
    }
}

// A record.
fn entry(alloc: Global, connectors: &[Name16], line: &Words) -> Result<Option<ListReply>, NoMemory>
    requires { length connectors.now ≤ CONNECTORS }
    ensures { IfOk result (λ r. r ≡ form entry_row
        (λ v. list.Entry v.0 v.1.0 v.1.1.0 v.1.1.1.0 v.1.1.1.1.0 v.1.1.1.1.1.0 v.1.1.1.1.1.1.0) line.now) }
{
    let mut words = line.again();
    if !words.skip(b"ENTRY") {
        return Ok(None);
    }
    let Some(id) = one::<EntryId>(connectors, &mut words) else {
        return Ok(None);
    };
    let Some(header) = one::<u32>(connectors, &mut words) else {
        return Ok(None);
    };
    if !words.skip(b"VERSION") {
        return Ok(None);
    }
    let Some(version) = one::<u32>(connectors, &mut words) else {
        return Ok(None);
    };
    match named(alloc, connectors, &words)? {
        Some((name, key, body, adj)) => Ok(Some(ListReply::Entry {
            id,
            header,
            version,
            name,
            key,
            body,
            adj,
        })),
        None => Ok(None),
    }
}
