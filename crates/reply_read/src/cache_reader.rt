ghost use Rattle.std.specs.Prelude.{◌≡◌, ◌≤◌, length, IfOk, codes, Some, None};
ghost use Rattle.cf_types.specs.declared.limits.TheConstants.{CONNECTORS};
ghost use Rattle.cf_types.specs.declared.cache_commands.CacheReply.TheVariants as cache;
ghost use Rattle.line_rows.specs.Rows.{form};
ghost use Rattle.reply_rows.specs.Contents.{cache_row, data_row, data_behind, cast_row, cast_behind, dir_end, dir_changed, dir_unchanged};
ghost use Rattle.reply_rows.specs.Parts.{a_change, with_one};
ghost use Rattle.reply_read.specs.Found.{Found};

use crate::one_word::{OneWord, change};
use crate::rows::{listing, one, plain, with_one, with_two};
use crate::spelling::full_body;
use cf_types::{Adjunct, CacheReply, ConnId, Name16, NoMemory};
use plex_spell::Words;
use std::alloc::Global;

// Data of an entry, and whether it is changed.
fn data(alloc: Global, connectors: &[Name16], line: &Words) -> Result<Option<CacheReply>, NoMemory>
    requires { length connectors.now ≤ CONNECTORS }
    ensures { IfOk result (λ r. r ≡ form data_row (λ v. cache.Data v.0 v.1.0 v.1.1.0) line.now) }
{
    let mut words = line.again();
    if !words.skip(b"DATA") {
        return Ok(None);
    }
    let Some(word) = words.next() else {
        return Ok(None);
    };
    let Some(body) = full_body(alloc, word)? else {
        return Ok(None);
    };
    match data_end(connectors, &words) {
        Some((adj, changed)) => Ok(Some(CacheReply::Data { body, adj, changed })),
        None => Ok(None),
    }
}

// The words behind the data of an entry that is read.
fn data_end(connectors: &[Name16], line: &Words) -> Option<(Option<Adjunct>, bool)>
    requires { length connectors.now ≤ CONNECTORS }
    ensures { Found (λ v. (v.0, (v.1, tt))) result (data_behind.values line.now) }
{
    let mut words = line.again();
    if words.skip(b"ADJ") {
        let adj: Adjunct = one(connectors, &mut words)?;
        let changed = change(words.next()?)?;
        return if words.is_done() {
            Some((Some(adj), changed))
        } else {
            None
        };
    }
    let changed = change(words.next()?)?;
    if words.is_done() {
        Some((None, changed))
    } else {
        None
    }
}

// The words behind the data of an entry that is cast out.
pub fn cast_end(connectors: &[Name16], line: &Words) -> Option<Option<Adjunct>>
    requires { length connectors.now ≤ CONNECTORS }
    ensures { Found (λ v. (v, tt)) result (cast_behind.values line.now) }
{
    let mut words = line.again();
    if words.skip(b"ADJ") {
        let adj: Adjunct = one(connectors, &mut words)?;
        return if words.is_done() {
            Some(Some(adj))
        } else {
            None
        };
    }
    if words.is_done() { Some(None) } else { None }
}

// Data of an entry that is cast out.
fn cast_data(
    alloc: Global,
    connectors: &[Name16],
    line: &Words,
) -> Result<Option<CacheReply>, NoMemory>
    requires { length connectors.now ≤ CONNECTORS }
    ensures { IfOk result (λ r. r ≡ form cast_row (λ v. cache.CastData v.0 v.1.0) line.now) }
{
    let mut words = line.again();
    if !words.skip(b"DATA") {
        return Ok(None);
    }
    let Some(word) = words.next() else {
        return Ok(None);
    };
    let Some(body) = full_body(alloc, word)? else {
        return Ok(None);
    };
    match cast_end(connectors, &words) {
        Some(adj) => Ok(Some(CacheReply::CastData { body, adj })),
        None => Ok(None),
    }
}

// Whether an unlocked entry is changed.
fn unlocked(line: &Words) -> Option<CacheReply>
    ensures { result ≡ form (with_one (codes "OK") a_change) (λ v. cache.Unlocked v.0) line.now }
{
    let mut words = line.again();
    if !words.skip(b"OK") {
        return None;
    }
    let changed = change(words.next()?)?;
    if words.is_done() {
        Some(CacheReply::Unlocked { changed })
    } else {
        None
    }
}

// What the directory tells behind the castout class.
fn directory(connectors: &[Name16], line: &Words) -> Option<(u32, Option<ConnId>, u32)>
    requires { length connectors.now ≤ CONNECTORS }
    ensures { Found (λ v. (v.0, (v.1, (v.2, tt)))) result ((dir_end connectors.now).values line.now) }
{
    let mut words = line.again();
    if !words.skip(b"STG") {
        return None;
    }
    let stg: u32 = one(connectors, &mut words)?;
    if !words.skip(b"LOCK") {
        return None;
    }
    let holder: Option<ConnId> = one(connectors, &mut words)?;
    if !words.skip(b"REGS") {
        return None;
    }
    let regs: u32 = one(connectors, &mut words)?;
    if words.is_done() {
        Some((stg, holder, regs))
    } else {
        None
    }
}

fn changed_directory(connectors: &[Name16], line: &Words) -> Option<CacheReply>
    requires { length connectors.now ≤ CONNECTORS }
    ensures { result ≡ form (dir_changed connectors.now)
        (λ v. cache.Dir (Some v.0) v.1.0 v.1.1.0 v.1.1.1.0) line.now }
{
    let mut words = line.again();
    if !words.skip(b"DIR") || !words.skip(b"CHANGED") {
        return None;
    }
    let class: u32 = one(connectors, &mut words)?;
    let (stg, holder, regs) = directory(connectors, &words)?;
    Some(CacheReply::Dir {
        class: Some(class),
        stg,
        holder,
        regs,
    })
}

fn unchanged_directory(connectors: &[Name16], line: &Words) -> Option<CacheReply>
    requires { length connectors.now ≤ CONNECTORS }
    ensures { result ≡ form (dir_unchanged connectors.now)
        (λ v. cache.Dir None v.0 v.1.0 v.1.1.0) line.now }
{
    let mut words = line.again();
    if !words.skip(b"DIR") || !words.skip(b"UNCHANGED") || !words.skip(b"NONE") {
        return None;
    }
    let (stg, holder, regs) = directory(connectors, &words)?;
    Some(CacheReply::Dir {
        class: None,
        stg,
        holder,
        regs,
    })
}

/// Reads a reply of a cache structure.
pub fn cache_reply(
    alloc: Global,
    connectors: &[Name16],
    words: &Words,
) -> Result<Option<CacheReply>, NoMemory>
    requires { length connectors.now ≤ CONNECTORS }
    ensures { IfOk result (λ r. r ≡ (cache_row connectors.now).values words.now) }
{
    if let Some(data) = data(alloc, connectors, words)? {
        return Ok(Some(data));
    }
    if plain(words, b"NODATA").is_some() {
        return Ok(Some(CacheReply::NoData));
    }
    if plain(words, b"OK").is_some() {
        return Ok(Some(CacheReply::Ok));
    }
    if let Some(n) = with_one::<u32>(connectors, words, b"OK") {
        return Ok(Some(CacheReply::OkCount { n }));
    }
    if let Some(regs) = listing(alloc, connectors, words, b"REGS")? {
        return Ok(Some(CacheReply::Regs(regs)));
    }
    if let Some(data) = cast_data(alloc, connectors, words)? {
        return Ok(Some(data));
    }
    if let Some(unlocked) = unlocked(words) {
        return Ok(Some(unlocked));
    }
    if let Some(names) = listing(alloc, connectors, words, b"NAMES")? {
        return Ok(Some(CacheReply::Names(names)));
    }
    if let Some(counts) = listing(alloc, connectors, words, b"STATS")? {
        return Ok(Some(CacheReply::Stats(counts)));
    }
    if let Some(directory) = changed_directory(connectors, words) {
        return Ok(Some(directory));
    }
    if let Some(directory) = unchanged_directory(connectors, words) {
        return Ok(Some(directory));
    }
    if let Some((rows, changed)) = with_two::<u32, u32>(connectors, words, b"STG") {
        return Ok(Some(CacheReply::Stg { rows, changed }));
    }
    Ok(None)
}
