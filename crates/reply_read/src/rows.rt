//! Rows that several kinds of replies share.

ghost use Rattle.std.specs.Prelude.{◌≡◌, ◌≤◌, length, OnOk, IfOk, ◌↔◌, IsTrue};
ghost use Rattle.line_rows.specs.Rows.{all_values, counted, led, done};
ghost use Rattle.reply_rows.specs.Parts.{plain, with_one, with_two};
ghost use Rattle.cf_types.specs.declared.limits.TheConstants.{CONNECTORS};
ghost use Rattle.plex_spell.specs.Places.{on_first};
ghost use Rattle.reply_read.specs.Found.{Takes, Found};

use crate::one_word::OneWord;
use cf_types::{Listing, Name16, NoMemory};
use plex_spell::Words;
use std::alloc::Global;

/// Takes a word.
pub fn one<T: OneWord>(connectors: &[Name16], words: &mut Words) -> Option<T>
    requires { length connectors.now ≤ CONNECTORS }
    ensures { Takes result words.new (on_first (T.one connectors.now).value words.old) }
{
    let word = words.next()?;
    T::read(connectors, word)
}

/// The word alone.
pub fn plain(line: &Words, lead: &[u8]) -> Option<()>
    ensures { result ≡ (plain lead.now).values line.now }
{
    let mut words = line.again();
    if words.skip(lead) && words.is_done() {
        Some(())
    } else {
        None
    }
}

/// A word and a value.
pub fn with_one<T: OneWord + Drop>(connectors: &[Name16], line: &Words, lead: &[u8]) -> Option<T>
    requires { length connectors.now ≤ CONNECTORS }
    ensures { Found (λ v. (v, tt)) result ((with_one lead.now (T.one connectors.now)).values line.now) }
{
    let mut words = line.again();
    if !words.skip(lead) {
        return None;
    }
    let value = one(connectors, &mut words)?;
    if words.is_done() { Some(value) } else { None }
}

/// All words that are left.
pub fn all_items<T: OneWord + Drop>(
    alloc: Global,
    connectors: &[Name16],
    words: &mut Words,
) -> Result<Option<Listing<T>>, NoMemory>
    requires { length connectors.now ≤ CONNECTORS }
    ensures { IfOk result (λ r. r ≡ all_values (T.one connectors.now) words.old) }
{
    let mut items: Listing<T> = Listing::new(alloc);
    while let Some(word) = words.next() {
        let Some(item) = T::read(connectors, word) else {
            return Ok(None);
        };
        items.push(item)?;
    }
    Ok(Some(items))
}

/// A word, and items with their number in front.
pub fn listing<T: OneWord + Drop>(
    alloc: Global,
    connectors: &[Name16],
    line: &Words,
    lead: &[u8],
) -> Result<Option<Listing<T>>, NoMemory>
    requires { length connectors.now ≤ CONNECTORS }
    ensures { IfOk result (λ r. r ≡ (led lead.now (counted
        (T.one connectors.now))).values line.now) }
{
    let mut words = line.again();
    if !words.skip(lead) {
        return Ok(None);
    }
    let Some(count) = one::<u32>(connectors, &mut words) else {
        return Ok(None);
    };
    match all_items::<T>(alloc, connectors, &mut words)? {
        Some(items) if items.items().len() == count as usize => Ok(Some(items)),
        _ => Ok(None),
    }
}

/// A word and two values.
pub fn with_two<T: OneWord + Drop, U: OneWord + Drop>(
    connectors: &[Name16],
    line: &Words,
    lead: &[u8],
) -> Option<(T, U)>
    requires { length connectors.now ≤ CONNECTORS }
    ensures { Found (λ v. (v.0, (v.1, tt))) result
        ((with_two lead.now (T.one connectors.now) (U.one connectors.now)).values line.now) }
{
    let mut words = line.again();
    if !words.skip(lead) {
        return None;
    }
    let first = one(connectors, &mut words)?;
    let second = one(connectors, &mut words)?;
    if words.is_done() {
        Some((first, second))
    } else {
        None
    }
}
