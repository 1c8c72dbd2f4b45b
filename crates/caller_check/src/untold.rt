ghost use Rattle.std.specs.Prelude.{◌≡◌, ◌<◌, ◌≤◌, All, IfOk, length, replicate};
ghost use Rattle.caller_slots.specs.RunShown.Headline.{place_of};
ghost use Rattle.caller_waits.specs.Tests.{IsSmall};
ghost use Rattle.caller_check.specs.Tables.{rows_of};
ghost use Rattle.caller_check.specs.Untold.{AreSeen, HaveQueues, HaveRows, IsFirstUntold, IsItemPast, IsQueueAt, bit_past, item_past, past, unless_one, word_past};

use caller_slots::shown::scripts::types::{ConnId, NoMemory, StrForm, StrNo};
use caller_slots::shown::scripts::{AnyHistory, Shown};
use std::alloc::Global;
use vector_waits::{Queue, Wait};

// The place behind a test, if this is told.
fn past(waits: &[Wait], place: usize) -> Option<usize>
    ensures { result ≡ past waits.now place }
{
    match waits.get(place) {
        Some(wait) if wait.told => Some(place + 1),
        _ => None,
    }
}

// The place, where a bit isn't one.
fn unless_one(value: u32, k: u32, place: usize) -> Option<usize>
    requires { k < 32 }
    ensures { result ≡ unless_one value k place }
{
    if (value >> k) & 1 == 1 {
        None
    } else {
        Some(place)
    }
}

// The place behind a bit of a word: its test is told, or it lies past the vector's end and is 0.
fn bit_past(
    vector: u32,
    word: u32,
    value: u32,
    waits: &[Wait],
    k: u32,
    place: usize,
) -> Option<usize>
    requires { k < 32 }
    ensures { result ≡ bit_past vector word value waits.now k place }
{
    let index = 32 * u64::from(word) + u64::from(k);
    if index < u64::from(vector) {
        return past(waits, place);
    }
    unless_one(value, k, place)
}

// The place behind a word's first bits, so many.
fn word_past(
    vector: u32,
    word: u32,
    value: u32,
    waits: &[Wait],
    many: u32,
    place: usize,
) -> Option<usize>
    requires { many ≤ 32 }
    ensures { result ≡ word_past vector word value waits.now 0 many place }
{
    let mut next = place;
    for k in 0..many {
        match bit_past(vector, word, value, waits, k, next) {
            Some(behind) => next = behind,
            None => return None,
        }
    }
    Some(next)
}

// The place behind an item, at a structure whose vectors have so many bits.
fn item_past(vector: u32, waits: &[Wait], item: &Shown, place: usize) -> Option<usize>
    ensures { result ≡ item_past vector waits.now item.now place }
{
    match item {
        Shown::Test { .. } => past(waits, place),
        Shown::Word { word, bits, .. } => word_past(vector, *word, *bits, waits, 32, place),
        Shown::Call { .. } | Shown::BadIndex { .. } | Shown::Posted { .. } | Shown::Took { .. } =>
            Some(place),
    }
}

// The structure of an item.
fn place_of(item: &Shown) -> StrNo
    ensures { result ≡ place_of item.now }
{
    match item {
        Shown::Call { on, .. }
        | Shown::Test { on, .. }
        | Shown::Word { on, .. }
        | Shown::BadIndex { on, .. }
        | Shown::Posted { on, .. }
        | Shown::Took { on, .. } => *on,
    }
}

// A word is one of 32 bits.
fn word_fits(bits: u32)
    ensures { bits < 4294967296 }
{}

fn item_fits(item: &Shown)
    ensures { IsSmall item.now }
{
    match item {
        Shown::Word { bits, .. } => word_fits(*bits),
        Shown::Call { .. }
        | Shown::Test { .. }
        | Shown::BadIndex { .. }
        | Shown::Posted { .. }
        | Shown::Took { .. } => {}
    }
}

// What is told of a caller's tests of a structure.
fn waits_at<'a>(
    structures: &[StrForm],
    tables: &'a [Vec<Queue>],
    conn: ConnId,
    on: StrNo,
) -> (u32, &'a [Wait])
    requires rows { HaveRows structures.now (rows_of tables.now) conn }
    requires known { on.0 < length structures.now }
    ensures { IsQueueAt structures.now (rows_of tables.now) conn on result.0 result.1.now }
{
    let place = usize::from(on.0);
    let vector = structures[place].vector;
    let table = &tables[place];
    let queue = &table[usize::from(conn.0)];
    (vector, queue.waits())
}

// Whether an item's tests are told; the place in its structure's queue is then behind them.
fn take_item(
    structures: &[StrForm],
    tables: &[Vec<Queue>],
    conn: ConnId,
    item: &Shown,
    places: &mut [usize],
) -> bool
    requires rows { HaveRows structures.now (rows_of tables.now) conn }
    requires known { (place_of item.now).0 < length structures.now }
    requires places { length places.old ≡ length structures.now }
    ensures { IsItemPast structures.now (rows_of tables.now) conn item.now places.old places.new
        result }
{
    item_fits(item);
    let on = place_of(item);
    let (vector, waits) = waits_at(structures, tables, conn, on);
    let place = usize::from(on.0);
    match item_past(vector, waits, item, places[place]) {
        Some(next) => {
            places[place] = next;
            true
        }
        None => false,
    }
}

// The beginnings of so many queues.
fn no_places(alloc: Global, many: usize) -> Result<Vec<usize>, NoMemory>
    ensures { IfOk result (λ places. places.items ≡ replicate many 0) }
{
    Ok(vec![in alloc; 0; many]?)
}

/// How many of a caller's items, from the first on, have tests that the queues of their structures
/// have as told. A word's bits past the vector's end are to be 0.
///
/// # Errors
///
/// Want of memory for the place in each queue.
pub(crate) fn first_untold(
    alloc: Global,
    structures: &[StrForm],
    histories: &[AnyHistory],
    tables: &[Vec<Queue>],
    conn: ConnId,
    items: &[Shown],
) -> Result<usize, NoMemory>
    requires many { length histories.now ≡ length structures.now }
    requires rows { HaveRows structures.now (rows_of tables.now) conn }
    requires queues { HaveQueues structures.now histories.now (rows_of tables.now) conn items.now }
    requires known { All (λ item. (place_of item).0 < length structures.now) items.now }
    requires seen { AreSeen items.now }
    ensures { IfOk result (IsFirstUntold structures.now histories.now conn items.now) }
{
    let _ = histories;
    let mut places = no_places(alloc, structures.len())?;
    for number in 0..items.len() {
        if !take_item(
            structures,
            tables,
            conn,
            &items[number],
            places.as_mut_slice(),
        ) {
            return Ok(number);
        }
    }
    Ok(items.len())
}
