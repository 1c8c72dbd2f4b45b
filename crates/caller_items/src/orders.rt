ghost use Rattle.std.specs.Prelude.{◌≡◌, ◌<◌, ◌≤◌, ◌&&◌, nat_le, max, All, IfOk, length, replicate};
ghost use Rattle.caller_slots.specs.RunShown.CfTypes.declared.limits.TheConstants.{STRUCTURES};
ghost use Rattle.caller_slots.specs.RunShown.PlexScript.Heard.{any_length};
ghost use Rattle.caller_slots.specs.RunShown.Headline.{place_of};
ghost use Rattle.caller_items.specs.Orders.{AreInOrder, is_in_order, no_numbers, seen_after};

use caller_slots::shown::scripts::types::{NoMemory, StrNo};
use caller_slots::shown::scripts::{AnyHistory, Shown};
use std::alloc::Global;

/// What a caller has seen of a structure: the greatest number that its items show so far, and the
/// greatest of its calls, POSTs and TAKEs. 0 if there is none.
#[derive(Clone, Copy)]
pub struct Seen {
    pub seen: u32,
    pub sure: u32,
}

// How many entries a history has.
fn any_len(history: &AnyHistory) -> usize
    ensures { result ≡ any_length history.now }
{
    match history {
        AnyHistory::Cache(entries) => entries.entries().len(),
        AnyHistory::List(entries) => entries.entries().len(),
        AnyHistory::Lock(entries) => entries.entries().len(),
    }
}

// The structure of an item.
fn place_of(item: &Shown) -> StrNo
    ensures { result ≡ place_of item.now }
{
    match item {
        Shown::Call { on, .. }
        | Shown::Test { on, .. }
        | Shown::Word { on, .. }
        | Shown::BadIndex { on, .. }
        | Shown::Posted { on, .. }
        | Shown::Took { on, .. } => *on,
    }
}

// The greater of two numbers.
fn greater(one: u32, other: u32) -> u32
    ensures { result ≡ max one other }
{
    one.max(other)
}

// Whether a POST or a TAKE shows a number from here to there.
fn is_between(low: u32, sure: u32, high: usize) -> bool
    ensures { result ≡ (nat_le low sure && nat_le sure high) }
{
    low <= sure && sure as usize <= high
}

// Whether an item is in order, at a structure whose history has so many entries.
fn is_in_order(entries: usize, before: Seen, item: &Shown) -> bool
    ensures { result ≡ is_in_order entries before item.now }
{
    match item {
        Shown::Call { .. } | Shown::BadIndex { .. } => true,
        Shown::Test { at, .. } | Shown::Word { at, .. } => before.seen <= *at,
        Shown::Posted { sure, .. } | Shown::Took { sure, .. } => {
            is_between(before.sure, *sure, entries)
        }
    }
}

// What is seen behind an item.
fn seen_after(before: Seen, item: &Shown) -> Seen
    ensures { result ≡ seen_after before item.now }
{
    match item {
        Shown::BadIndex { .. } => before,
        Shown::Test { at, .. } | Shown::Word { at, .. } => Seen {
            seen: greater(before.seen, *at),
            sure: before.sure,
        },
        Shown::Call { no: number, .. }
        | Shown::Posted { sure: number, .. }
        | Shown::Took { sure: number, .. } => Seen {
            seen: greater(before.seen, *number),
            sure: greater(before.sure, *number),
        },
    }
}

// Nothing seen of so many structures.
fn nothing_seen(alloc: Global, many: usize) -> Result<Vec<Seen>, NoMemory>
    ensures { IfOk result (λ table. table.items ≡ replicate many no_numbers) }
{
    let seen = Seen { seen: 0, sure: 0 };
    Ok(vec![in alloc; seen; many]?)
}

/// How many of a caller's items, from the first on, show numbers that are in order: a test none before
/// one that an item of its structure shows already, a POST and a TAKE none before a call, a POST or a
/// TAKE, and none past the end of the history.
///
/// # Errors
///
/// Want of memory for what is seen of each structure.
#[tactic(auto, using(crate::proofs::OrderLaws::starts, crate::proofs::OrderLaws::ends))]
pub fn in_order(alloc: Global, histories: &[AnyHistory], items: &[Shown]) -> Result<usize, NoMemory>
    requires { All (λ item. (place_of item).0 < length histories.now) items.now }
    ensures { IfOk result (AreInOrder histories.now items.now) }
{
    let mut table = nothing_seen(alloc, histories.len())?;
    for place in 0..items.len() {
        let item = &items[place];
        let on = usize::from(place_of(item).0);
        let before = table[on];
        if !is_in_order(any_len(&histories[on]), before, item) {
            return Ok(place);
        }
        table[on] = seen_after(before, item);
    }
    Ok(items.len())
}
