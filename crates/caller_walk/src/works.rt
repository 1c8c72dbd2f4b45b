//! All works of a caller, one after another.
ghost use Rattle.std.specs.Prelude.{◌≡◌, ◌<◌, ◌≤◌, ◌↔◌, true, IfOk, length, replicate};
ghost use Rattle.caller_slots.specs.RunShown.CfTypes.declared.limits.TheConstants.{STRUCTURES};
ghost use Rattle.caller_slots.specs.Works.{Does, leaves_from, works_of};
ghost use Rattle.caller_slots.specs.Slots.{AreUsed, places_of};
ghost use Rattle.caller_walk.specs.Counts.{no_count};
ghost use Rattle.caller_walk.specs.Running.{AreAllDone, AreDone, AreOfKinds, IsDeparted, IsWalked, IsWorkDone, no_spot, own_lines, places_at};

use crate::counts::Count;
use crate::heard::has_own;
use crate::running::{act, leave};
use crate::spots::Spot;
use caller_slots::shown::scripts::types::{ConnId, NoMemory, StrForm, StrNo};
use caller_slots::shown::scripts::{AnyHistory, Line, Script, Shown};
use std::alloc::Global;

// Does a line at its structure.
#[tactic(auto, using(crate::proofs::WorkLaws::line_done, crate::proofs::WorkLaws::line_lacks))]
fn do_line(
    structures: &[StrForm],
    histories: &[AnyHistory],
    conn: ConnId,
    line: &Line,
    items: &[Shown],
    spots: &mut [Spot],
    count: &mut Count,
) -> bool
    requires many { length histories.now ≡ length structures.now }
    requires spots { length spots.old ≡ length structures.now }
    requires kinds { AreOfKinds structures.now histories.now }
    ensures done { IsWorkDone structures.now items.now (Does line.now)
        (places_at conn histories.now spots.old) (places_at conn histories.now spots.new)
        count.old count.new result }
    ensures spots { length spots.new ≡ length spots.old }
{
    let place = usize::from(line.on.0);
    if structures.len() <= place {
        return false;
    }
    let mut spot = spots[place];
    let done = act(
        &histories[place],
        &structures[place],
        conn,
        line,
        items,
        &mut spot,
        count,
    );
    spots[place] = spot;
    done
}

// Departs from one structure.
#[tactic(auto, using(crate::proofs::WorkLaws::depart_done))]
fn depart(
    structures: &[StrForm],
    histories: &[AnyHistory],
    conn: ConnId,
    number: u8,
    items: &[Shown],
    spots: &mut [Spot],
    count: &mut Count,
) -> bool
    requires many { length histories.now ≡ length structures.now }
    requires spots { length spots.old ≡ length structures.now }
    requires kinds { AreOfKinds structures.now histories.now }
    requires there { number < length structures.now }
    ensures done { IsDeparted structures.now items.now number
        (places_at conn histories.now spots.old) (places_at conn histories.now spots.new)
        count.old count.new result }
    ensures spots { length spots.new ≡ length spots.old }
{
    let place = usize::from(number);
    let kind = structures[place].kind;
    let mut spot = spots[place];
    let done = leave(
        &histories[place],
        kind,
        conn,
        StrNo(number),
        items,
        &mut spot,
        count,
    );
    spots[place] = spot;
    done
}

// Does the caller's own lines among these. False where a call is lacking or asks something else.
#[tactic(auto, using(crate::proofs::WorkLaws::leads_all, crate::proofs::WorkLaws::line_leads, crate::proofs::WorkLaws::line_breaks, crate::proofs::WorkLaws::line_passes))]
fn do_lines(
    structures: &[StrForm],
    histories: &[AnyHistory],
    conn: ConnId,
    lines: &[Line],
    items: &[Shown],
    spots: &mut [Spot],
    count: &mut Count,
) -> bool
    requires many { length histories.now ≡ length structures.now }
    requires spots { length spots.old ≡ length structures.now }
    requires kinds { AreOfKinds structures.now histories.now }
    ensures done { AreDone structures.now items.now (own_lines conn lines.now)
        (places_at conn histories.now spots.old) (places_at conn histories.now spots.new)
        count.old count.new result }
    ensures spots { length spots.new ≡ length spots.old }
{
    for line in lines {
        if line.by.0 == conn.0 {
            if !do_line(structures, histories, conn, line, items, spots, count) {
                return false;
            }
        }
    }
    true
}

// Departs from each structure at which the caller is active. False as for lines.
#[tactic(auto, using(crate::proofs::WorkLaws::leads_all, crate::proofs::WorkLaws::depart_leads, crate::proofs::WorkLaws::depart_breaks, crate::proofs::WorkLaws::departed_all))]
fn depart_all(
    structures: &[StrForm],
    histories: &[AnyHistory],
    conn: ConnId,
    items: &[Shown],
    spots: &mut [Spot],
    count: &mut Count,
) -> bool
    requires few { length structures.now ≤ STRUCTURES }
    requires many { length histories.now ≡ length structures.now }
    requires spots { length spots.old ≡ length structures.now }
    requires kinds { AreOfKinds structures.now histories.now }
    ensures done { AreDone structures.now items.now (leaves_from 0 structures.now)
        (places_at conn histories.now spots.old) (places_at conn histories.now spots.new)
        count.old count.new result }
    ensures spots { length spots.new ≡ length spots.old }
{
    let many = structures.len() as u8;
    for number in 0..many {
        if !depart(structures, histories, conn, number, items, spots, count) {
            return false;
        }
    }
    true
}

// All works: the lines, and then the departures of a connector.
#[tactic(auto, using(crate::proofs::WorkLaws::all_broken, crate::proofs::WorkLaws::all_operator, crate::proofs::WorkLaws::all_connector))]
fn do_all(
    script: &Script,
    histories: &[AnyHistory],
    conn: ConnId,
    items: &[Shown],
    spots: &mut [Spot],
    count: &mut Count,
) -> bool
    requires few { length script.now.structures ≤ STRUCTURES }
    requires many { length histories.now ≡ length script.now.structures }
    requires spots { length spots.old ≡ length script.now.structures }
    requires kinds { AreOfKinds script.now.structures histories.now }
    ensures done { AreAllDone script.now.structures items.now (works_of script.now conn)
        (places_at conn histories.now spots.old) (places_at conn histories.now spots.new)
        count.old count.new result }
    ensures spots { length spots.new ≡ length spots.old }
{
    let structures = script.structures.items();
    let lines = script.lines.items();
    if !do_lines(structures, histories, conn, lines, items, spots, count) {
        return false;
    }
    if conn.0 == 0 {
        return true;
    }
    depart_all(structures, histories, conn, items, spots, count)
}

// Whether each of the caller's calls has its place.
#[tactic(auto, using(crate::proofs::WorkLaws::used_more, crate::proofs::WorkLaws::used_all, crate::proofs::WorkLaws::used_not))]
fn are_used(histories: &[AnyHistory], conn: ConnId, spots: &[Spot]) -> bool
    requires { length spots.now ≡ length histories.now }
    ensures { (result ≡ true) ↔ AreUsed (places_at conn histories.now spots.now) }
{
    for place in 0..histories.len() {
        if has_own(&histories[place], conn, spots[place].next) {
            return false;
        }
    }
    true
}

// A caller before all its works.
fn new_spots(alloc: Global, many: usize) -> Result<Vec<Spot>, NoMemory>
    ensures { IfOk result (λ spots. spots.items ≡ replicate many no_spot) }
{
    let spot = Spot {
        linked: false,
        next: 0,
    };
    Ok(vec![in alloc; spot; many]?)
}

// Walks a caller from where it stands before all its works.
fn walk_from(
    script: &Script,
    histories: &[AnyHistory],
    conn: ConnId,
    items: &[Shown],
    spots: &mut [Spot],
) -> Option<Count>
    requires few { length script.now.structures ≤ STRUCTURES }
    requires many { length histories.now ≡ length script.now.structures }
    requires spots { length spots.old ≡ length script.now.structures }
    requires kinds { AreOfKinds script.now.structures histories.now }
    requires begins { places_at conn histories.now spots.old ≡ places_of histories.now conn }
    ensures { IsWalked script.now histories.now conn items.now result }
{
    let mut count = Count {
        fitting: 0,
        differs: false,
    };
    if !do_all(script, histories, conn, items, spots, &mut count) {
        return None;
    }
    if !are_used(histories, conn, spots) {
        return None;
    }
    Some(count)
}

/// What a caller's calls in the histories make of its transcript. Nothing, where they aren't what its
/// lines and its closing ask: a call is lacking, one asks something else, or one is left that none
/// asks. Else how many items are what is due, from the first on, and whether the next one isn't.
///
/// # Errors
///
/// Want of memory for where the caller stands at each structure.
#[tactic(auto, using(crate::proofs::WorkLaws::places_begin))]
pub fn walk(
    alloc: Global,
    script: &Script,
    histories: &[AnyHistory],
    conn: ConnId,
    items: &[Shown],
) -> Result<Option<Count>, NoMemory>
    requires few { length script.now.structures ≤ STRUCTURES }
    requires many { length histories.now ≡ length script.now.structures }
    requires kinds { AreOfKinds script.now.structures histories.now }
    ensures { IfOk result (IsWalked script.now histories.now conn items.now) }
{
    let mut spots = new_spots(alloc, histories.len())?;
    Ok(walk_from(script, histories, conn, items, spots.as_mut_slice()))
}
