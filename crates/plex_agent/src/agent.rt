//! A caller's turns.
ghost use Rattle.std.specs.Prelude.{◌≡◌, ◌<◌, IfSome, OnOk, OnErr, All, length};
ghost use Rattle.plex_board.specs.CfTypes.NoMemory.Wants.{want};
ghost use Rattle.plex_board.specs.CfTypes.Forms.{IsCaller, IsConnector};
ghost use Rattle.plex_board.specs.PlexScript.declared.transcripts.AgentEnd.TheVariants as ended;
ghost use Rattle.plex_board.specs.Boards.{IsDeskOf, cell_on};
ghost use Rattle.plex_board.specs.Turns.{Acts, Turns, Departs};
ghost use Rattle.plex_agent.specs.Calls.{at_work};
ghost use Rattle.plex_board.specs.Callers.{IsLineFor, Serves, Closes, no_items};

use crate::calls::{LineCall, ask_all};
use crate::items::{is_done, take_items};
use crate::vectors::{post, take, test, test_word};
use plex_board::Desk;
use plex_board::links::Link;
use plex_board::scripts::{Act, AgentEnd, Gate, Line, Shown, Step, Transcript, closing_ask};
use plex_board::types::{Listing, NoMemory, StrNo};
use plex_engines::Board;
use std::alloc::Global;
use std::sync::Wait;

// How a caller's work stands behind what shows one item.
fn end_after(shown: Result<(), NoMemory>) -> AgentEnd
    ensures done { OnOk shown (result ≡ ended.Done) }
    ensures no_memory { OnErr shown (result ≡ ended.NoMemory want) }
{
    match shown {
        Ok(()) => AgentEnd::Done,
        Err(cause) => AgentEnd::NoMemory(cause),
    }
}

// Does what a line says.
fn act<L: Link>(
    rt: &impl Wait,
    alloc: Global,
    line: &Line,
    desk: &mut Desk,
    board: &Board<L>,
    items: &mut Vec<Shown>,
) -> AgentEnd
    requires desk { IsDeskOf board.now desk.old }
    requires owner { IsCaller desk.old.owner }
    requires caller { line.now.by ≡ desk.old.owner }
    requires line { IsLineFor board.now line.now }
    ensures acted { IfSome (cell_on board.now line.now.on)
        (λ cell. Acts cell.limit cell.form line.now.on line.now.retry line.now.act
        (at_work desk.old items.old.items ended.Done)
        (at_work desk.new items.new.items result)) }
    ensures of_board { IsDeskOf board.now desk.new }
    ensures owner { desk.new.owner ≡ desk.old.owner }
{
    let on = line.on;
    match &line.act {
        Act::Call(ask) => {
            let first = Step::Call { asks: line.retry };
            let call = LineCall { on, ask: Some(ask) };
            ask_all(rt, alloc, board, &call, first, desk, items)
        }
        Act::Events => {
            let first = Step::first(&line.act, line.retry);
            let call = LineCall { on, ask: None };
            ask_all(rt, alloc, board, &call, first, desk, items)
        }
        Act::Test(index) => end_after(test(board, on, *index, desk, items)),
        Act::TestWord(word) => end_after(test_word(board, on, *word, desk, items)),
        Act::Post => end_after(post(rt, board, on, desk, items)),
        Act::Take => end_after(take(rt, board, on, desk, items)),
    }
}

/// Does a line of the script: its call, which is asked again, after an event round, as often as the
/// line says while a rebuild holds it up; an event round; a test of the caller's own vector
/// (IXLVECTR); a POST or a TAKE. What comes of it is shown. Where the caller's work has ended, by a
/// full journal or for want of memory, nothing is done.
pub fn turn<L: Link>(
    rt: &impl Wait,
    alloc: Global,
    line: &Line,
    desk: &mut Desk,
    board: &Board<L>,
    shown: &mut Transcript,
)
    requires desk { IsDeskOf board.now desk.old }
    requires owner { IsCaller desk.old.owner }
    requires caller { line.now.by ≡ desk.old.owner }
    requires line { IsLineFor board.now line.now }
    ensures turned { IfSome (cell_on board.now line.now.on)
        (λ cell. Turns cell.limit cell.form line.now
        (record { desk = desk.old; shown = shown.old })
        (record { desk = desk.new; shown = shown.new })) }
    ensures of_board { IsDeskOf board.now desk.new }
    ensures owner { desk.new.owner ≡ desk.old.owner }
{
    if !is_done(&shown.end) {
        return;
    }
    let mut items = take_items(alloc, shown);
    let end = act(rt, alloc, line, desk, board, &mut items);
    *shown = Transcript {
        items: Listing::from_vec(items),
        end,
    };
}

// A connector departs from a structure at which it is active.
fn depart<L: Link>(
    rt: &impl Wait,
    alloc: Global,
    on: StrNo,
    desk: &mut Desk,
    board: &Board<L>,
    shown: &mut Transcript,
)
    requires desk { IsDeskOf board.now desk.old }
    requires place { on.0 < length board.now.cells }
    requires connector { IsConnector desk.old.owner }
    ensures departed { IfSome (cell_on board.now on)
        (λ cell. Departs cell.limit cell.form on
        (record { desk = desk.old; shown = shown.old })
        (record { desk = desk.new; shown = shown.new })) }
    ensures of_board { IsDeskOf board.now desk.new }
    ensures owner { desk.new.owner ≡ desk.old.owner }
{
    if !is_done(&shown.end) || !desk.linked(on) {
        return;
    }
    let ask = closing_ask(board.kind(on));
    let first = Step::Call { asks: 0 };
    let mut items = take_items(alloc, shown);
    let call = LineCall {
        on,
        ask: Some(&ask),
    };
    let end = ask_all(rt, alloc, board, &call, first, desk, &mut items);
    *shown = Transcript {
        items: Listing::from_vec(items),
        end,
    };
}

/// A connector that has done its lines departs (DISCONNECT, IXLDISC) from each structure at which
/// it is active by the replies to its own calls, in the order of the script. The operator has no
/// closing.
pub fn closing<L: Link>(
    rt: &impl Wait,
    alloc: Global,
    desk: &mut Desk,
    board: &Board<L>,
    shown: &mut Transcript,
)
    requires desk { IsDeskOf board.now desk.old }
    requires owner { IsCaller desk.old.owner }
    ensures closed { Closes board.now (record { desk = desk.old; shown = shown.old })
        (record { desk = desk.new; shown = shown.new }) }
    ensures of_board { IsDeskOf board.now desk.new }
    ensures owner { desk.new.owner ≡ desk.old.owner }
{
    if desk.owner().0 == 0 {
        return;
    }
    for number in 0..board.structures() {
        depart(rt, alloc, StrNo(number), desk, board, shown);
    }
}

// A turn, of which the gate is told, unless the caller's work ended before.
fn gated_turn<L: Link, G: Gate>(
    rt: &impl Wait,
    alloc: Global,
    line: &Line,
    desk: &mut Desk,
    board: &Board<L>,
    gate: &G,
    shown: &mut Transcript,
)
    requires desk { IsDeskOf board.now desk.old }
    requires owner { IsCaller desk.old.owner }
    requires caller { line.now.by ≡ desk.old.owner }
    requires line { IsLineFor board.now line.now }
    ensures turned { IfSome (cell_on board.now line.now.on)
        (λ cell. Turns cell.limit cell.form line.now
        (record { desk = desk.old; shown = shown.old })
        (record { desk = desk.new; shown = shown.new })) }
    ensures of_board { IsDeskOf board.now desk.new }
    ensures owner { desk.new.owner ≡ desk.old.owner }
{
    if !is_done(&shown.end) {
        return;
    }
    gate.before(line.by, line.at);
    turn(rt, alloc, line, desk, board, shown);
    gate.after(line.by, line.at);
}

/// Does the lines of the desk's owner among those of the script, in order, and then its closing.
/// The gate is told of each of the lines.
pub fn serve<L: Link, G: Gate>(
    rt: &impl Wait,
    alloc: Global,
    lines: &[Line],
    desk: &mut Desk,
    board: &Board<L>,
    gate: &G,
) -> Transcript
    requires desk { IsDeskOf board.now desk.old }
    requires owner { IsCaller desk.old.owner }
    requires lines { All (IsLineFor board.now) lines.now }
    ensures served { Serves board.now lines.now (record { desk = desk.old; shown = no_items })
        (record { desk = desk.new; shown = result }) }
    ensures of_board { IsDeskOf board.now desk.new }
    ensures owner { desk.new.owner ≡ desk.old.owner }
{
    let mut shown = Transcript {
        items: Listing::new(alloc),
        end: AgentEnd::Done,
    };
    let owner = desk.owner();
    for line in lines {
        if line.by == owner {
            gated_turn(rt, alloc, line, desk, board, gate, &mut shown);
        }
    }
    closing(rt, alloc, desk, board, &mut shown);
    shown
}
