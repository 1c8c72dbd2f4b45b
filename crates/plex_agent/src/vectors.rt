//! What a caller does without a call: tests of its own vector, and notes for others.
ghost use Rattle.std.specs.Prelude.{◌≡◌, ◌<◌, OnOk, OnErr, IfSome, length};
ghost use Rattle.plex_board.specs.PlexScript.declared.transcripts.AgentEnd.TheVariants as ended;
ghost use Rattle.plex_board.specs.Boards.{IsDeskOf, cell_on};
ghost use Rattle.plex_board.specs.Turns.{Looks, LooksAtWord, Posts, Takes};
ghost use Rattle.plex_agent.specs.Calls.{at_work};

use crate::items::reserve_item;
use plex_board::Desk;
use plex_board::links::Link;
use plex_board::scripts::Shown;
use plex_board::types::{NoMemory, StrNo};
use plex_engines::Board;
use std::sync::Wait;

/// Tests a bit of the caller's own vector, and shows the answer, or that the bit isn't in the
/// vector. Want of memory changes nothing.
pub(crate) fn test<L: Link>(
    board: &Board<L>,
    on: StrNo,
    index: u32,
    desk: &mut Desk,
    items: &mut Vec<Shown>,
) -> Result<(), NoMemory>
    requires desk { IsDeskOf board.now desk.old }
    requires place { on.0 < length board.now.cells }
    requires caller { 0 < desk.old.owner.0 }
    ensures tested { OnOk result (IfSome (cell_on board.now on)
        (λ cell. Looks cell.form.vector on index
        (at_work desk.old items.old.items ended.Done)
        (at_work desk.new items.new.items ended.Done))) }
    ensures nothing { OnErr result ((desk.new ≡ desk.old) × (items.new.items ≡ items.old.items)) }
    ensures of_board { IsDeskOf board.now desk.new }
    ensures owner { desk.new.owner ≡ desk.old.owner }
{
    reserve_item(items)?;
    let len = board.vector(on);
    if index < len {
        let tested = board.test(desk, on, index);
        items.push_reserved(Shown::Test {
            on,
            index,
            bit: tested.bit,
            at: tested.at,
        });
    } else {
        items.push_reserved(Shown::BadIndex {
            on,
            index,
            word: false,
            len,
        });
    }
    Ok(())
}

/// Tests the 32 bits of a word of the caller's own vector, and shows them, or that the word isn't
/// in the vector. Want of memory changes nothing.
pub(crate) fn test_word<L: Link>(
    board: &Board<L>,
    on: StrNo,
    word: u32,
    desk: &mut Desk,
    items: &mut Vec<Shown>,
) -> Result<(), NoMemory>
    requires desk { IsDeskOf board.now desk.old }
    requires place { on.0 < length board.now.cells }
    requires caller { 0 < desk.old.owner.0 }
    ensures tested { OnOk result (IfSome (cell_on board.now on)
        (λ cell. LooksAtWord cell.form.vector on word
        (at_work desk.old items.old.items ended.Done)
        (at_work desk.new items.new.items ended.Done))) }
    ensures nothing { OnErr result ((desk.new ≡ desk.old) × (items.new.items ≡ items.old.items)) }
    ensures of_board { IsDeskOf board.now desk.new }
    ensures owner { desk.new.owner ≡ desk.old.owner }
{
    reserve_item(items)?;
    let len = board.vector(on);
    if 32 * u64::from(word) < u64::from(len) {
        let tested = board.test_word(desk, on, word);
        items.push_reserved(Shown::Word {
            on,
            word,
            bits: tested.bits,
            at: tested.at,
        });
    } else {
        items.push_reserved(Shown::BadIndex {
            on,
            index: word,
            word: true,
            len,
        });
    }
    Ok(())
}

/// Puts a note into the structure's box, and shows the number that it tells. Want of memory changes
/// nothing.
pub(crate) fn post<L: Link>(
    rt: &impl Wait,
    board: &Board<L>,
    on: StrNo,
    desk: &mut Desk,
    items: &mut Vec<Shown>,
) -> Result<(), NoMemory>
    requires desk { IsDeskOf board.now desk.old }
    requires place { on.0 < length board.now.cells }
    ensures posted { OnOk result (Posts on (at_work desk.old items.old.items ended.Done)
        (at_work desk.new items.new.items ended.Done)) }
    ensures nothing { OnErr result ((desk.new ≡ desk.old) × (items.new.items ≡ items.old.items)) }
    ensures of_board { IsDeskOf board.now desk.new }
    ensures owner { desk.new.owner ≡ desk.old.owner }
{
    reserve_item(items)?;
    let sure = board.post(rt, desk, on);
    items.push_reserved(Shown::Posted { on, sure });
    Ok(())
}

/// Takes what the note in the structure's box tells, and shows the number that the caller has now
/// seen complete. Want of memory changes nothing.
pub(crate) fn take<L: Link>(
    rt: &impl Wait,
    board: &Board<L>,
    on: StrNo,
    desk: &mut Desk,
    items: &mut Vec<Shown>,
) -> Result<(), NoMemory>
    requires desk { IsDeskOf board.now desk.old }
    requires place { on.0 < length board.now.cells }
    ensures taken { OnOk result (Takes on (at_work desk.old items.old.items ended.Done)
        (at_work desk.new items.new.items ended.Done)) }
    ensures nothing { OnErr result ((desk.new ≡ desk.old) × (items.new.items ≡ items.old.items)) }
    ensures of_board { IsDeskOf board.now desk.new }
    ensures owner { desk.new.owner ≡ desk.old.owner }
{
    reserve_item(items)?;
    let sure = board.take(rt, desk, on);
    items.push_reserved(Shown::Took { on, sure });
    Ok(())
}
