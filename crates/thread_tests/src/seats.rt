//! What a caller does at its desk: calls and tests of the one page, and notes.
ghost use Rattle.plex_board.specs.EngineApi.Asking.{MayAsk};
ghost use Rattle.thread_tests.specs.Seats.{IsSeat};

use crate::halts::Halt;
use plex_board::Desk;
use plex_board::api::Ask;
use plex_board::links::Steady;
use plex_board::scripts::AnyAsk;
use plex_board::types::{AlterCmd, CacheCmd, Name16, ShellCmd, StrNo, parse_body};
use plex_board::vectors::Tested;
use plex_engines::Board;
use std::alloc::Global;
use std::sync::Wait;

/// The cache.
pub(crate) const CACHE: StrNo = StrNo(0);

/// The name of the page.
const PAGE: Name16 = Name16([b'P'; 16]);

/// The index of the page's copy in each connector's vector.
const INDEX: u32 = 0;

// A call of the cache, which answers its number.
fn call(
    rt: &impl Wait,
    alloc: Global,
    board: &Board<Steady>,
    desk: &mut Desk,
    ask: Ask<AlterCmd<CacheCmd>>,
) -> Result<u32, Halt>
    requires seat { IsSeat board.now desk.old }
    requires may { MayAsk desk.old.owner ask }
    ensures { IsSeat board.now desk.new }
{
    let told = board.call(rt, alloc, desk, CACHE, AnyAsk::Cache(ask))?;
    Ok(told.no)
}

/// Connects the caller.
pub fn connect(
    rt: &impl Wait,
    alloc: Global,
    board: &Board<Steady>,
    desk: &mut Desk,
) -> Result<u32, Halt>
    requires { IsSeat board.now desk.old }
    ensures { IsSeat board.now desk.new }
{
    let ask = Ask::Shell(ShellCmd::Connect { keep: false });
    call(rt, alloc, board, desk, ask)
}

/// Reads the page, so that the bit of its copy stands.
pub fn read(
    rt: &impl Wait,
    alloc: Global,
    board: &Board<Steady>,
    desk: &mut Desk,
) -> Result<u32, Halt>
    requires { IsSeat board.now desk.old }
    ensures { IsSeat board.now desk.new }
{
    let read = CacheCmd::Read {
        name: PAGE,
        index: INDEX,
        old: None,
        stg: 1,
    };
    let ask = Ask::Content(AlterCmd::Inner(read));
    call(rt, alloc, board, desk, ask)
}

/// Writes the page, which clears the bits of all others' copies.
pub fn write(
    rt: &impl Wait,
    alloc: Global,
    board: &Board<Steady>,
    desk: &mut Desk,
) -> Result<u32, Halt>
    requires { IsSeat board.now desk.old }
    ensures { IsSeat board.now desk.new }
{
    let Ok(body) = parse_body(alloc, b"x") else {
        return Err(Halt::NoMemory);
    };
    let write = CacheCmd::Write {
        name: PAGE,
        index: INDEX,
        body,
        class: Some(1),
        adj: None,
        old: None,
        stg: 1,
        when_reg: false,
    };
    let ask = Ask::Content(AlterCmd::Inner(write));
    call(rt, alloc, board, desk, ask)
}

/// Tests the bit of the caller's copy.
pub fn test(board: &Board<Steady>, desk: &mut Desk) -> Tested
    requires { IsSeat board.now desk.old }
    ensures { IsSeat board.now desk.new }
{
    board.test(desk, CACHE, INDEX)
}

/// Posts a note of what the caller has seen, and answers the number of a call that it has seen
/// complete.
pub fn post(rt: &impl Wait, board: &Board<Steady>, desk: &mut Desk) -> u32
    requires { IsSeat board.now desk.old }
    ensures { IsSeat board.now desk.new }
{
    board.post(rt, desk, CACHE)
}

/// Takes the note that was posted last, and answers the number of a call that the caller has now
/// seen complete.
pub fn take(rt: &impl Wait, board: &Board<Steady>, desk: &mut Desk) -> u32
    requires { IsSeat board.now desk.old }
    ensures { IsSeat board.now desk.new }
{
    board.take(rt, desk, CACHE)
}
