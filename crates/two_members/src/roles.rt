//! What each member does at its desk.
ghost use Rattle.std.specs.Prelude.{◌≡◌, ◌≤◌, IfOk, false};
ghost use Rattle.plex_board.specs.RunShown.Kinds.{MayAskAny};
ghost use Rattle.plex_board.specs.PlexScript.declared.scripts.AnyAsk.TheVariants as any;
ghost use Rattle.two_members.specs.Members.{IsMember, Stays, HasRead, HasTested, replies_at, sure_at};

use crate::fault::Fault;
use crate::seen::Seen;
use plex_board::Desk;
use plex_board::api::Ask;
use plex_board::links::Steady;
use plex_board::scripts::AnyAsk;
use plex_board::types::{AlterCmd, CacheCmd, Name16, ShellCmd, StrNo, parse_body};
use plex_board::vectors::Tested;
use plex_engines::Board;
use std::alloc::Global;
use std::sync::Wait;
use std::thread::yield_now;

/// The structure that the members share, the first of the policy.
pub const GBP: StrNo = StrNo(0);

/// The index, in each member's vector, of the bit that says whether its copy of the page is valid.
pub const COPY: u32 = 0;

// The page, by its name with blanks behind it.
const P1: Name16 = Name16(*b"P1              ");

// How often a member looks for what the other does before it gives up.
const LOOKS: u32 = 10_000_000;

/// Member A: connects, and writes the page once the reader has its copy of it.
pub fn writer(
    rt: &impl Wait,
    alloc: Global,
    board: &Board<Steady>,
    desk: &mut Desk,
) -> Result<(), Fault>
    requires { IsMember board.now desk.old }
    ensures { Stays board.now desk.old desk.new }
{
    let connected = connect(rt, alloc, board, desk)?;
    board.post(rt, desk, GBP);
    wait_past(rt, board, desk, connected)?;
    let page = parse_body(alloc, b"balance-17").map_err(|_| Fault::NoMemory)?;
    // IXLCACHE WRITE_DATA: each copy of the page but the writer's own is no longer valid.
    let write = CacheCmd::Write {
        name: P1,
        index: COPY,
        body: page,
        class: Some(1),
        adj: None,
        old: None,
        stg: 1,
        when_reg: false,
    };
    call(rt, alloc, board, desk, Ask::Content(AlterCmd::Inner(write)))?;
    Ok(())
}

/// Member B: connects, reads the page, looks at the reply, and tests its copy till it isn't valid
/// any more.
pub fn reader(
    rt: &impl Wait,
    alloc: Global,
    board: &Board<Steady>,
    desk: &mut Desk,
) -> Result<Seen, Fault>
    requires { IsMember board.now desk.old }
    ensures stays { Stays board.now desk.old desk.new }
    ensures invalid { IfOk result (λ seen. seen.tested.bit ≡ false) }
    ensures read { IfOk result (λ seen. HasRead desk.new seen.no seen.reply) }
    ensures answered { IfOk result (λ seen. seen.no ≤ seen.sure) }
    ensures tested { IfOk result (λ seen. HasTested desk.new seen.tested seen.sure) }
{
    wait_past(rt, board, desk, 0)?;
    connect(rt, alloc, board, desk)?;
    // IXLCACHE READ_DATA: it registers the reader, and its bit says so.
    let read = CacheCmd::Read {
        name: P1,
        index: COPY,
        old: None,
        stg: 1,
    };
    let no = call(rt, alloc, board, desk, Ask::Content(AlterCmd::Inner(read)))?;
    let reply = board.reply(rt, alloc, desk, GBP, no)?;
    let sure = board.post(rt, desk, GBP);
    let tested = test_copy(board, desk)?;
    Ok(Seen {
        no,
        reply,
        sure,
        tested,
    })
}

// Tests the bit of the copy till the copy isn't valid.
fn test_copy(board: &Board<Steady>, desk: &mut Desk) -> Result<Tested, Fault>
    requires { IsMember board.now desk.old }
    ensures stays { Stays board.now desk.old desk.new }
    ensures replies { replies_at desk.new ≡ replies_at desk.old }
    ensures invalid { IfOk result (λ tested. tested.bit ≡ false) }
    ensures tested { IfOk result (λ tested. HasTested desk.new tested (sure_at desk.old)) }
{
    for _ in 0..LOOKS {
        // IXLVECTR TESTLOCALCACHE: no lock, no call.
        let tested = board.test(desk, GBP, COPY);
        if !tested.bit {
            return Ok(tested);
        }
        yield_now();
    }
    Err(Fault::Alone)
}

// IXLCONN: the member connects. It answers the number of the call.
fn connect(
    rt: &impl Wait,
    alloc: Global,
    board: &Board<Steady>,
    desk: &mut Desk,
) -> Result<u32, Fault>
    requires { IsMember board.now desk.old }
    ensures { Stays board.now desk.old desk.new }
{
    let connect = Ask::Shell(ShellCmd::Connect { keep: false });
    call(rt, alloc, board, desk, connect)
}

// Makes a call of the cache structure. It answers the call's number in the history.
fn call(
    rt: &impl Wait,
    alloc: Global,
    board: &Board<Steady>,
    desk: &mut Desk,
    ask: Ask<AlterCmd<CacheCmd>>,
) -> Result<u32, Fault>
    requires member { IsMember board.now desk.old }
    requires ask { MayAskAny desk.old.owner (any.Cache ask) }
    ensures stays { Stays board.now desk.old desk.new }
    ensures answered { IfOk result (λ no. no ≤ sure_at desk.new) }
{
    let told = board.call(rt, alloc, desk, GBP, AnyAsk::Cache(ask))?;
    Ok(told.no)
}

// Takes notes till one tells of a call past this one.
fn wait_past(rt: &impl Wait, board: &Board<Steady>, desk: &mut Desk, call: u32) -> Result<(), Fault>
    requires { IsMember board.now desk.old }
    ensures { Stays board.now desk.old desk.new }
{
    for _ in 0..LOOKS {
        if board.take(rt, desk, GBP) > call {
            return Ok(());
        }
        yield_now();
    }
    Err(Fault::Alone)
}
