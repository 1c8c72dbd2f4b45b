//! What the two members do, one call after another.
ghost use Rattle.std.specs.Prelude.{◌≡◌, ◌≤◌, IfOk};
ghost use Rattle.plex_board.specs.RunShown.Kinds.{MayAskAny};
ghost use Rattle.plex_board.specs.PlexScript.declared.scripts.AnyAsk.TheVariants as any;
ghost use Rattle.failover.specs.Members.{AreSeated, HasTested};

use crate::fault::Fault;
use plex_board::Desk;
use plex_board::api::Ask;
use plex_board::links::ListLink;
use plex_board::scripts::AnyAsk;
use plex_board::types::{AlterCmd, CacheCmd, ConnId, Name16, ShellCmd, StrNo, parse_body};
use plex_board::vectors::Tested;
use plex_engines::Board;
use std::alloc::Global;
use std::sync::Wait;

/// The structure that the members share, the first of the policy.
pub const GBP: StrNo = StrNo(0);

/// The index, in each member's vector, of the bit that says whether its copy of the page is valid.
pub const COPY: u32 = 0;

// The callers: the operator, and the members.
const OPERATOR: ConnId = ConnId(0);

const A: ConnId = ConnId(1);

const B: ConnId = ConnId(2);

// The page, by its name with blanks behind it.
const P1: Name16 = Name16(*b"P1              ");

/// The members share a page. The facility of the first instance is lost at A's second write, which
/// the second instance then does; that is lost too when A casts out. Then B tests its copy.
pub fn work(
    rt: &impl Wait,
    alloc: Global,
    board: &Board<ListLink>,
    desks: &mut Vec<Desk>,
) -> Result<Tested, Fault>
    requires { AreSeated board.now desks.old.items }
    ensures seated { AreSeated board.now desks.new.items }
    ensures tested { IfOk result (HasTested desks.new.items) }
{
    begin(rt, alloc, board, desks)?;
    share(rt, alloc, board, desks)?;
    let castout = Ask::Content(AlterCmd::Inner(CacheCmd::Castout { name: P1 }));
    call(rt, alloc, board, desks, A, castout)?;
    Ok(test_copy(board, desks))
}

// Both connect, and the operator has a second instance made (IXLCONN, IXLREBLD STARTDUPLEX).
fn begin(
    rt: &impl Wait,
    alloc: Global,
    board: &Board<ListLink>,
    desks: &mut Vec<Desk>,
) -> Result<(), Fault>
    requires { AreSeated board.now desks.old.items }
    ensures { AreSeated board.now desks.new.items }
{
    let connect = ShellCmd::Connect { keep: false };
    call(rt, alloc, board, desks, A, Ask::Shell(connect))?;
    call(rt, alloc, board, desks, B, Ask::Shell(connect))?;
    call(
        rt,
        alloc,
        board,
        desks,
        OPERATOR,
        Ask::Shell(ShellCmd::DuplexStart),
    )
}

// A writes the page twice, and B reads it behind each write.
fn share(
    rt: &impl Wait,
    alloc: Global,
    board: &Board<ListLink>,
    desks: &mut Vec<Desk>,
) -> Result<(), Fault>
    requires { AreSeated board.now desks.old.items }
    ensures { AreSeated board.now desks.new.items }
{
    for data in [b"balance-17", b"balance-25"] {
        let write = write(alloc, data)?;
        call(
            rt,
            alloc,
            board,
            desks,
            A,
            Ask::Content(AlterCmd::Inner(write)),
        )?;
        call(
            rt,
            alloc,
            board,
            desks,
            B,
            Ask::Content(AlterCmd::Inner(READ)),
        )?;
    }
    Ok(())
}

// IXLCACHE READ_DATA: it registers the reader, and its bit says so.
const READ: CacheCmd = CacheCmd::Read {
    name: P1,
    index: COPY,
    old: None,
    stg: 1,
};

// IXLCACHE WRITE_DATA: each copy of the page but the writer's own is no longer valid.
fn write(alloc: Global, data: &[u8]) -> Result<CacheCmd, Fault> {
    let body = parse_body(alloc, data).map_err(|_| Fault::NoMemory)?;
    Ok(CacheCmd::Write {
        name: P1,
        index: COPY,
        body,
        class: Some(1),
        adj: None,
        old: None,
        stg: 1,
        when_reg: false,
    })
}

// B tests the bit of its copy (IXLVECTR TESTLOCALCACHE): no lock, no call.
fn test_copy(board: &Board<ListLink>, desks: &mut Vec<Desk>) -> Tested
    requires { AreSeated board.now desks.old.items }
    ensures seated { AreSeated board.now desks.new.items }
    ensures tested { HasTested desks.new.items result }
{
    board.test(&mut desks[usize::from(B.0)], GBP, COPY)
}

// A caller's call of the structure.
fn call(
    rt: &impl Wait,
    alloc: Global,
    board: &Board<ListLink>,
    desks: &mut Vec<Desk>,
    who: ConnId,
    ask: Ask<AlterCmd<CacheCmd>>,
) -> Result<(), Fault>
    requires seated { AreSeated board.now desks.old.items }
    requires who { who.0 ≤ 2 }
    requires ask { MayAskAny who (any.Cache ask) }
    ensures { AreSeated board.now desks.new.items }
{
    let desk = &mut desks[usize::from(who.0)];
    board.call(rt, alloc, desk, GBP, AnyAsk::Cache(ask))?;
    Ok(())
}
