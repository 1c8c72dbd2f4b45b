//! READs and tests through a board.
ghost use Rattle.std.specs.Prelude.{◌≡◌, ◌<◌, ◌+◌, ◌∷◌, [], IfOk, IfSome, map};
ghost use Rattle.std.specs.Vec.{vec_len};
ghost use Rattle.std.specs.List.{range_with_len};
ghost use Rattle.plex_board.specs.CfTypes.declared.limits.TheConstants.{LINKS};
ghost use Rattle.plex_board.specs.EngineApi.Asking.{MayAsk};
ghost use Rattle.plex_board.specs.Boards.{new_desk};
ghost use Rattle.bench_parts.specs.Seats.{IsOneCache, IsCacheBoard, IsOperated, IsSeated};

use crate::faults::{Timed, call_error};
use crate::pages::{PAGES, form, name, read, write};
use plex_board::Desk;
use plex_board::api::{Ask, Told};
use plex_board::cells::CallRefused;
use plex_board::links::Steady;
use plex_board::scripts::{AnyAsk, Script};
use plex_board::types::limits::LINKS;
use plex_board::types::{AlterCmd, CacheCmd, Listing, NoMemory, ShellCmd, StrNo};
use plex_engines::Board;
use std::alloc::Global;
use std::io;
use std::sync::Wait;
use std::time::{Clock, Instant};

/// How many calls a journal takes.
const JOURNAL_LIMIT: u32 = 65_536;

// The structure of the pages.
const POOL: StrNo = StrNo(0);

// A script of one cache structure and one connector, without lines.
fn policy(alloc: Global) -> Result<Script, NoMemory>
    ensures { IfOk result IsOneCache }
{
    let mut structures = Listing::new(alloc);
    structures.push(form(alloc)?)?;
    let mut connectors = Listing::new(alloc);
    connectors.push(name(b'C', 1))?;
    Ok(Script {
        facilities: Listing::new(alloc),
        structures,
        connectors,
        lines: Listing::new(alloc),
    })
}

// The desk of the connector, the last of two. The operator's is left.
fn last_desk(board: &Board<Steady>, desks: &mut Vec<Desk>) -> Option<Desk>
    requires board { IsCacheBoard board.now }
    requires desks { desks.old.items ≡ map (new_desk board.now) (range_with_len 0 (1 + 1)) }
    ensures desk { IfSome result (IsSeated board.now) }
    ensures rest { IfSome result (λ _. desks.new.items ≡ new_desk board.now 0 ∷ []) }
{
    desks.pop()
}

// The desk of the operator, where it is the only one.
fn operator_desk(board: &Board<Steady>, mut desks: Vec<Desk>) -> Option<Desk>
    requires board { IsCacheBoard board.now }
    requires desks { desks.items ≡ new_desk board.now 0 ∷ [] }
    ensures { IfSome result (IsOperated board.now) }
{
    desks.pop()
}

// The operator has a second instance made, in the other facility.
fn duplex(
    rt: &impl Wait,
    alloc: Global,
    board: &Board<Steady>,
    operator: &mut Desk,
) -> Result<(), CallRefused>
    requires { IsOperated board.now operator.old }
{
    let ask = Ask::Shell(ShellCmd::DuplexStart);
    board.call(rt, alloc, operator, POOL, AnyAsk::Cache(ask))?;
    Ok(())
}

// A call to the structure.
fn call(
    rt: &impl Wait,
    alloc: Global,
    board: &Board<Steady>,
    desk: &mut Desk,
    ask: Ask<AlterCmd<CacheCmd>>,
) -> Result<Told, CallRefused>
    requires seated { IsSeated board.now desk.old }
    requires may { MayAsk desk.old.owner ask }
    ensures { IsSeated board.now desk.new }
{
    board.call(rt, alloc, desk, POOL, AnyAsk::Cache(ask))
}

// Whether a bit of the connector's vector is set, as a call of its own.
#[inline(never)]
fn is_set(board: &Board<Steady>, desk: &mut Desk, index: u32) -> bool
    requires seated { IsSeated board.now desk.old }
    requires index { index < 32 }
    ensures { IsSeated board.now desk.new }
{
    board.test(desk, POOL, index).bit
}

// Connects, and writes all pages.
fn fill(
    rt: &impl Wait,
    alloc: Global,
    board: &Board<Steady>,
    desk: &mut Desk,
) -> Result<(), CallRefused>
    requires { IsSeated board.now desk.old }
    ensures { IsSeated board.now desk.new }
{
    call(
        rt,
        alloc,
        board,
        desk,
        Ask::Shell(ShellCmd::Connect { keep: false }),
    )?;
    for k in 0..PAGES {
        let write = AlterCmd::Inner(write(alloc, k)?);
        call(rt, alloc, board, desk, Ask::Content(write))?;
    }
    Ok(())
}

// A board of the script's structure, and the desks of its callers.
fn open(
    rt: &impl Wait,
    alloc: Global,
    policy: &Script,
    links: Vec<Steady>,
) -> Result<(Board<Steady>, Vec<Desk>), (Vec<Steady>, NoMemory)>
    requires policy { IsOneCache policy.now }
    requires links { vec_len links ≡ LINKS }
    ensures board { IfOk result (λ r. IsCacheBoard r.0) }
    ensures desks { IfOk result
        (λ r. r.1.items ≡ map (new_desk r.0) (range_with_len 0 (1 + 1))) }
{
    Board::start(rt, alloc, policy, JOURNAL_LIMIT, links)
}

// A board with all pages, in one instance or in two, and the desk of the connector that wrote them.
fn start(
    rt: &impl Wait,
    alloc: Global,
    duplexed: bool,
) -> Result<(Board<Steady>, Desk), CallRefused>
    ensures { IfOk result (λ r. IsSeated r.0 r.1) }
{
    let policy = policy(alloc)?;
    let links = vec![in alloc; Steady; LINKS].map_err(NoMemory::from)?;
    let (board, mut desks) = match open(rt, alloc, &policy, links) {
        Ok(begun) => begun,
        Err((_, cause)) => return Err(CallRefused::NoMemory(cause)),
    };
    let Some(mut desk) = last_desk(&board, &mut desks) else {
        return Err(CallRefused::JournalFull { limit: 0 });
    };
    let Some(mut operator) = operator_desk(&board, desks) else {
        return Err(CallRefused::JournalFull { limit: 0 });
    };
    fill(rt, alloc, &board, &mut desk)?;
    if duplexed {
        duplex(rt, alloc, &board, &mut operator)?;
    }
    Ok((board, desk))
}

// Reads the pages in turn, and says the number of the last call.
#[inline(never)]
fn read_pages(
    rt: &impl Wait,
    alloc: Global,
    board: &Board<Steady>,
    desk: &mut Desk,
    reads: u32,
) -> Result<u32, CallRefused>
    requires { IsSeated board.now desk.old }
    ensures { IsSeated board.now desk.new }
{
    let mut last = 0;
    for k in 0..reads {
        let read = AlterCmd::Inner(read(k));
        last = call(rt, alloc, board, desk, Ask::Content(read))?.no;
    }
    Ok(last)
}

// Tests the bits in turn, and says how often one was set.
fn test_bits(board: &Board<Steady>, desk: &mut Desk, tests: u32) -> u32
    requires { IsSeated board.now desk.old }
{
    let mut set = 0u32;
    for k in 0..tests {
        if is_set(board, desk, k % PAGES) {
            set = set.wrapping_add(1);
        }
    }
    set
}

fn time_reads(
    rt: &(impl Wait + Clock),
    alloc: Global,
    board: &Board<Steady>,
    desk: &mut Desk,
    reads: u32,
) -> io::Result<Timed>
    requires { IsSeated board.now desk.old }
    ensures { IsSeated board.now desk.new }
{
    let start = Instant::now(rt)?;
    let read = read_pages(rt, alloc, board, desk, reads);
    let nanos = start.elapsed(rt)?.as_nanos();
    let count = read.map_err(call_error)?;
    Ok(Timed { count, nanos })
}

fn time_tests(
    rt: &impl Clock,
    board: &Board<Steady>,
    desk: &mut Desk,
    tests: u32,
) -> io::Result<Timed>
    requires { IsSeated board.now desk.old }
{
    let start = Instant::now(rt)?;
    let count = test_bits(board, desk, tests);
    let nanos = start.elapsed(rt)?.as_nanos();
    Ok(Timed { count, nanos })
}

/// Reads the pages of a structure, in one instance or in two, through a board in turn, up to 65,502
/// times, and says the number of the last call; then tests the bits in turn, and counts those that
/// were set.
pub fn use_board(
    rt: &(impl Wait + Clock),
    alloc: Global,
    duplexed: bool,
    reads: u32,
    tests: u32,
) -> io::Result<(Timed, Timed)> {
    let (board, mut desk) = start(rt, alloc, duplexed).map_err(call_error)?;
    let read = time_reads(rt, alloc, &board, &mut desk, reads)?;
    let tested = time_tests(rt, &board, &mut desk, tests)?;
    Ok((read, tested))
}
