//! Two members share a page through a cache structure, all on one thread: each call is answered at
//! once, and the vector bits that it changed are told.
#![tactic(auto)]

mod pool;
mod shown;

ghost use Rattle.struct_machine.specs.EngineApi.Asking.{MayAsk};

use pool::{Pool, ask_pool, start_pool};
use shown::{Fault, print_bits, print_reply};
use std::alloc::Global;
use struct_machine::Changed;
use struct_machine::api::Ask;
use struct_machine::types::{Body, CacheCmd, ConnId, Name16, NoMemory, ShellCmd};

/// The members, by their numbers as connectors.
const A: ConnId = ConnId(1);

const B: ConnId = ConnId(2);

/// The index, in each member's vector, of the bit that says whether its copy of the page is valid.
const COPY: u32 = 0;

/// The pages, by their names with blanks behind them.
const P1: Name16 = Name16(*b"P1              ");

const P2: Name16 = Name16(*b"P2              ");

/// IXLCONN: the caller becomes a connector.
const CONNECT: Ask<CacheCmd> = Ask::Shell(ShellCmd::Connect { keep: false });

fn main(rt: HostRuntime) -> Result<(), Fault> {
    let alloc = rt.alloc();
    let mut pool = start_pool(alloc)?;
    call(&rt, alloc, &mut pool, A, &CONNECT)?;
    call(&rt, alloc, &mut pool, B, &CONNECT)?;
    share(&rt, alloc, &mut pool)
}

// Both members read the page, A writes it, and B reads it again. Then B's index is in use for it, so
// it can't be for another page.
fn share(rt: &impl Print, alloc: Global, pool: &mut Pool) -> Result<(), Fault> {
    call(rt, alloc, pool, A, &Ask::Content(read(P1)))?;
    call(rt, alloc, pool, B, &Ask::Content(read(P1)))?;
    call(rt, alloc, pool, A, &Ask::Content(write(alloc)?))?;
    call(rt, alloc, pool, B, &Ask::Content(read(P1)))?;
    call(rt, alloc, pool, B, &Ask::Content(read(P2)))
}

// IXLCACHE READ_DATA: it registers the reader, and its bit says so.
fn read(name: Name16) -> CacheCmd {
    CacheCmd::Read {
        name,
        index: COPY,
        old: None,
        stg: 1,
    }
}

// IXLCACHE WRITE_DATA: each copy of the page but the writer's own is no longer valid.
fn write(alloc: Global) -> Result<CacheCmd, NoMemory> {
    let body = Body::from_vec(Vec::from_slice(alloc, b"balance-17")?);
    Ok(CacheCmd::Write {
        name: P1,
        index: COPY,
        body,
        class: Some(1),
        adj: None,
        old: None,
        stg: 1,
        when_reg: false,
    })
}

// A member's call: who it is, the reply, and the bits that changed.
fn call(
    rt: &impl Print,
    alloc: Global,
    pool: &mut Pool,
    by: ConnId,
    ask: &Ask<CacheCmd>,
) -> Result<(), Fault>
    requires { MayAsk by ask.now }
{
    let mut changed = Changed::none(alloc);
    let reply = ask_pool(alloc, pool, by, ask, &mut changed)?;
    print_reply(rt, by, &reply)?;
    print_bits(rt, &changed)
}
