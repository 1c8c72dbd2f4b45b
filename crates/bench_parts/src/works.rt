//! What is done to an engine.
ghost use Rattle.std.specs.Prelude.{◌≤◌};
ghost use Rattle.plex_board.specs.CfTypes.Forms.{IsCaller};

use crate::row_pages::page;
use plex_board::api::Engine;
use plex_board::types::{Body, CacheCmd, ConnId, Effects, Name16, NoMemory};
use plex_engines::caches::CacheEngine;
use std::alloc::Global;

/// What is done again and again: a READ of a page that has a row; one of a page that has none, for
/// which a row is reclaimed; a WRITE; CASTOUT, WRITE and UNLOCK; a READ by each of 31 others and
/// CROSSINVAL; COCLASS.
#[derive(Clone, Copy)]
pub enum Work {
    Read,
    Reclaim,
    Write,
    Castout,
    Invalidate,
    List,
}

// The connector that gives most commands.
const USER: ConnId = ConnId(1);

/// The data of each page.
const DATA: &[u8] = b"0123456789abcdef0123456789abcdef0123456789abcdef0123456789abcdef";

// Does a command of a connector, and says whether it was accepted.
fn command(
    engine: &mut CacheEngine,
    by: ConnId,
    cmd: &CacheCmd,
    out: &mut Effects,
) -> Result<bool, NoMemory>
    requires { IsCaller by }
{
    out.clear();
    engine.ready(by, cmd, out)?;
    match engine.apply(by, cmd, out) {
        Ok(_) => Ok(true),
        Err(_) => Ok(false),
    }
}

// READ_DATA of a page at one index, in place of the page that was last there.
fn read(name: Name16, last: Name16) -> CacheCmd {
    CacheCmd::Read {
        name,
        index: 3,
        old: Some(last),
        stg: 1,
    }
}

/// WRITE_DATA of a page at one index, in place of the page that was last there.
fn write(
    alloc: Global,
    name: Name16,
    last: Name16,
    class: Option<u32>,
) -> Result<CacheCmd, NoMemory> {
    let body = Body::from_vec(Vec::from_slice(alloc, DATA)?);
    Ok(CacheCmd::Write {
        name,
        index: 3,
        body,
        class,
        adj: None,
        old: Some(last),
        stg: 1,
        when_reg: false,
    })
}

/// The castout class of a page, where its rows are changed.
pub fn class_of(number: u32) -> Option<u32> {
    Some(number % 16 + 1)
}

/// Writes a page.
pub fn write_page(
    alloc: Global,
    engine: &mut CacheEngine,
    number: u32,
    last: u32,
    changed: bool,
    out: &mut Effects,
) -> Result<bool, NoMemory> {
    let class = if changed { class_of(number) } else { None };
    let cmd = write(alloc, page(number), page(last), class)?;
    command(engine, USER, &cmd, out)
}

// Reads a page.
fn read_page(
    engine: &mut CacheEngine,
    number: u32,
    last: u32,
    out: &mut Effects,
) -> Result<bool, NoMemory> {
    command(engine, USER, &read(page(number), page(last)), out)
}

// Casts a page out that is written meanwhile.
fn cast_out(
    alloc: Global,
    engine: &mut CacheEngine,
    number: u32,
    last: u32,
    out: &mut Effects,
) -> Result<bool, NoMemory> {
    let name = page(number);
    let held = command(engine, USER, &CacheCmd::Castout { name }, out)?;
    let written = write_page(alloc, engine, number, last, true, out)?;
    let freed = command(engine, USER, &CacheCmd::Unlock { name }, out)?;
    Ok(held && written && freed)
}

// The others read a page, and their copies are made invalid.
fn invalidate(
    engine: &mut CacheEngine,
    number: u32,
    last: u32,
    out: &mut Effects,
) -> Result<bool, NoMemory> {
    let cmd = read(page(number), page(last));
    for conn in 2..33u8 {
        command(engine, ConnId(conn), &cmd, out)?;
    }
    command(
        engine,
        USER,
        &CacheCmd::CrossInval { name: page(number) },
        out,
    )
}

/// Does it once, to the page with a number, where another was the last.
pub fn work_once(
    alloc: Global,
    engine: &mut CacheEngine,
    work: Work,
    number: u32,
    last: u32,
    out: &mut Effects,
) -> Result<bool, NoMemory> {
    match work {
        Work::Read | Work::Reclaim => read_page(engine, number, last, out),
        Work::Write => write_page(alloc, engine, number, last, true, out),
        Work::Castout => cast_out(alloc, engine, number, last, out),
        Work::Invalidate => invalidate(engine, number, last, out),
        Work::List => command(
            engine,
            USER,
            &CacheCmd::CoClass {
                class: number % 16 + 1,
            },
            out,
        ),
    }
}

/// The number of the page to which it is done the next time, among so many rows.
pub fn next_number(work: Work, number: u32, rows: u32) -> u32
    requires { 1 ≤ rows }
{
    match work {
        Work::Reclaim => number.wrapping_add(1),
        _ => number.wrapping_add(37) % rows,
    }
}

/// Whether the rows are changed ones.
pub fn are_changed(work: Work) -> bool {
    matches!(work, Work::Write | Work::Castout | Work::List)
}
