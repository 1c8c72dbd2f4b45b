//! The lines of connectors.

ghost use Rattle.std.specs.Prelude.{◌≡◌, ◌<◌, ◌≤◌, ◌++◌, IfOk, OnOk, map};
ghost use Rattle.std.specs.List.{range_with_len};
ghost use Rattle.plex_load.specs.Generated.{index_of, number_after, lines_each, own_line, page, body, content_call, read, write, work, connect_line, work_line, connector_lines};

use crate::numbers::{index_of, next_number};
use crate::policy::letter;
use crate::texts::{data, name, numbered};
use plex_script::api::Ask;
use plex_script::types::{AlterCmd, Body, CacheCmd, ConnId, Name16, NoMemory, ShellCmd, StrNo};
use plex_script::{Act, AnyAsk, Line};
use std::alloc::Global;

// How many lines a connector has behind its CONNECT.
#[tactic(auto, unfolding(crate::specs::Generated::lines_each))]
fn lines_each() -> u32
    ensures value { result ≡ lines_each }
    ensures most { result ≤ 1000 }
{
    1_000
}

// The name of the page with this number.
fn page(alloc: Global, index: u32) -> Result<Name16, NoMemory>
    ensures { IfOk result (λ name. name ≡ page index) }
{
    let text = numbered(alloc, b"N", index)?;
    Ok(name(text.as_slice()))
}

// What a connector writes in a line.
fn body(alloc: Global, caller: u8, i: u32) -> Result<Body, NoMemory>
    requires { caller < 4 }
    ensures { IfOk result (λ bytes. bytes ≡ body caller i) }
{
    let text = numbered(alloc, &[letter(caller)], i)?;
    data(alloc, text.as_slice())
}

// A command on the content of the cache.
fn content_call(cmd: CacheCmd) -> Act
    ensures { result ≡ content_call cmd }
{
    Act::Call(AnyAsk::Cache(Ask::Content(AlterCmd::Inner(cmd))))
}

// IXLCACHE READ_DATA: reads a page at the bit with its number.
fn read(alloc: Global, index: u32) -> Result<Act, NoMemory>
    ensures { IfOk result (λ act. act ≡ read index) }
{
    Ok(content_call(CacheCmd::Read {
        name: page(alloc, index)?,
        index,
        old: None,
        stg: 1,
    }))
}

// IXLCACHE WRITE_DATA: changes a page.
fn write(alloc: Global, caller: u8, i: u32, index: u32) -> Result<Act, NoMemory>
    requires { caller < 4 }
    ensures { IfOk result (λ act. act ≡ write caller i index) }
{
    Ok(content_call(CacheCmd::Write {
        name: page(alloc, index)?,
        index,
        body: body(alloc, caller, i)?,
        class: Some(1),
        adj: None,
        old: None,
        stg: 1,
        when_reg: false,
    }))
}

// What a connector does in line i, from 1 on.
fn work(alloc: Global, caller: u8, i: u32, index: u32) -> Result<Act, NoMemory>
    requires { caller < 4 }
    ensures { IfOk result (λ act. act ≡ work caller i index) }
{
    match i % 4 {
        0 => Ok(Act::Test(index)),
        1 => write(alloc, caller, i, index),
        _ => read(alloc, index),
    }
}

// Line i of a connector; line 0 is its CONNECT.
fn line(caller: u8, i: u32, act: Act) -> Line
    requires caller { caller < 4 }
    requires i { i ≤ 1000 }
    ensures { result ≡ own_line caller i act }
{
    Line {
        // The policy has seven lines, and each connector 1,001.
        at: 8 + 1_001 * u32::from(caller) + i,
        by: ConnId(caller + 1),
        on: StrNo(0),
        act,
        retry: 0,
    }
}

// Line i of a connector, from 1 on, which has this number.
fn work_line(alloc: Global, caller: u8, i: u32, number: u32) -> Result<Line, NoMemory>
    requires caller { caller < 4 }
    requires i { i ≤ 1000 }
    ensures { IfOk result (λ line. line ≡ own_line caller i (work caller i (index_of number))) }
{
    Ok(line(caller, i, work(alloc, caller, i, index_of(number))?))
}

// Puts so many lines of a connector to others. The number goes on from this one; what is answered
// is the number of the last line.
#[tactic(auto, using(crate::proofs::NumberLaws::work_begun, crate::proofs::NumberLaws::after_more, crate::proofs::NumberLaws::lines_more))]
fn put_work(
    alloc: Global,
    lines: &mut Vec<Line>,
    caller: u8,
    number: u32,
    count: u32,
) -> Result<u32, NoMemory>
    requires caller { caller < 4 }
    requires count { count ≤ 1000 }
    ensures lines { OnOk result (lines.new.items ≡ lines.old.items
        ++ map (work_line caller number) (range_with_len 1 count)) }
    ensures number { IfOk result (λ last. last ≡ number_after count number) }
{
    let mut last = number;
    for before in 0..count {
        last = next_number(last);
        lines.push(work_line(alloc, caller, before + 1, last)?)?;
    }
    Ok(last)
}

/// Puts the lines of a connector, from 0, to those of the connectors before it. The number goes on
/// from this one; what is answered is the number of the last line.
pub(crate) fn put_connector(
    alloc: Global,
    lines: &mut Vec<Line>,
    caller: u8,
    number: u32,
) -> Result<u32, NoMemory>
    requires { caller < 4 }
    ensures lines { OnOk result (lines.new.items ≡ lines.old.items
        ++ connector_lines caller number) }
    ensures number { IfOk result (λ last. last ≡ number_after lines_each number) }
{
    let connect = ShellCmd::Connect { keep: false };
    let act = Act::Call(AnyAsk::Cache(Ask::Shell(connect)));
    lines.push(line(caller, 0, act))?;
    put_work(alloc, lines, caller, number, lines_each())
}
