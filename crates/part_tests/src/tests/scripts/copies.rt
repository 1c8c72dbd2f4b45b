use super::printing::{PLAIN, is_plain};
use engine_api::types::{Listing, NoMemory};
use plex_load::scripts::{Act, Line, copy_ask, read};
use std::alloc::Global;
use std::test::Fail;

// What a line does, with a copy of its call.
fn copied_act(alloc: Global, act: &Act) -> Result<Act, NoMemory> {
    match act {
        Act::Call(ask) => Ok(Act::Call(copy_ask(alloc, ask)?)),
        Act::Test(index) => Ok(Act::Test(*index)),
        Act::TestWord(word) => Ok(Act::TestWord(*word)),
        Act::Post => Ok(Act::Post),
        Act::Take => Ok(Act::Take),
        Act::Events => Ok(Act::Events),
    }
}

fn copied(alloc: Global, line: &Line) -> Result<Line, NoMemory> {
    Ok(Line {
        at: line.at,
        by: line.by,
        on: line.on,
        act: copied_act(alloc, &line.act)?,
        retry: line.retry,
    })
}

fn all_copied(alloc: Global, lines: &[Line]) -> Result<Vec<Line>, NoMemory> {
    let mut copies = Vec::new(alloc);
    for line in lines {
        copies.push(copied(alloc, line)?)?;
    }
    Ok(copies)
}

#[test]
fn each_call_is_copied(rt: HostRuntime) -> Result<(), Fail> {
    let mut script = read(rt.alloc(), PLAIN)?;
    script.lines = Listing::from_vec(all_copied(rt.alloc(), script.lines.items())?);
    assert!(rt; is_plain(rt.alloc(), &script)?);
    Ok(())
}
