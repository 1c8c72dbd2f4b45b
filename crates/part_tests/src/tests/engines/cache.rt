ghost use Rattle.engine_api.specs.CfTypes.Forms.{IsCaller};

use cache_core::CacheEngine;
use engine_api::Engine;
use engine_api::types::{
    Body, CacheCmd, CacheReply, Caps, ConnId, Effects, Kind, Listing, Name16, NoMemory, Refusal,
    StrForm,
};
use std::alloc::Global;
use std::test::Fail;

const NAME: Name16 = Name16([65; 16]);

// An empty cache structure of two connectors.
fn cache_of(alloc: Global) -> Result<CacheEngine, NoMemory> {
    let caps = Caps {
        entries: 2,
        elements: 2,
    };
    let form = StrForm {
        name: NAME,
        kind: Kind::Cache,
        caps,
        conns: 2,
        vector: 8,
        keep: false,
        prefs: Listing::from_vec(Vec::new(alloc)),
    };
    CacheEngine::empty(alloc, &form, caps)
}

// What a command is to be answered.
#[derive(Clone, Copy)]
enum Want {
    Anything,
    Data,
    CastData,
    OneName,
    NoStats,
    NoEntry,
}

// Whether these are the data that every trial writes.
fn is_data(body: &Body) -> bool {
    body.bytes() == b"data".as_slice()
}

// Whether a command is answered so.
fn is_wanted(reply: &Result<CacheReply, Refusal>, want: Want) -> bool {
    match (reply, want) {
        (_, Want::Anything) => true,
        (Ok(CacheReply::Data { body, changed, .. }), Want::Data) => *changed && is_data(body),
        (Ok(CacheReply::CastData { body, .. }), Want::CastData) => is_data(body),
        (Ok(CacheReply::Names(names)), Want::OneName) => names.items() == [NAME].as_slice(),
        (Ok(CacheReply::Stats(stats)), Want::NoStats) => stats.items().is_empty(),
        (Err(Refusal::NoEntry), Want::NoEntry) => true,
        _ => false,
    }
}

// Gets ready for a command, and does it. Whether it is answered so.
fn calls(
    engine: &mut CacheEngine,
    by: ConnId,
    cmd: CacheCmd,
    want: Want,
    out: &mut Effects,
) -> Result<bool, NoMemory>
    requires { IsCaller by }
{
    engine.ready(by, &cmd, out)?;
    let reply = engine.apply(by, &cmd, out);
    Ok(is_wanted(&reply, want))
}

// The command that writes the name's data as changed.
fn write_of(alloc: Global) -> Result<CacheCmd, NoMemory> {
    let body = Body::from_vec(Vec::from_slice(alloc, b"data")?);
    Ok(CacheCmd::Write {
        name: NAME,
        index: 0,
        body,
        class: Some(1),
        adj: None,
        old: None,
        stg: 1,
        when_reg: false,
    })
}

// The first connector writes the name.
fn write_first(
    engine: &mut CacheEngine,
    alloc: Global,
    out: &mut Effects,
) -> Result<bool, NoMemory> {
    let write = write_of(alloc)?;
    calls(engine, ConnId(1), write, Want::Anything, out)
}

// Whether the second connector reads the name's data at index 3.
fn reads_second(engine: &mut CacheEngine, out: &mut Effects) -> Result<bool, NoMemory> {
    let read = CacheCmd::Read {
        name: NAME,
        index: 3,
        old: None,
        stg: 1,
    };
    calls(engine, ConnId(2), read, Want::Data, out)
}

// The second connector departs.
fn leave_second(engine: &mut CacheEngine, out: &mut Effects) -> Result<(), NoMemory> {
    engine.leave_ready(ConnId(2), out)?;
    engine.leave(ConnId(2), false, out);
    Ok(())
}

// Whether it departs from a copy alone.
fn leaves_a_copy(engine: &CacheEngine, alloc: Global, out: &mut Effects) -> Result<bool, NoMemory> {
    let mut copy = engine.copy(alloc)?;
    leave_second(&mut copy, out)?;
    Ok(engine.stands(ConnId(2), 3) && !copy.stands(ConnId(2), 3))
}

// Whether what is written is read; a departure from a copy clears the third bit that was told of.
fn keeps(engine: &mut CacheEngine, alloc: Global, out: &mut Effects) -> Result<bool, NoMemory> {
    let written = write_first(engine, alloc, out)?;
    let read = reads_second(engine, out)?;
    let left = leaves_a_copy(engine, alloc, out)?;
    Ok(written && read && left && out.bits.items().len() == 3)
}

#[test]
fn what_is_written_is_read(rt: HostRuntime) -> Result<(), Fail> {
    let mut engine = cache_of(rt.alloc())?;
    let kept = keeps(&mut engine, rt.alloc(), &mut Effects::new(rt.alloc()))?;
    assert!(rt; kept);
    Ok(())
}

// Whether a name that is written is its castout class's, and is cast out.
fn casts_out(engine: &mut CacheEngine, alloc: Global, out: &mut Effects) -> Result<bool, NoMemory> {
    let written = write_first(engine, alloc, out)?;
    let class = CacheCmd::CoClass { class: 1 };
    let named = calls(engine, ConnId(1), class, Want::OneName, out)?;
    let castout = CacheCmd::Castout { name: NAME };
    let cast = calls(engine, ConnId(1), castout, Want::CastData, out)?;
    Ok(written && named && cast)
}

#[test]
fn a_changed_row_is_cast_out(rt: HostRuntime) -> Result<(), Fail> {
    let mut engine = cache_of(rt.alloc())?;
    let cast = casts_out(&mut engine, rt.alloc(), &mut Effects::new(rt.alloc()))?;
    assert!(rt; cast);
    Ok(())
}

// The first connector reads a name of one letter at index 0, and gives up the one before it.
fn read_letter(engine: &mut CacheEngine, letter: u8, out: &mut Effects) -> Result<bool, NoMemory> {
    let read = CacheCmd::Read {
        name: Name16([letter; 16]),
        index: 0,
        old: Some(Name16([letter.saturating_sub(1); 16])),
        stg: 1,
    };
    calls(engine, ConnId(1), read, Want::Anything, out)
}

// The same of three letters.
fn read_three(engine: &mut CacheEngine, out: &mut Effects) -> Result<(), NoMemory> {
    for letter in 65..68u8 {
        read_letter(engine, letter, out)?;
    }
    Ok(())
}

// Whether the directory has no entry for the first of three names, and no class one, and two rows
// are left.
fn gives_up_the_first(engine: &mut CacheEngine, out: &mut Effects) -> Result<bool, NoMemory> {
    read_three(engine, out)?;
    let info = CacheCmd::DirInfo { name: NAME };
    let gone = calls(engine, ConnId(1), info, Want::NoEntry, out)?;
    let unchanged = calls(engine, ConnId(1), CacheCmd::CoStats, Want::NoStats, out)?;
    Ok(gone && unchanged && engine.count() == 2)
}

#[test]
fn the_least_recently_used_row_goes(rt: HostRuntime) -> Result<(), Fail> {
    let mut engine = cache_of(rt.alloc())?;
    let gone = gives_up_the_first(&mut engine, &mut Effects::new(rt.alloc()))?;
    assert!(rt; gone);
    Ok(())
}
