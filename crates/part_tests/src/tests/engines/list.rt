ghost use Rattle.engine_api.specs.CfTypes.Forms.{IsCaller};

use engine_api::Engine;
use engine_api::types::{
    At, Body, Caps, ConnId, Effects, EntryId, Kind, ListCmd, ListReply, Listing, Name16, NoMemory,
    Refs, Refusal, StrForm,
};
use list_core::ListEngine;
use std::alloc::Global;
use std::test::Fail;

// An empty list structure of two headers and two connectors.
fn list_of(alloc: Global) -> Result<ListEngine, NoMemory> {
    let caps = Caps {
        entries: 2,
        elements: 2,
    };
    let form = StrForm {
        name: Name16([65; 16]),
        kind: Kind::List {
            headers: 2,
            locks: 1,
            refs: Refs::Nothing,
        },
        caps,
        conns: 2,
        vector: 8,
        keep: false,
        prefs: Listing::from_vec(Vec::new(alloc)),
    };
    ListEngine::empty(alloc, &form, caps)
}

// What a command is to be answered.
#[derive(Clone, Copy)]
enum Want {
    Empty,
    Id,
    Entry,
}

// Whether it is.
fn is_wanted(reply: &Result<ListReply, Refusal>, want: Want) -> bool {
    match (reply, want) {
        (Ok(ListReply::Empty), Want::Empty) => true,
        (Ok(ListReply::Id { .. }), Want::Id) => true,
        (Ok(ListReply::Entry { .. }), Want::Entry) => true,
        _ => false,
    }
}

// Gets ready for a command, and does it. Whether it is answered so.
fn calls(
    engine: &mut ListEngine,
    by: ConnId,
    cmd: ListCmd,
    want: Want,
    out: &mut Effects,
) -> Result<bool, NoMemory>
    requires { IsCaller by }
{
    engine.ready(by, &cmd, out)?;
    let reply = engine.apply(by, &cmd, out);
    Ok(is_wanted(&reply, want))
}

// The command that writes a record to the first header.
fn write_of(alloc: Global) -> Result<ListCmd, NoMemory> {
    let body = Body::from_vec(Vec::from_slice(alloc, b"data")?);
    Ok(ListCmd::Write {
        header: 0,
        head: true,
        name: None,
        key: None,
        body: Some(body),
        adj: None,
        cond: None,
    })
}

// Whether the first connector comes to monitor the first header at index 3.
fn watches(engine: &mut ListEngine, out: &mut Effects) -> Result<bool, NoMemory> {
    let watch = ListCmd::Monitor {
        header: 0,
        index: 3,
    };
    calls(engine, ConnId(1), watch, Want::Empty, out)
}

// Whether the second connector writes a record, by which one bit is set.
fn writes(engine: &mut ListEngine, alloc: Global, out: &mut Effects) -> Result<bool, NoMemory> {
    let write = write_of(alloc)?;
    let written = calls(engine, ConnId(2), write, Want::Id, out)?;
    Ok(written && out.bits.items().len() == 1)
}

// Whether the first connector reads the first record.
fn reads(engine: &mut ListEngine, out: &mut Effects) -> Result<bool, NoMemory> {
    let read = ListCmd::Read {
        at: At::Id(EntryId(1)),
        cond: None,
    };
    calls(engine, ConnId(1), read, Want::Entry, out)
}

// Whether a copy has two items.
fn has_a_copy(engine: &ListEngine, alloc: Global) -> Result<bool, NoMemory> {
    let copy = engine.copy(alloc)?;
    Ok(copy.count() == 2)
}

// Whether a monitor is told of a record, which is read and copied.
fn keeps(engine: &mut ListEngine, alloc: Global, out: &mut Effects) -> Result<bool, NoMemory> {
    let watched = watches(engine, out)?;
    let written = writes(engine, alloc, out)?;
    let found = reads(engine, out)?;
    let copied = has_a_copy(engine, alloc)?;
    Ok(watched && written && found && copied)
}

#[test]
fn what_is_written_is_read(rt: HostRuntime) -> Result<(), Fail> {
    let mut engine = list_of(rt.alloc())?;
    let kept = keeps(&mut engine, rt.alloc(), &mut Effects::new(rt.alloc()))?;
    assert!(rt; kept);
    Ok(())
}
