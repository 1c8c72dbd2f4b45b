ghost use Rattle.engine_api.specs.CfTypes.Forms.{IsCaller};

use engine_api::Engine;
use engine_api::types::{
    Caps, ConnId, Effects, Key16, Kind, ListCmd, ListReply, Listing, Name16, NoMemory, QueueCmd,
    QueueReply, Refs, Refusal, StrForm,
};
use list_queues::QueueEngine;
use std::alloc::Global;
use std::test::Fail;

// An empty list structure of two headers, whose records have keys, and two connectors.
fn list_of(alloc: Global) -> Result<QueueEngine, NoMemory> {
    let caps = Caps {
        entries: 4,
        elements: 4,
    };
    let form = StrForm {
        name: Name16([65; 16]),
        kind: Kind::List {
            headers: 2,
            locks: 1,
            refs: Refs::Keys,
        },
        caps,
        conns: 2,
        vector: 8,
        keep: false,
        prefs: Listing::from_vec(Vec::new(alloc)),
    };
    QueueEngine::empty(alloc, &form, caps)
}

// What a command is to be answered.
#[derive(Clone, Copy)]
enum Want {
    Empty,
    Id,
    Sublist,
    Refused,
}

// Whether it is.
fn is_wanted(reply: &Result<QueueReply, Refusal>, want: Want) -> bool {
    match (reply, want) {
        (Ok(QueueReply::Empty), Want::Empty) => true,
        (Ok(QueueReply::List(ListReply::Id { .. })), Want::Id) => true,
        (Ok(QueueReply::Sublist { header, .. }), Want::Sublist) => *header == 1,
        (Err(_), Want::Refused) => true,
        _ => false,
    }
}

// Gets ready for a command, and does it. Whether it is answered so.
fn calls(
    engine: &mut QueueEngine,
    by: ConnId,
    cmd: QueueCmd,
    want: Want,
    out: &mut Effects,
) -> Result<bool, NoMemory>
    requires { IsCaller by }
{
    engine.ready(by, &cmd, out)?;
    let reply = engine.apply(by, &cmd, out);
    Ok(is_wanted(&reply, want))
}

// Whether the first connector comes to monitor a sublist of the second header.
fn monitors(engine: &mut QueueEngine, out: &mut Effects) -> Result<bool, NoMemory> {
    let monitor = QueueCmd::MonSub {
        header: 1,
        key: Key16([1; 16]),
    };
    calls(engine, ConnId(1), monitor, Want::Empty, out)
}

// Whether the second connector writes a record of the sublist.
fn writes(engine: &mut QueueEngine, out: &mut Effects) -> Result<bool, NoMemory> {
    let write = ListCmd::Write {
        header: 1,
        head: true,
        name: None,
        key: Some(Key16([1; 16])),
        body: None,
        adj: None,
        cond: None,
    };
    calls(engine, ConnId(2), QueueCmd::List(write), Want::Id, out)
}

// Whether the first connector takes an event, or is refused.
fn takes(engine: &mut QueueEngine, want: Want, out: &mut Effects) -> Result<bool, NoMemory> {
    calls(engine, ConnId(1), QueueCmd::Deq, want, out)
}

// Whether one event comes of two records.
fn comes_once(engine: &mut QueueEngine, out: &mut Effects) -> Result<bool, NoMemory> {
    let watched = monitors(engine, out)?;
    let first = writes(engine, out)?;
    let second = writes(engine, out)?;
    let taken = takes(engine, Want::Sublist, out)?;
    let gone = takes(engine, Want::Refused, out)?;
    Ok(watched && first && second && taken && gone)
}

#[test]
fn an_event_comes_once(rt: HostRuntime) -> Result<(), Fail> {
    let mut engine = list_of(rt.alloc())?;
    let once = comes_once(&mut engine, &mut Effects::new(rt.alloc()))?;
    assert!(rt; once);
    let copy = engine.copy(rt.alloc())?;
    assert!(rt; copy.count() == 4);
    Ok(())
}
