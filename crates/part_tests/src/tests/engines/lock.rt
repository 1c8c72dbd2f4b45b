ghost use Rattle.engine_api.specs.CfTypes.Forms.{IsCaller};

use engine_api::Engine;
use engine_api::types::{
    Caps, ConnId, Effects, Event, Kind, Listing, LockCmd, LockReply, Name16, NoMemory, Refusal,
    Resource, StrForm, parse_adjunct,
};
use lock_core::LockEngine;
use std::alloc::Global;
use std::test::Fail;

const R: Resource = Resource {
    name: Name16([65; 16]),
    hash: 7,
};

// A lock structure of two connectors with nothing in it.
fn locks_of(alloc: Global) -> Result<LockEngine, NoMemory> {
    let caps = Caps {
        entries: 2,
        elements: 2,
    };
    let form = StrForm {
        name: Name16([65; 16]),
        kind: Kind::Lock,
        caps,
        conns: 2,
        vector: 0,
        keep: false,
        prefs: Listing::from_vec(Vec::new(alloc)),
    };
    LockEngine::empty(alloc, &form, caps)
}

// What a command is to be answered.
#[derive(Clone, Copy)]
enum Want {
    Granted,
    First,
    Released,
    Records,
}

// Whether it is.
fn is_wanted(reply: &Result<LockReply, Refusal>, want: Want) -> bool {
    match (reply, want) {
        (Ok(LockReply::Granted), Want::Granted) => true,
        (Ok(LockReply::Pending { place }), Want::First) => *place == 1,
        (Ok(LockReply::Ok), Want::Released) => true,
        (Ok(LockReply::Records(_)), Want::Records) => true,
        _ => false,
    }
}

// Gets ready for a command, and does it. Whether it is answered so.
fn calls(
    engine: &mut LockEngine,
    by: ConnId,
    cmd: LockCmd,
    want: Want,
    out: &mut Effects,
) -> Result<bool, NoMemory>
    requires { IsCaller by }
{
    engine.ready(by, &cmd, out)?;
    let reply = engine.apply(by, &cmd, out);
    Ok(is_wanted(&reply, want))
}

// Asks for the resource exclusively, with record data.
fn obtain() -> LockCmd {
    LockCmd::Obtain {
        r: R,
        excl: true,
        rec: parse_adjunct(b"data").ok(),
    }
}

// Whether the last letter tells a connector that it owns the resource.
fn is_granted_to(out: &Effects, conn: ConnId) -> bool {
    match out.mail.items().last() {
        Some(letter) => letter.to == conn && matches!(letter.event, Event::Granted { .. }),
        None => false,
    }
}

// Whether a connector owns the resource at once, a second one waits first of all, and is granted it
// once the first gives it up.
fn is_handed_on(engine: &mut LockEngine, out: &mut Effects) -> Result<bool, NoMemory> {
    let owned = calls(engine, ConnId(1), obtain(), Want::Granted, out)?;
    let waits = calls(engine, ConnId(2), obtain(), Want::First, out)?;
    let release = LockCmd::Release { r: R };
    let released = calls(engine, ConnId(1), release, Want::Released, out)?;
    Ok(owned && waits && released && is_granted_to(out, ConnId(2)))
}

#[test]
fn one_that_waits_is_granted(rt: HostRuntime) -> Result<(), Fail> {
    let mut engine = locks_of(rt.alloc())?;
    let granted = is_handed_on(&mut engine, &mut Effects::new(rt.alloc()))?;
    assert!(rt; granted);
    Ok(())
}

// The first connector fails, and its records stay.
fn fail_first(engine: &mut LockEngine, out: &mut Effects) -> Result<(), NoMemory> {
    engine.leave_ready(ConnId(1), out)?;
    engine.leave(ConnId(1), true, out);
    Ok(())
}

// Whether a copy has one interest.
fn has_a_copy(engine: &LockEngine, alloc: Global) -> Result<bool, NoMemory> {
    let copy = engine.copy(alloc)?;
    Ok(copy.count() == 1)
}

// Whether the second connector reads the records of the first once that has failed, and a copy has
// its interest.
fn outlives(engine: &mut LockEngine, alloc: Global, out: &mut Effects) -> Result<bool, NoMemory> {
    let owned = calls(engine, ConnId(1), obtain(), Want::Granted, out)?;
    fail_first(engine, out)?;
    let read = LockCmd::RtRead { conn: ConnId(1) };
    let told = calls(engine, ConnId(2), read, Want::Records, out)?;
    Ok(owned && told && has_a_copy(engine, alloc)?)
}

#[test]
fn recorded_locks_outlive_a_failure(rt: HostRuntime) -> Result<(), Fail> {
    let mut engine = locks_of(rt.alloc())?;
    let kept = outlives(&mut engine, rt.alloc(), &mut Effects::new(rt.alloc()))?;
    assert!(rt; kept);
    Ok(())
}
