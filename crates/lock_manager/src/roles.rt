//! What each member does at its seat.
ghost use Rattle.std.specs.Prelude.{◌≡◌, IfOk};
ghost use Rattle.plex_seat.specs.Seats.{IsSame};
ghost use Rattle.plex_seat.specs.Answers.{HasHeard};

use crate::orders::Orders;
use plex_engines::Engines;
use plex_seat::{Answer, AnyReply, ConnId, Event, Fault, LockCmd, LockReply, Reply};
use std::alloc::Global;
use std::sync::Wait;

/// A member's seat, over the engines of the program.
pub type Seat<'p> = plex_seat::Seat<'p, Engines>;

// The member that fails.
const A: ConnId = ConnId(1);

// How often a member looks for what the other does before it gives up.
const LOOKS: u32 = 10_000_000;

// How many events a member takes before it gives up.
const EVENTS: u32 = 8;

/// Member A: waits for the lock that B has, with a record of what it is about to do, and fails once
/// the lock is its own.
pub fn fail(
    rt: &impl Wait,
    alloc: Global,
    orders: &Orders,
    seat: &mut Seat<'_>,
) -> Result<(), Fault>
    ensures { IsSame seat.old seat.new }
{
    let no = queue(rt, alloc, orders, seat)?;
    seat.await_past(rt, no, LOOKS)?;
    let granted = Event::Granted {
        r: orders.page,
        excl: true,
    };
    seat.await_event(rt, alloc, granted, EVENTS)?;
    seat.fail(rt, alloc)?;
    seat.post(rt);
    Ok(())
}

// A connects, and waits for the lock once B has it. It answers the number of the call that asked
// for the lock.
fn queue(rt: &impl Wait, alloc: Global, orders: &Orders, seat: &mut Seat<'_>) -> Result<u32, Fault>
    ensures { IsSame seat.old seat.new }
{
    let connected = seat.connect(rt, alloc, true)?;
    seat.post(rt);
    seat.await_past(rt, connected.no, LOOKS)?;
    let asked = seat.lock(rt, alloc, orders.wait)?;
    seat.post(rt);
    match &asked.reply {
        AnyReply::Lock(Reply::Content(LockReply::Pending { .. })) => Ok(asked.no),
        _ => Err(Fault::Unforeseen),
    }
}

/// Member B: has the lock at once, releases it when A waits for it, and recovers once A has failed.
/// It answers the record data that it read.
pub fn recover(
    rt: &impl Wait,
    alloc: Global,
    orders: &Orders,
    seat: &mut Seat<'_>,
) -> Result<Answer, Fault>
    ensures same { IsSame seat.old seat.new }
    ensures read { IfOk result (HasHeard seat.new) }
{
    seat.await_past(rt, 0, LOOKS)?;
    lend(rt, alloc, orders, seat)?;
    let no = free(rt, alloc, orders, seat)?;
    granted(rt, alloc, seat, orders.share)?;
    // The reply that the history has under that number, looked up once more.
    match seat.reply(rt, alloc, no)? {
        Some(reply) => Ok(Answer { no, reply }),
        None => Err(Fault::Unforeseen),
    }
}

// B connects, has the lock at once, and releases it when A waits for it.
fn lend(rt: &impl Wait, alloc: Global, orders: &Orders, seat: &mut Seat<'_>) -> Result<(), Fault>
    ensures { IsSame seat.old seat.new }
{
    seat.connect(rt, alloc, true)?;
    let no = granted(rt, alloc, seat, orders.obtain)?;
    seat.post(rt);
    seat.await_past(rt, no, LOOKS)?;
    let contention = Event::Contention {
        r: orders.page,
        conn: A,
    };
    seat.await_event(rt, alloc, contention, EVENTS)?;
    let released = seat.lock(rt, alloc, orders.release)?;
    seat.post(rt);
    seat.await_past(rt, released.no, LOOKS)
}

// B hears that A is gone, reads what A was about to do, and frees A's lock. It answers the number
// of the call that read the record.
fn free(rt: &impl Wait, alloc: Global, orders: &Orders, seat: &mut Seat<'_>) -> Result<u32, Fault>
    ensures { IsSame seat.old seat.new }
{
    seat.await_event(rt, alloc, Event::DiscFail { conn: A }, EVENTS)?;
    seat.respond(rt, alloc)?;
    let read = seat.lock(rt, alloc, orders.read)?;
    let AnyReply::Lock(Reply::Content(LockReply::Records(_))) = &read.reply else {
        return Err(Fault::Unforeseen);
    };
    // Here the page would be brought to what A had recorded.
    seat.lock(rt, alloc, orders.delete)?;
    Ok(read.no)
}

// B has the page's lock at once. It answers the call's number.
fn granted(
    rt: &impl Wait,
    alloc: Global,
    seat: &mut Seat<'_>,
    obtain: LockCmd,
) -> Result<u32, Fault>
    ensures { IsSame seat.old seat.new }
{
    let asked = seat.lock(rt, alloc, obtain)?;
    match &asked.reply {
        AnyReply::Lock(Reply::Content(LockReply::Granted)) => Ok(asked.no),
        _ => Err(Fault::Unforeseen),
    }
}
