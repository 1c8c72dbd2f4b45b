//! Two members of a group contend for a lock through a lock structure, each on a thread of its own.
//! One has it at once; the other waits, hears of it by an event, and fails with it. Then the first
//! reads what the failed one had recorded, and frees the lock.
#![tactic(auto)]

mod orders;
mod roles;

ghost use Rattle.std.specs.Prelude.{◌≡◌, IfOk};
ghost use Rattle.plex_seat.specs.Names.{IsPolicy};
ghost use Rattle.plex_seat.specs.Answers.{HasHeard};
ghost use Rattle.plex_seat.specs.Seats.{IsSame};
ghost use Rattle.lock_manager.specs.Members.{IsOutcome};

use orders::{Orders, read_orders};
use plex_engines::Engines;
use plex_seat::{
    Answer, AnyHistory, ConnId, Fault, NoMemory, Script, StrNo, policy, put_reply, render,
};
use roles::{Seat, fail, recover};
use std::alloc::Global;
use std::io::Write;
use std::sync::Wait;
use std::thread::{Threads, join_mut};

/// The structures of a policy, over the engines of the program.
type Plex = plex_seat::Plex<Engines>;

/// The policy: a facility, a lock structure in it, and its two connectors.
const POLICY: &str = "FACILITY CF1 100\n\
    STRUCTURE IRLM LOCK 4 4 2 KEEP\n\
    PREF IRLM CF1 40\n\
    CONNECTOR A\n\
    CONNECTOR B\n";

/// The lock structure, the first of the policy.
const LOCKS: StrNo = StrNo(0);

/// The second connector.
const B: ConnId = ConnId(2);

/// How many calls a history can have.
const CALLS: u32 = 100;

fn main(rt: HostRuntime) -> Result<(), Fault> {
    let alloc = rt.alloc();
    let script = policy(alloc, POLICY.as_bytes())?;
    let (histories, read) = members(&rt, alloc, &script)?;
    let report = render(alloc, &script, histories.as_slice(), &[])?;
    rt.stdout().write_all(report.as_slice())?;
    let line = read_line(alloc, &script, &read)?;
    rt.stdout().write_all(line.as_slice())?;
    Ok(())
}

// The line of the record data that B read, in the words of the report.
fn read_line(alloc: Global, script: &Script, read: &Answer) -> Result<Vec<u8>, NoMemory> {
    let mut line = Vec::from_slice(alloc, b"B IRLM RTREAD")?;
    put_reply(&mut line, script, &read.reply)?;
    line.push(b'\n')?;
    Ok(line)
}

// Both members take their seats, work, and leave. What is left is the histories, and the record
// data that B read.
fn members<R: Threads + Wait + Sync>(
    rt: &R,
    alloc: Global,
    script: &Script,
) -> Result<(Vec<AnyHistory>, Answer), Fault>
    requires { IsPolicy script.now }
    // The history is one that a single thread could have made, and it has the reply.
    ensures outcome { IfOk result (λ left. IsOutcome script.now left.0.items left.1) }
{
    let orders = read_orders(script)?;
    let (plex, mut desks) = Plex::open(rt, alloc, script, CALLS)?;
    let Some(mut b) = Seat::take(&plex, &mut desks, LOCKS) else {
        return Err(Fault::Policy);
    };
    let Some(mut a) = Seat::take(&plex, &mut desks, LOCKS) else {
        return Err(Fault::Policy);
    };
    if b.owner() != B {
        return Err(Fault::Policy);
    }
    let (failed, read) = work(rt, alloc, &orders, &mut a, &mut b);
    a.leave(&mut desks);
    b.leave(&mut desks);
    let Some(histories) = plex.close(rt, desks) else {
        return Err(Fault::Policy);
    };
    failed?;
    Ok((histories, read?))
}

// Both members work, each on a thread of its own.
fn work<R: Threads + Wait + Sync>(
    rt: &R,
    alloc: Global,
    orders: &Orders,
    a: &mut Seat<'_>,
    b: &mut Seat<'_>,
) -> (Result<(), Fault>, Result<Answer, Fault>)
    ensures same { IsSame a.old a.new × IsSame b.old b.new }
    ensures read { IfOk result.1 (HasHeard b.new) }
{
    join_mut(
        rt,
        &mut || fail(rt, alloc, orders, a),
        &mut || recover(rt, alloc, orders, b),
    )
}
