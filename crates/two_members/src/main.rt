//! Two members of a group share a page through a cache structure, each on a thread of its own: the
//! coupling facility as a library, with no script of what they do.
#![tactic(auto)]

mod fault;
mod roles;
mod seen;

ghost use Rattle.std.specs.Prelude.{◌≡◌, ◌≤◌, IsTrue, IfOk, false};
ghost use Rattle.plex_board.specs.Boards.{IsPolicy};
ghost use Rattle.two_members.specs.Members.{HasPool, IsMember, Stays, HasRead, HasTested, IsOutcome};

use fault::Fault;
use plex_board::Desk;
use plex_board::links::Steady;
use plex_board::scripts::{AnyHistory, Script, read};
use plex_board::types::Kind;
use plex_engines::Board;
use plex_report::render;
use roles::{COPY, GBP, reader, writer};
use seen::Seen;
use std::alloc::Global;
use std::io::Write;
use std::sync::Wait;
use std::thread::{Threads, join_mut};

/// The policy: a facility, a cache structure in it, and its two connectors.
const POLICY: &str = "FACILITY CF1 100\n\
    STRUCTURE GBP CACHE 8 8 4 64 DELETE\n\
    PREF GBP CF1 40\n\
    CONNECTOR A\n\
    CONNECTOR B\n";

/// How many links there are to the facilities: four for each of 16 structures.
const LINKS: usize = 64;

/// How many calls a history can have.
const CALLS: u32 = 100;

fn main(rt: HostRuntime) -> Result<(), Fault> {
    let alloc = rt.alloc();
    let script = read(alloc, POLICY.as_bytes())?;
    let (histories, seen) = members(&rt, alloc, &script)?;
    let report = render(alloc, &script, histories.as_slice(), &[])?;
    rt.stdout().write_all(report.as_slice())?;
    print_seen(&rt, &seen)
}

// Prints the reply to the reader's READ, by the call's number, and its last test: the bit, and the
// number of the call at which it stood so.
fn print_seen(rt: &impl Print, seen: &Seen) -> Result<(), Fault> {
    let (no, word) = (seen.no, seen.word());
    println!(rt; "B GBP READ {no} {word}")?;
    let at = seen.tested.at;
    let word = if seen.tested.bit { "VALID" } else { "INVALID" };
    println!(rt; "B GBP TEST {COPY} {word} {at}")?;
    Ok(())
}

// Starts the structures of the policy, has both members work at the first, and ends them. What is
// left is their histories, and what the reader saw.
fn members<R: Threads + Wait + Sync>(
    rt: &R,
    alloc: Global,
    script: &Script,
) -> Result<(Vec<AnyHistory>, Seen), Fault>
    requires { IsPolicy script.now }
    // The copy isn't valid any more.
    ensures invalid { IfOk result (λ left. left.1.tested.bit ≡ false) }

    // The history is one that a single thread could have made, it has the reply, and the test told
    // what stood at its number of it, or just before, and not before the reader had the reply.
    ensures outcome { IfOk result (λ left. IsOutcome script.now left.0.items left.1) }
{
    let Ok(links) = vec![in alloc; Steady; LINKS] else {
        return Err(Fault::NoMemory);
    };
    let Ok((board, mut desks)) = Board::start(rt, alloc, script, CALLS, links) else {
        return Err(Fault::NoMemory);
    };
    if desks.len() != 3 || !has_pool(&board) {
        return Err(Fault::Policy);
    }
    // The first desk is the operator's, which does nothing.
    let (Some(mut b), Some(mut a)) = (desks.pop(), desks.pop()) else {
        return Err(Fault::Policy);
    };
    let (written, last) = work(rt, alloc, &board, &mut a, &mut b);
    desks.push_reserved(a);
    desks.push_reserved(b);
    let (histories, _) = board.close(rt, desks);
    written?;
    Ok((histories, last?))
}

// Both members work, each on a thread of its own.
fn work<R: Threads + Wait + Sync>(
    rt: &R,
    alloc: Global,
    board: &Board<Steady>,
    a: &mut Desk,
    b: &mut Desk,
) -> (Result<(), Fault>, Result<Seen, Fault>)
    requires members { IsMember board.now a.old × IsMember board.now b.old }
    ensures stay { Stays board.now a.old a.new × Stays board.now b.old b.new }
    ensures invalid { IfOk result.1 (λ seen. seen.tested.bit ≡ false) }
    ensures read { IfOk result.1 (λ seen. HasRead b.new seen.no seen.reply) }
    ensures answered { IfOk result.1 (λ seen. seen.no ≤ seen.sure) }
    ensures tested { IfOk result.1 (λ seen. HasTested b.new seen.tested seen.sure) }
{
    join_mut(
        rt,
        &mut || writer(rt, alloc, board, a),
        &mut || reader(rt, alloc, board, b),
    )
}

// Whether the first structure is a cache, where each vector has the bit that is tested.
fn has_pool(board: &Board<Steady>) -> bool
    ensures { IsTrue result → HasPool board.now }
{
    board.structures() > 0 && board.kind(GBP) == Kind::Cache && board.vector(GBP) > COPY
}
