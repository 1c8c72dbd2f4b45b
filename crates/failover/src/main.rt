//! Two members of a group share a page through a cache structure in two facilities. The link to one
//! facility is down at a write, and the link to the other at a castout: the history shows what was
//! lost, and who did what was left to do.
#![tactic(auto)]

mod fault;
mod links;
mod members;

ghost use Rattle.std.specs.Prelude.{IsTrue, IfOk};
ghost use Rattle.plex_board.specs.Boards.{IsPolicy};
ghost use Rattle.failover.specs.Members.{HasPool};
ghost use Rattle.failover.specs.Outcome.{IsOpened, IsOutcome};

use fault::Fault;
use links::links;
use members::{COPY, GBP, work};
use plex_board::Desk;
use plex_board::links::ListLink;
use plex_board::scripts::{AnyHistory, Script, read};
use plex_board::types::Kind;
use plex_board::vectors::Tested;
use plex_engines::Board;
use plex_report::render;
use std::alloc::Global;
use std::io::Write;
use std::sync::Wait;

/// The policy: two facilities, a cache structure that may stand in both, and its two connectors.
const POLICY: &str = "FACILITY CF1 100\n\
    FACILITY CF2 100\n\
    STRUCTURE GBP CACHE 8 8 4 64 DELETE\n\
    PREF GBP CF1 40\n\
    PREF GBP CF2 40\n\
    CONNECTOR A\n\
    CONNECTOR B\n";

/// How many calls a history can have.
const CALLS: u32 = 100;

/// What is left of the members' work: the histories, the links as they were asked, and B's test.
#[derive(Drop)]
struct Left {
    histories: Vec<AnyHistory>,
    links: Vec<ListLink>,
    tested: Tested,
}

fn main(rt: HostRuntime) -> Result<(), Fault> {
    let alloc = rt.alloc();
    let script = read(alloc, POLICY.as_bytes())?;
    let left = fail_over(&rt, alloc, &script)?;
    let report = render(alloc, &script, left.histories.as_slice(), &[])?;
    rt.stdout().write_all(report.as_slice())?;
    print_test(&rt, left.tested)?;
    print_links(&rt, &left.links)
}

// Prints the test of B's copy: its bit, and the number of the call at which it stood so.
fn print_test(rt: &impl Print, Tested { bit, at }: Tested) -> Result<(), Fault> {
    let word = if bit { "VALID" } else { "INVALID" };
    println!(rt; "B GBP TEST {COPY} {word} {at}")?;
    Ok(())
}

// Prints how often the link to each facility was asked, and how often it was down.
fn print_links(rt: &impl Print, links: &[ListLink]) -> Result<(), Fault> {
    for (cf, link) in ["CF1", "CF2"].iter().zip(links) {
        let (calls, faults) = (link.calls, link.faults);
        println!(rt; "LINK {cf} ASKED {calls} DOWN {faults}")?;
    }
    Ok(())
}

// The members work at the first structure of the policy, till nothing of it is left.
fn fail_over(rt: &impl Wait, alloc: Global, script: &Script) -> Result<Left, Fault>
    requires { IsPolicy script.now }
    ensures { IfOk result
        (λ left. IsOutcome script.now left.histories.items left.links.items left.tested) }
{
    let (board, mut desks) = open(rt, alloc, script)?;
    let tested = work(rt, alloc, &board, &mut desks);
    let (histories, links) = board.close(rt, desks);
    let tested = tested?;
    Ok(Left {
        histories,
        links,
        tested,
    })
}

// The structures of the policy over the links, and the desks of the operator and of the members.
fn open(
    rt: &impl Wait,
    alloc: Global,
    script: &Script,
) -> Result<(Board<ListLink>, Vec<Desk>), Fault>
    requires { IsPolicy script.now }
    ensures { IfOk result (λ r. IsOpened script.now r.0 r.1.items) }
{
    let Ok(links) = links(alloc) else {
        return Err(Fault::NoMemory);
    };
    let Ok((board, desks)) = Board::start(rt, alloc, script, CALLS, links) else {
        return Err(Fault::NoMemory);
    };
    if desks.len() == 3 && has_pool(&board) {
        Ok((board, desks))
    } else {
        Err(Fault::Policy)
    }
}

// Whether the first structure is a cache, where each vector has the bit that is tested.
#[tactic(auto, using(crate::proofs::SeatLaws::pool_there))]
fn has_pool(board: &Board<ListLink>) -> bool
    ensures { IsTrue result → HasPool board.now }
{
    if board.structures() == 0 {
        return false;
    }
    match board.kind(GBP) {
        Kind::Cache => board.vector(GBP) > COPY,
        _ => false,
    }
}
