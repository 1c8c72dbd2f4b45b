//! A rebuild by two members at once.
use super::gates::{Hold, LineOf};
use super::runs::{Given, Ran};
use super::{A, B, OP, POLICY};
use std::alloc::{AllocError, Global};
use std::test::Fail;

/// Both members copy at once, and either may be the one whose COMPLETE ends stage COPY.
const TOGETHER: &str = "A GBP CONNECT DELETE\n\
    B GBP CONNECT DELETE\n\
    A GBP WRITE P1 0 one CHANGED 1\n\
    B GBP WRITE P2 0 two CHANGED 2\n\
    OP GBP REBUILD START 10 10\n\
    A GBP EVENTS\n\
    B GBP EVENTS\n\
    A GBP REBUILD CONNECT\n\
    B GBP REBUILD CONNECT\n\
    A GBP COPY 1\n\
    B GBP COPY 1\n\
    A GBP REBUILD COMPLETE\n\
    B GBP REBUILD COMPLETE\n\
    A GBP EVENTS\n\
    B GBP EVENTS\n\
    A GBP READ P2 1\n\
    B GBP READ P1 1\n\
    A GBP TEST 0\n\
    B GBP TEST 0\n";

/// What is told of it, whoever is first.
const TOLD: [&str; 10] = [
    " REBUILD CONNECT -> OK CF2\n",
    " COPY 1 -> COPIED 1 1\n",
    " COPY 1 -> COPIED 1 0\n",
    " A REBUILD COMPLETE -> OK\n",
    " B REBUILD COMPLETE -> OK\n",
    " -> EVENT COMPLETE 1\n",
    " A READ P2 1 -> DATA two CHANGED\n",
    " B READ P1 1 -> DATA one CHANGED\n",
    "\nGBP TEST 0 INVALID ",
    "\nEND\n",
];

/// A line waits for lines of the others where the rebuild needs what they do.
const WAITS: [(LineOf, LineOf); 14] = [
    (LineOf(OP, 12), LineOf(A, 10)),
    (LineOf(OP, 12), LineOf(B, 11)),
    (LineOf(A, 13), LineOf(OP, 12)),
    (LineOf(B, 14), LineOf(OP, 12)),
    (LineOf(A, 15), LineOf(B, 14)),
    (LineOf(B, 16), LineOf(A, 13)),
    (LineOf(A, 17), LineOf(B, 16)),
    (LineOf(B, 18), LineOf(A, 15)),
    (LineOf(A, 19), LineOf(B, 18)),
    (LineOf(B, 20), LineOf(A, 17)),
    (LineOf(A, 21), LineOf(B, 20)),
    (LineOf(B, 22), LineOf(A, 19)),
    (LineOf(A, 23), LineOf(B, 22)),
    (LineOf(B, 24), LineOf(A, 21)),
];

fn waits(alloc: Global) -> Result<Vec<Hold>, AllocError> {
    let mut holds = Vec::new(alloc);
    for (held, until) in WAITS {
        holds.push(Hold::new(held, until))?;
    }
    Ok(holds)
}

// Whether all that is to be told is.
fn is_told(ran: &Ran) -> bool {
    TOLD.iter().all(|told| ran.shows(told))
}

#[test]
fn two_members_rebuild(rt: HostRuntime) -> Result<(), Fail> {
    let holds = waits(rt.alloc())?;
    let given = Given {
        words: "threads",
        policy: POLICY,
        lines: TOGETHER,
    };
    let ran = given.ran(&rt, rt.alloc(), &holds)?;
    assert!(rt; is_told(&ran));
    Ok(())
}
