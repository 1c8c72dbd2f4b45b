//! Locks in words, by the whole program.
use super::gates::{LineOf, in_order};
use super::runs::Given;
use super::{A, B};
use std::test::Fail;

/// A policy with one lock structure, and two connectors.
const LOCKS: &str = "FACILITY CF1 100\n\
    STRUCTURE IRLM LOCK 16 8 4 KEEP\n\
    PREF IRLM CF1 30\n\
    CONNECTOR A\n\
    CONNECTOR B\n";

/// Lines of one connector. R1 and R2 have the same word.
const OF_ONE: &str = "A IRLM OBTAIN R1@5 EXCL\n\
    A IRLM OBTAIN R2@21 SHR\n\
    A IRLM RELEASE R1@5\n\
    A IRLM RELEASE R1@5\n\
    A IRLM OBTAIN R3@1 SHR\n";

/// What becomes of them.
const TOLD_OF_ONE: &str = "LOCKWORDS IRLM 16\n\
    HAND A 5\n\
    OBTAIN R1@5 EXCL -> GRANTED\n\
    OBTAIN R2@21 SHR -> HELD EXCL\n\
    RELEASE R1@5 -> OK\n\
    RELEASE R1@5 -> NOTHELD\n\
    OBTAIN R3@1 SHR -> GRANTED\n\
    HAND B 0\n\
    WORD 1 SHR 1\n\
    END\n";

// A run by the word `locks`.
fn locking(policy: &'static str, lines: &'static str) -> Given<'static> {
    Given {
        words: "locks",
        policy,
        lines,
    }
}

#[test]
fn each_line_comes_to_the_gate(rt: HostRuntime) -> Result<(), Fail> {
    let ran = locking(LOCKS, OF_ONE).ran(&rt, rt.alloc(), &[])?;
    assert!(rt; ran.tells("", TOLD_OF_ONE) && ran.gated == 5);
    Ok(())
}

/// Two connectors in turn.
const OF_TWO: &str = "A IRLM OBTAIN R1@5 EXCL\n\
    B IRLM OBTAIN R1@5 SHR\n\
    A IRLM RELEASE R1@5\n\
    B IRLM OBTAIN R1@5 SHR\n\
    A IRLM OBTAIN R1@5 SHR\n";

/// Whoever did all lines of one connector before those of the other would tell that B held the word
/// already.
const TOLD_OF_TWO: &str = "LOCKWORDS IRLM 16\n\
    HAND A 3\n\
    OBTAIN R1@5 EXCL -> GRANTED\n\
    RELEASE R1@5 -> OK\n\
    OBTAIN R1@5 SHR -> GRANTED\n\
    HAND B 2\n\
    OBTAIN R1@5 SHR -> CONTENDED EXCL\n\
    OBTAIN R1@5 SHR -> GRANTED\n\
    WORD 5 SHR 2\n\
    END\n";

/// Their lines, in their order.
const TURNS: [LineOf; 5] = [
    LineOf(A, 6),
    LineOf(B, 7),
    LineOf(A, 8),
    LineOf(B, 9),
    LineOf(A, 10),
];

#[test]
fn two_connectors_share_a_word(rt: HostRuntime) -> Result<(), Fail> {
    let holds = in_order(rt.alloc(), &TURNS)?;
    let ran = locking(LOCKS, OF_TWO).ran(&rt, rt.alloc(), &holds)?;
    assert!(rt; ran.tells("", TOLD_OF_TWO));
    Ok(())
}

/// A cache comes first.
const CACHE: &str = "* a cache comes first\n\
    FACILITY CF1 100\n\
    STRUCTURE GBP CACHE 8 8 4 64 DELETE\n\
    PREF GBP CF1 30\n\
    STRUCTURE IRLM LOCK 16 8 4 KEEP\n\
    PREF IRLM CF1 30\n\
    CONNECTOR A\n\
    CONNECTOR B\n";

/// There are two lock structures.
const TWO_LOCKS: &str = "FACILITY CF1 100\n\
    STRUCTURE IRLM LOCK 16 8 4 KEEP\n\
    PREF IRLM CF1 30\n\
    STRUCTURE NEXT LOCK 16 8 4 KEEP\n\
    PREF NEXT CF1 30\n\
    CONNECTOR A\n\
    CONNECTOR B\n";

/// What lock words don't do. Connections are for structures: words have none. A structure beside the
/// one lock structure is named before a line that is no lock's. A text that is no script is refused
/// as with the other words.
const REFUSED: [(&str, &str, &str); 10] = [
    (LOCKS, "A IRLM CONNECT KEEP\n", "SCRIPT 6 NOTWORDS\n"),
    (
        LOCKS,
        "A IRLM OBTAIN R1@5 EXCL RETRY 3\n",
        "SCRIPT 6 NOTWORDS\n",
    ),
    (
        LOCKS,
        "A IRLM OBTAIN R1@5 EXCL\nA IRLM RELEASE R1@5 RETRY 3\nA IRLM ALTER R1@5 SHR\n",
        "SCRIPT 7 NOTWORDS\n",
    ),
    (
        LOCKS,
        "A IRLM OBTAIN R1@5 EXCL REC abc\n",
        "SCRIPT 6 NOTWORDS\n",
    ),
    (LOCKS, "A IRLM POST\n", "SCRIPT 6 NOTWORDS\n"),
    (LOCKS, "A IRLM OBTAIN R1@5\n", "SCRIPT 6 SYNTAX\n"),
    (CACHE, "", "SCRIPT 3 NOTWORDS\n"),
    (CACHE, "A GBP CONNECT DELETE\n", "SCRIPT 3 NOTWORDS\n"),
    (TWO_LOCKS, "", "SCRIPT 4 NOTWORDS\n"),
    (TWO_LOCKS, "A IRLM CONNECT KEEP\n", "SCRIPT 4 NOTWORDS\n"),
];

#[test]
fn what_words_do_not_do(rt: HostRuntime) -> Result<(), Fail> {
    for (policy, lines, told) in REFUSED {
        let refused = locking(policy, lines).ends(&rt, rt.alloc(), 3, told)?;
        assert!(rt; refused, "{lines}");
    }
    Ok(())
}
