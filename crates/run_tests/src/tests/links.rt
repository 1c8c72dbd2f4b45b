//! Runs on threads over links that are down at listed calls.
use super::gates::{LineOf, in_order};
use super::runs::{Given, Ran, links_of};
use super::{A, B, OP, POLICY};
use std::alloc::{AllocError, Global};
use std::sync::Wait;
use std::test::Fail;
use std::thread::Threads;

// What a run of these lines left over links to CF1 and CF2 that are down at these calls. Each of the
// lines that are listed waits for the one before it.
fn ran_over<R: Threads + Wait + Sync>(
    rt: &R,
    alloc: Global,
    lines: &str,
    listed: &[LineOf],
    one: &[u64],
    two: &[u64],
) -> Result<Ran, AllocError> {
    let holds = in_order(alloc, listed)?;
    let links = links_of(alloc, one, two)?;
    let given = Given {
        words: "threads",
        policy: POLICY,
        lines,
    };
    given.ran_over(rt, alloc, links, &holds)
}

/// Work on a pool with two instances.
const DUPLEXED: &str = "A GBP CONNECT DELETE\n\
    A GBP WRITE P1 0 one CHANGED 1\n\
    OP GBP DUPLEX START\n\
    A GBP WRITE P1 0 two CHANGED 1\n\
    A GBP TEST 0\n\
    A GBP READ P1 0\n\
    A GBP READ P1 0\n\
    A GBP TEST 0\n";

/// The primary is lost at a write, which is done on the other; that is lost at a read.
const BOTH_LOST: &str = "HISTORY GBP 9\n\
    1 A CONNECT DELETE -> OK NEW CF1\n\
    2 A WRITE P1 0 one CHANGED 1 -> OK\n\
    3 OP DUPLEX START -> OK CF2\n\
    4 SYS LOST CF1 -> SIMPLEX CF2\n\
    5 A WRITE P1 0 two CHANGED 1 -> OK\n\
    6 SYS LOST CF2 -> FAILED\n\
    7 A READ P1 0 -> REFUSED 74 LOSTFACILITY CF2\n\
    8 A READ P1 0 -> REFUSED 75 STRUCTUREFAILED\n\
    9 A DISCONNECT -> OK\n\
    TRANSCRIPT OP 1\nGBP 3\n\
    TRANSCRIPT A 8\nGBP 1\nGBP 2\nGBP 5\nGBP TEST 0 VALID 5\nGBP 7\nGBP 8\n\
    GBP TEST 0 INVALID 8\nGBP 9\n\
    TRANSCRIPT B 0\nEND\n";

/// A's first two calls, the operator's command between them.
const DUPLEXED_LINES: [LineOf; 3] = [LineOf(A, 9), LineOf(OP, 10), LineOf(A, 11)];

#[test]
fn one_instance_is_lost_and_then_the_other(rt: HostRuntime) -> Result<(), Fail> {
    let ran = ran_over(&rt, rt.alloc(), DUPLEXED, &DUPLEXED_LINES, &[2], &[2])?;
    assert!(rt; ran.shows(BOTH_LOST) && ran.asked((2, 1), (2, 1)));
    Ok(())
}

/// Four commands on a pool with two instances.
const FOUR_CALLS: &str = "A GBP CONNECT DELETE\n\
    OP GBP DUPLEX START\n\
    A GBP WRITE P1 0 v CHANGED 1\n\
    A GBP READ P1 0\n\
    A GBP CASTOUT P1\n\
    A GBP UNLOCK P1\n\
    A GBP TEST 0\n";

/// A's CONNECT, the operator's command, and A's WRITE.
const FOUR_LINES: [LineOf; 3] = [LineOf(A, 8), LineOf(OP, 9), LineOf(A, 10)];

// Whether the four commands show a history and a test over such links, which were asked so.
fn four_show<R: Threads + Wait + Sync>(
    rt: &R,
    alloc: Global,
    one: &[u64],
    two: &[u64],
    shown: [&str; 2],
    asked: [(u64, u64); 2],
) -> Result<bool, AllocError> {
    let ran = ran_over(rt, alloc, FOUR_CALLS, &FOUR_LINES, one, two)?;
    Ok(ran.shows(shown[0]) && ran.shows(shown[1]) && ran.asked(asked[0], asked[1]))
}

/// The call at which one link is down, and the history then.
const ONE_LOST: [(u64, &str); 4] = [
    (
        1,
        "\n3 SYS LOST CF1 -> SIMPLEX CF2\n4 A WRITE P1 0 v CHANGED 1 -> OK\n\
         5 A READ P1 0 -> DATA v CHANGED\n6 A CASTOUT P1 -> DATA v\n7 A UNLOCK P1 -> OK UNCHANGED\n",
    ),
    (
        2,
        "\n3 A WRITE P1 0 v CHANGED 1 -> OK\n4 SYS LOST CF1 -> SIMPLEX CF2\n\
         5 A READ P1 0 -> DATA v CHANGED\n6 A CASTOUT P1 -> DATA v\n7 A UNLOCK P1 -> OK UNCHANGED\n",
    ),
    (
        3,
        "\n3 A WRITE P1 0 v CHANGED 1 -> OK\n4 A READ P1 0 -> DATA v CHANGED\n\
         5 SYS LOST CF1 -> SIMPLEX CF2\n6 A CASTOUT P1 -> DATA v\n7 A UNLOCK P1 -> OK UNCHANGED\n",
    ),
    (
        4,
        "\n3 A WRITE P1 0 v CHANGED 1 -> OK\n4 A READ P1 0 -> DATA v CHANGED\n\
         5 A CASTOUT P1 -> DATA v\n6 SYS LOST CF1 -> SIMPLEX CF2\n7 A UNLOCK P1 -> OK UNCHANGED\n",
    ),
];

#[test]
fn the_first_instance_is_lost_at_each_call(rt: HostRuntime) -> Result<(), Fail> {
    for (call, history) in ONE_LOST {
        let shown = [history, "\nGBP TEST 0 VALID 7\n"];
        let told = four_show(&rt, rt.alloc(), &[call], &[], shown, [(call, 1), (4, 0)])?;
        assert!(rt; told, "{call}");
    }
    Ok(())
}

/// The same of the other link.
const OTHER_LOST: [(u64, &str); 4] = [
    (
        1,
        "\n3 SYS LOST CF2 -> SIMPLEX CF1\n4 A WRITE P1 0 v CHANGED 1 -> OK\n\
         5 A READ P1 0 -> DATA v CHANGED\n6 A CASTOUT P1 -> DATA v\n7 A UNLOCK P1 -> OK UNCHANGED\n",
    ),
    (
        2,
        "\n3 A WRITE P1 0 v CHANGED 1 -> OK\n4 SYS LOST CF2 -> SIMPLEX CF1\n\
         5 A READ P1 0 -> DATA v CHANGED\n6 A CASTOUT P1 -> DATA v\n7 A UNLOCK P1 -> OK UNCHANGED\n",
    ),
    (
        3,
        "\n3 A WRITE P1 0 v CHANGED 1 -> OK\n4 A READ P1 0 -> DATA v CHANGED\n\
         5 SYS LOST CF2 -> SIMPLEX CF1\n6 A CASTOUT P1 -> DATA v\n7 A UNLOCK P1 -> OK UNCHANGED\n",
    ),
    (
        4,
        "\n3 A WRITE P1 0 v CHANGED 1 -> OK\n4 A READ P1 0 -> DATA v CHANGED\n\
         5 A CASTOUT P1 -> DATA v\n6 SYS LOST CF2 -> SIMPLEX CF1\n7 A UNLOCK P1 -> OK UNCHANGED\n",
    ),
];

#[test]
fn the_second_instance_is_lost_at_each_call(rt: HostRuntime) -> Result<(), Fail> {
    for (call, history) in OTHER_LOST {
        let shown = [history, "\nGBP TEST 0 VALID 7\n"];
        let told = four_show(&rt, rt.alloc(), &[], &[call], shown, [(4, 0), (call, 1)])?;
        assert!(rt; told, "{call}");
    }
    Ok(())
}

/// The call at which both links are down, and the history then.
const BOTH_AT_ONCE: [(u64, &str); 4] = [
    (
        1,
        "\n3 SYS LOST CF1 -> SIMPLEX CF2\n4 SYS LOST CF2 -> FAILED\n\
         5 A WRITE P1 0 v CHANGED 1 -> REFUSED 74 LOSTFACILITY CF2\n\
         6 A READ P1 0 -> REFUSED 75 STRUCTUREFAILED\n7 A CASTOUT P1 -> REFUSED 75 STRUCTUREFAILED\n\
         8 A UNLOCK P1 -> REFUSED 75 STRUCTUREFAILED\n",
    ),
    (
        2,
        "\n4 SYS LOST CF1 -> SIMPLEX CF2\n5 SYS LOST CF2 -> FAILED\n\
         6 A READ P1 0 -> REFUSED 74 LOSTFACILITY CF2\n7 A CASTOUT P1 -> REFUSED 75 STRUCTUREFAILED\n\
         8 A UNLOCK P1 -> REFUSED 75 STRUCTUREFAILED\n",
    ),
    (
        3,
        "\n5 SYS LOST CF1 -> SIMPLEX CF2\n6 SYS LOST CF2 -> FAILED\n\
         7 A CASTOUT P1 -> REFUSED 74 LOSTFACILITY CF2\n\
         8 A UNLOCK P1 -> REFUSED 75 STRUCTUREFAILED\n",
    ),
    (
        4,
        "\n6 SYS LOST CF1 -> SIMPLEX CF2\n7 SYS LOST CF2 -> FAILED\n\
         8 A UNLOCK P1 -> REFUSED 74 LOSTFACILITY CF2\n",
    ),
];

#[test]
fn both_instances_are_lost_at_one_call(rt: HostRuntime) -> Result<(), Fail> {
    for (call, history) in BOTH_AT_ONCE {
        let shown = [history, "\nGBP TEST 0 INVALID 8\n"];
        let told = four_show(
            &rt,
            rt.alloc(),
            &[call],
            &[call],
            shown,
            [(call, 1), (call, 1)],
        )?;
        assert!(rt; told, "{call}");
    }
    Ok(())
}

/// The calls at which the links to CF1 and CF2 are down in a rebuild, what the history shows then,
/// and how often each link was asked and was down.
struct Failing {
    one: &'static [u64],
    two: &'static [u64],
    shown: &'static str,
    asked: [(u64, u64); 2],
}

// Whether a run of these lines shows what it is to show, at each of the failing links.
fn each_shows<R: Threads + Wait + Sync>(
    rt: &R,
    alloc: Global,
    lines: &str,
    listed: &[LineOf],
    rows: &[Failing],
) -> Result<bool, AllocError> {
    for row in rows {
        let ran = ran_over(rt, alloc, lines, listed, row.one, row.two)?;
        if !ran.shows(row.shown) || !ran.asked(row.asked[0], row.asked[1]) {
            return Ok(false);
        }
    }
    Ok(true)
}

/// A rebuild up to its first COPY. One member reads while it has not been told yet, and stays until
/// the other is done.
const COPYING: &str = "A GBP CONNECT DELETE\n\
    B GBP CONNECT DELETE\n\
    A GBP WRITE P1 0 one CHANGED 1\n\
    B GBP WRITE P2 0 two CHANGED 2\n\
    OP GBP REBUILD START 10 10\n\
    A GBP EVENTS\n\
    A GBP READ P1 0\n\
    B GBP READ P1 1\n\
    B GBP EVENTS\n\
    A GBP REBUILD CONNECT\n\
    B GBP REBUILD CONNECT\n\
    A GBP COPY 1\n\
    A GBP READ P1 0\n\
    B GBP TAKE\n";

/// Its lines, in their order.
const COPYING_LINES: [LineOf; 14] = [
    LineOf(A, 8),
    LineOf(B, 9),
    LineOf(A, 10),
    LineOf(B, 11),
    LineOf(OP, 12),
    LineOf(A, 13),
    LineOf(A, 14),
    LineOf(B, 15),
    LineOf(B, 16),
    LineOf(A, 17),
    LineOf(B, 18),
    LineOf(A, 19),
    LineOf(A, 20),
    LineOf(B, 21),
];

/// The same of this rebuild.
const COPYING_FAILS: [Failing; 3] = [
    // the new instance is lost: the rebuild stops, and the pool stays where it was
    Failing {
        one: &[],
        two: &[1],
        shown: "\n17 B REBUILD CONNECT -> OK CF2\n18 SYS LOST CF2 -> STOPPED 1\n\
            19 A COPY 1 -> REFUSED 69 WRONGSTAGE STOPPING\n20 A READ P1 0 -> DATA one CHANGED\n",
        asked: [(5, 0), (1, 1)],
    },
    // the old one is: the pool fails, and the link to the new one isn't asked
    Failing {
        one: &[4],
        two: &[],
        shown: "\n18 SYS LOST CF1 -> FAILED\n19 A COPY 1 -> REFUSED 74 LOSTFACILITY CF1\n\
            20 A READ P1 0 -> REFUSED 75 STRUCTUREFAILED\n",
        asked: [(4, 1), (0, 0)],
    },
    // a rebuild that waits for its members ends with the instance
    Failing {
        one: &[3],
        two: &[],
        shown: "\n10 A READ P1 0 -> REFUSED 72 QUIESCED 1\n11 SYS LOST CF1 -> FAILED\n\
            12 B READ P1 1 -> REFUSED 74 LOSTFACILITY CF1\n",
        asked: [(3, 1), (0, 0)],
    },
];

#[test]
fn an_instance_is_lost_in_a_rebuild_of_two(rt: HostRuntime) -> Result<(), Fail> {
    let told = each_shows(&rt, rt.alloc(), COPYING, &COPYING_LINES, &COPYING_FAILS)?;
    assert!(rt; told);
    Ok(())
}

/// One caller's calls: on threads they come in their order.
const ALONE: &str = "A GBP CONNECT DELETE\n\
    A GBP WRITE P1 0 one CHANGED 1\n\
    A GBP WRITE P2 1 two CHANGED 1\n\
    A GBP READ P1 0\n";

/// The second write finds the only instance lost.
const ALONE_FAILS: [Failing; 1] = [Failing {
    one: &[2],
    two: &[],
    shown: "HISTORY GBP 6\n1 A CONNECT DELETE -> OK NEW CF1\n\
        2 A WRITE P1 0 one CHANGED 1 -> OK\n3 SYS LOST CF1 -> FAILED\n\
        4 A WRITE P2 1 two CHANGED 1 -> REFUSED 74 LOSTFACILITY CF1\n\
        5 A READ P1 0 -> REFUSED 75 STRUCTUREFAILED\n6 A DISCONNECT -> OK\n",
    asked: [(2, 1), (0, 0)],
}];

#[test]
fn an_only_instance_is_lost(rt: HostRuntime) -> Result<(), Fail> {
    assert!(rt; each_shows(&rt, rt.alloc(), ALONE, &[], &ALONE_FAILS)?);
    Ok(())
}

/// A rebuild by its only member, who reads in each stage. In QUIESCE, till it has answered, the link
/// to CF1 is asked, by COPY both are, and behind the end the one to CF2; where the member is
/// quiesced none is.
const MOVING: &str = "A GBP CONNECT DELETE\n\
    A GBP WRITE P1 0 one CHANGED 1\n\
    A GBP WRITE P2 1 two CHANGED 1\n\
    A GBP REBUILD START 10 10\n\
    A GBP READ P1 0\n\
    A GBP EVENTS\n\
    A GBP READ P1 0\n\
    A GBP REBUILD CONNECT\n\
    A GBP READ P1 0\n\
    A GBP COPY 1\n\
    A GBP COPY 1\n\
    A GBP REBUILD COMPLETE\n\
    A GBP READ P1 0\n\
    A GBP EVENTS\n\
    A GBP READ P1 0\n";

/// The same of that rebuild.
const FAILING: [Failing; 8] = [
    // none; the old instance's link is not asked behind the move
    Failing {
        one: &[6],
        two: &[],
        shown: "\n5 A READ P1 0 -> DATA one CHANGED\n6 A NEXT -> EVENT QUIESCE 1\n\
            7 A RESPOND -> RESPONDED QUIESCE 1\n8 A NEXT -> EVENT REBUILDCONNECT 1\n\
            9 A NEXT -> REFUSED 78 NOEVENT\n10 A READ P1 0 -> REFUSED 72 QUIESCED 1\n\
            11 A REBUILD CONNECT -> OK CF2\n12 A READ P1 0 -> REFUSED 72 QUIESCED 1\n\
            13 A COPY 1 -> COPIED 1 1\n14 A COPY 1 -> COPIED 1 0\n15 A REBUILD COMPLETE -> OK\n\
            16 A READ P1 0 -> REFUSED 72 QUIESCED 1\n17 A NEXT -> EVENT CONNECTSDONE 1\n\
            18 A NEXT -> EVENT CLEANUP 1\n19 A RESPOND -> RESPONDED CLEANUP 1\n\
            20 A NEXT -> EVENT COMPLETE 1\n21 A NEXT -> REFUSED 78 NOEVENT\n\
            22 A READ P1 0 -> DATA one CHANGED\n23 A DISCONNECT -> OK\n",
        asked: [(5, 0), (3, 0)],
    },
    // in QUIESCE
    Failing {
        one: &[3],
        two: &[],
        shown: "\n4 A REBUILD START 10 10 -> OK 1\n5 SYS LOST CF1 -> FAILED\n\
            6 A READ P1 0 -> REFUSED 74 LOSTFACILITY CF1\n7 A NEXT -> EVENT QUIESCE 1\n\
            8 A RESPOND -> RESPONDED QUIESCE 1\n9 A NEXT -> EVENT STRFAIL\n\
            10 A NEXT -> REFUSED 78 NOEVENT\n11 A READ P1 0 -> REFUSED 75 STRUCTUREFAILED\n\
            12 A REBUILD CONNECT -> REFUSED 75 STRUCTUREFAILED\n",
        asked: [(3, 1), (0, 0)],
    },
    // in COPY, at the first item
    Failing {
        one: &[4],
        two: &[],
        shown: "\n13 SYS LOST CF1 -> FAILED\n14 A COPY 1 -> REFUSED 74 LOSTFACILITY CF1\n\
            15 A COPY 1 -> REFUSED 75 STRUCTUREFAILED\n\
            16 A REBUILD COMPLETE -> REFUSED 75 STRUCTUREFAILED\n\
            17 A READ P1 0 -> REFUSED 75 STRUCTUREFAILED\n",
        asked: [(4, 1), (0, 0)],
    },
    // at the second
    Failing {
        one: &[5],
        two: &[],
        shown: "\n13 A COPY 1 -> COPIED 1 1\n14 SYS LOST CF1 -> FAILED\n\
            15 A COPY 1 -> REFUSED 74 LOSTFACILITY CF1\n\
            16 A REBUILD COMPLETE -> REFUSED 75 STRUCTUREFAILED\n",
        asked: [(5, 1), (1, 0)],
    },
    // the new instance's, at the first item
    Failing {
        one: &[],
        two: &[1],
        shown: "\n13 SYS LOST CF2 -> STOPPED 1\n14 A COPY 1 -> REFUSED 69 WRONGSTAGE STOPPING\n\
            15 A COPY 1 -> REFUSED 69 WRONGSTAGE STOPPING\n\
            16 A REBUILD COMPLETE -> REFUSED 69 WRONGSTAGE STOPPING\n\
            17 A READ P1 0 -> DATA one CHANGED\n18 A NEXT -> EVENT CONNECTSDONE 1\n\
            19 A NEXT -> EVENT STOP 1\n20 A RESPOND -> RESPONDED STOP 1\n\
            21 A NEXT -> EVENT STOPDONE 1\n22 A NEXT -> REFUSED 78 NOEVENT\n\
            23 A READ P1 0 -> DATA one CHANGED\n24 A DISCONNECT -> OK\n",
        asked: [(6, 0), (1, 1)],
    },
    // at the second
    Failing {
        one: &[],
        two: &[2],
        shown: "\n13 A COPY 1 -> COPIED 1 1\n14 SYS LOST CF2 -> STOPPED 1\n\
            15 A COPY 1 -> REFUSED 69 WRONGSTAGE STOPPING\n\
            16 A REBUILD COMPLETE -> REFUSED 69 WRONGSTAGE STOPPING\n\
            17 A READ P1 0 -> DATA one CHANGED\n",
        asked: [(7, 0), (2, 1)],
    },
    // in STOPPING, the old one's
    Failing {
        one: &[5],
        two: &[1],
        shown: "\n13 SYS LOST CF2 -> STOPPED 1\n14 A COPY 1 -> REFUSED 69 WRONGSTAGE STOPPING\n\
            15 A COPY 1 -> REFUSED 69 WRONGSTAGE STOPPING\n\
            16 A REBUILD COMPLETE -> REFUSED 69 WRONGSTAGE STOPPING\n\
            17 SYS LOST CF1 -> FAILED\n18 A READ P1 0 -> REFUSED 74 LOSTFACILITY CF1\n",
        asked: [(5, 1), (1, 1)],
    },
    // behind the end
    Failing {
        one: &[],
        two: &[3],
        shown: "\n21 A NEXT -> REFUSED 78 NOEVENT\n22 SYS LOST CF2 -> FAILED\n\
            23 A READ P1 0 -> REFUSED 74 LOSTFACILITY CF2\n24 A DISCONNECT -> OK\n",
        asked: [(5, 0), (3, 1)],
    },
];

#[test]
fn a_link_fails_in_each_stage_of_a_rebuild(rt: HostRuntime) -> Result<(), Fail> {
    assert!(rt; each_shows(&rt, rt.alloc(), MOVING, &[], &FAILING)?);
    Ok(())
}
