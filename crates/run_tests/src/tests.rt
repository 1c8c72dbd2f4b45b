mod checks;
mod faults;
mod gates;
mod journals;
mod links;
mod loads;
mod locks;
mod rebuilds;
mod reports;
mod runs;
mod statuses;

use gates::{Hold, LineOf, at_once};
use plex_run::types::ConnId;
use reports::{entries, rises};
use runs::{Given, Ran};
use std::alloc::{AllocError, Global};
use std::test::Fail;

/// The operator, and two connectors, each on a thread of its own.
const OP: ConnId = ConnId(0);

const A: ConnId = ConnId(1);

const B: ConnId = ConnId(2);

/// A policy with one cache, and two connectors.
const POLICY: &str = "FACILITY CF1 100\n\
    FACILITY CF2 100\n\
    STRUCTURE GBP CACHE 8 8 4 64 DELETE\n\
    PREF GBP CF1 40\n\
    PREF GBP CF2 40\n\
    CONNECTOR A\n\
    CONNECTOR B\n";

// A run on threads.
fn on_threads<'a>(policy: &'a str, lines: &'a str) -> Given<'a> {
    Given {
        words: "threads",
        policy,
        lines,
    }
}

// Whether the report has so many entries in the cache's history, and its end.
fn has_entries(ran: &Ran, heading: &str, count: usize) -> bool {
    ran.shows(heading) && entries(&ran.text) == count && ran.text.ends_with("\nEND\n")
}

/// Each writer's write begins once the other's has come, so no run on one thread can end well.
const WRITERS: [LineOf; 2] = [LineOf(A, 10), LineOf(B, 11)];

#[test]
fn two_at_once(rt: HostRuntime) -> Result<(), Fail> {
    let holds = at_once(rt.alloc(), &WRITERS)?;
    let given = on_threads(
        POLICY,
        "A GBP CONNECT DELETE\nB GBP CONNECT DELETE\n\
         A GBP WRITE NA 0 a CHANGED 1\nB GBP WRITE NB 0 b CHANGED 1\n",
    );
    let ran = given.ran(&rt, rt.alloc(), &holds)?;
    assert!(rt; has_entries(&ran, "\nHISTORY GBP 6\n", 6));
    Ok(())
}

/// How many writes each of two connectors makes.
const WRITES: u32 = 1_000;

// Both connect and write.
fn two_writers(alloc: Global) -> Result<String, AllocError> {
    let mut lines = String::from_str(alloc, "A GBP CONNECT DELETE\nB GBP CONNECT DELETE\n")?;
    for _ in 0..WRITES {
        lines.push_str("A GBP WRITE NA 0 a CHANGED 1\nB GBP WRITE NB 0 b CHANGED 1\n")?;
    }
    Ok(lines)
}

// Whether both see the numbers of their own calls rise.
fn both_rise(alloc: Global, report: &str) -> Result<bool, AllocError> {
    Ok(rises(alloc, report, "A", 1_002)? && rises(alloc, report, "B", 1_002)?)
}

#[test]
fn a_thousand_writes_each(rt: HostRuntime) -> Result<(), Fail> {
    let lines = two_writers(rt.alloc())?;
    let ran = on_threads(POLICY, &lines).ran(&rt, rt.alloc(), &[])?;
    assert!(rt; has_entries(&ran, "\nHISTORY GBP 2004\n", 2_004));
    assert!(rt; both_rise(rt.alloc(), &ran.text)?);
    Ok(())
}

/// How many connectors there can be, and how many writes each of them makes.
const MEMBERS: u32 = 64;

const MEMBERS_WRITES: u32 = 100;

/// A policy with a cache for all of them, without the connectors.
const LARGE: &str = "FACILITY CF1 100\n\
    FACILITY CF2 100\n\
    STRUCTURE GBP CACHE 8 8 64 64 DELETE\n\
    PREF GBP CF1 40\n\
    PREF GBP CF2 40\n";

// This policy and the connectors C1 to the last one.
fn policy_of(alloc: Global, members: u32) -> Result<String, AllocError> {
    let mut policy = String::from_str(alloc, LARGE)?;
    for member in 1..=members {
        let line = format!(in alloc; "CONNECTOR C{member}\n")?;
        policy.push_str(&line)?;
    }
    Ok(policy)
}

// All connect, and then each writes a row of its own, one after another in each round.
fn writers(alloc: Global) -> Result<String, AllocError> {
    let mut lines = String::new(alloc);
    for member in 1..=MEMBERS {
        let line = format!(in alloc; "C{member} GBP CONNECT DELETE\n")?;
        lines.push_str(&line)?;
    }
    for _ in 0..MEMBERS_WRITES {
        for member in 1..=MEMBERS {
            let line = format!(in alloc; "C{member} GBP WRITE N{member} 0 a UNCHANGED\n")?;
            lines.push_str(&line)?;
        }
    }
    Ok(lines)
}

// Whether each of them sees the numbers of its own calls rise.
fn all_rise(alloc: Global, report: &str) -> Result<bool, AllocError> {
    let Some((_, transcripts)) = report.split_once("\nTRANSCRIPT OP 0\n") else {
        return Ok(false);
    };
    for member in 1..=MEMBERS {
        let connector = format!(in alloc; "C{member}")?;
        if !rises(alloc, transcripts, &connector, 102)? {
            return Ok(false);
        }
    }
    Ok(true)
}

#[test]
fn sixty_four_writers(rt: HostRuntime) -> Result<(), Fail> {
    let policy = policy_of(rt.alloc(), MEMBERS)?;
    let lines = writers(rt.alloc())?;
    let ran = on_threads(&policy, &lines).ran(&rt, rt.alloc(), &[])?;
    assert!(rt; has_entries(&ran, "\nHISTORY GBP 6528\n", 6_528));
    assert!(rt; all_rise(rt.alloc(), &ran.text)?);
    Ok(())
}

/// The calls of a run in which B connects first, and A writes before B takes its note.
const IN_ORDER: &str = "HISTORY GBP 5\n\
    1 B CONNECT DELETE -> OK NEW CF1\n\
    2 A CONNECT DELETE -> OK NEW CF1\n\
    3 A WRITE P1 0 a CHANGED 1 -> OK\n";

/// The rest of its report where A departs first, and where B does.
const A_DEPARTS_FIRST: &str = "4 A DISCONNECT -> OK\n\
    5 B DISCONNECT -> OK\n\
    TRANSCRIPT OP 0\n\
    TRANSCRIPT A 4\nGBP 2\nGBP 3\nGBP POST 3\nGBP 4\n\
    TRANSCRIPT B 3\nGBP 1\nGBP TAKE 3\nGBP 5\n\
    END\n";

const B_DEPARTS_FIRST: &str = "4 B DISCONNECT -> OK\n\
    5 A DISCONNECT -> OK\n\
    TRANSCRIPT OP 0\n\
    TRANSCRIPT A 4\nGBP 2\nGBP 3\nGBP POST 3\nGBP 5\n\
    TRANSCRIPT B 3\nGBP 1\nGBP TAKE 3\nGBP 4\n\
    END\n";

// Whether the report has both, in one of the two orders.
fn is_noted(ran: &Ran) -> bool {
    match ran.text.strip_prefix(POLICY) {
        Some(report) => match report.strip_prefix(IN_ORDER) {
            Some(rest) => ran.status == 0 && (rest == A_DEPARTS_FIRST || rest == B_DEPARTS_FIRST),
            None => false,
        },
        None => false,
    }
}

// Departures don't come to the gate, so there are two reports.
#[test]
fn a_note_between_threads(rt: HostRuntime) -> Result<(), Fail> {
    let holds = [
        Hold::new(LineOf(A, 8), LineOf(B, 9)),
        Hold::new(LineOf(B, 12), LineOf(A, 11)),
    ];
    let given = on_threads(
        POLICY,
        "A GBP CONNECT DELETE\nB GBP CONNECT DELETE\nA GBP WRITE P1 0 a CHANGED 1\n\
         A GBP POST\nB GBP TAKE\n",
    );
    let ran = given.ran(&rt, rt.alloc(), &holds)?;
    assert!(rt; is_noted(&ran));
    Ok(())
}

/// A policy with four structures, and a connector for each.
const FOUR: &str = "FACILITY CF1 160\n\
    STRUCTURE PAGES CACHE 8 8 4 64 DELETE\n\
    PREF PAGES CF1 40\n\
    STRUCTURE QUEUE LIST 8 8 4 64 DELETE 2 1 NOTHING\n\
    PREF QUEUE CF1 40\n\
    STRUCTURE LOCKS LOCK 8 8 4 DELETE\n\
    PREF LOCKS CF1 40\n\
    STRUCTURE COPIES CACHE 8 8 4 64 DELETE\n\
    PREF COPIES CF1 40\n\
    CONNECTOR A\n\
    CONNECTOR B\n\
    CONNECTOR C\n\
    CONNECTOR D\n";

/// What each does.
const FOUR_LINES: &str = "A PAGES CONNECT DELETE\nB QUEUE CONNECT DELETE\n\
    C LOCKS CONNECT DELETE\nD COPIES CONNECT DELETE\n\
    A PAGES WRITE P1 0 a CHANGED 1\nB QUEUE WRITE 0 TAIL DATA b\n\
    C LOCKS OBTAIN R1@5 EXCL\nD COPIES READ P1 0\n";

/// What the run of the four shows, whatever the schedule.
const FOUR_DONE: &str = "HISTORY PAGES 3\n\
    1 A CONNECT DELETE -> OK NEW CF1\n\
    2 A WRITE P1 0 a CHANGED 1 -> OK\n\
    3 A DISCONNECT -> OK\n\
    HISTORY QUEUE 3\n\
    1 B CONNECT DELETE -> OK NEW CF1\n\
    2 B WRITE 0 TAIL DATA b -> ID #1\n\
    3 B DISCONNECT -> OK\n\
    HISTORY LOCKS 3\n\
    1 C CONNECT DELETE -> OK NEW CF1\n\
    2 C OBTAIN R1@5 EXCL -> GRANTED\n\
    3 C DISCONNECT -> OK\n\
    HISTORY COPIES 3\n\
    1 D CONNECT DELETE -> OK NEW CF1\n\
    2 D READ P1 0 -> NODATA\n\
    3 D DISCONNECT -> OK\n\
    TRANSCRIPT OP 0\n\
    TRANSCRIPT A 3\nPAGES 1\nPAGES 2\nPAGES 3\n\
    TRANSCRIPT B 3\nQUEUE 1\nQUEUE 2\nQUEUE 3\n\
    TRANSCRIPT C 3\nLOCKS 1\nLOCKS 2\nLOCKS 3\n\
    TRANSCRIPT D 3\nCOPIES 1\nCOPIES 2\nCOPIES 3\n\
    END\n";

/// Each of four begins once the others have come.
const SECONDS: [LineOf; 4] = [
    LineOf(A, 18),
    LineOf(B, 19),
    LineOf(ConnId(3), 20),
    LineOf(ConnId(4), 21),
];

#[test]
fn four_at_once(rt: HostRuntime) -> Result<(), Fail> {
    let holds = at_once(rt.alloc(), &SECONDS)?;
    let ran = on_threads(FOUR, FOUR_LINES).ran(&rt, rt.alloc(), &holds)?;
    assert!(rt; ran.tells(FOUR, FOUR_DONE));
    Ok(())
}
