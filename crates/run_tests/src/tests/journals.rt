//! A journal that one caller fills.
use super::POLICY;
use super::reports::entries;
use super::runs::Given;
use std::alloc::{AllocError, Global};
use std::test::Fail;

/// A connector comes to wait in a rebuild.
const WAITS: &str = "A GBP CONNECT DELETE\n\
    OP GBP REBUILD START 8 8\n\
    A GBP EVENTS\n";

/// It asks 1,001 times, with an event round after each but the last: 2,001 calls.
const ASKS: &str = "A GBP READ P1 0 RETRY 1000\n";

/// The last of so many lines comes to the full journal.
const LINES: u32 = 33;

/// The first entries, behind the policy.
const FIRST: &str = "HISTORY GBP 65536\n\
    1 A CONNECT DELETE -> OK NEW CF1\n\
    2 OP REBUILD START 8 8 -> OK 1\n\
    3 A NEXT -> EVENT QUIESCE 1\n\
    4 A RESPOND -> RESPONDED QUIESCE 1\n\
    5 A NEXT -> EVENT REBUILDCONNECT 1\n\
    6 A NEXT -> REFUSED 78 NOEVENT\n\
    7 A READ P1 0 -> REFUSED 72 QUIESCED 1\n\
    8 A NEXT -> REFUSED 78 NOEVENT\n\
    9 A READ P1 0 -> REFUSED 72 QUIESCED 1\n";

/// Where the first of those lines ends and the second begins.
const SECOND: &str = "\n2007 A READ P1 0 -> REFUSED 72 QUIESCED 1\n\
    2008 A READ P1 0 -> REFUSED 72 QUIESCED 1\n\
    2009 A NEXT -> REFUSED 78 NOEVENT\n";

/// The last entries, and how many items each transcript has; A does nothing more.
const LAST: &str = "\n65535 A READ P1 0 -> REFUSED 72 QUIESCED 1\n\
    65536 A NEXT -> REFUSED 78 NOEVENT\n\
    TRANSCRIPT OP 1\n\
    GBP 2\n\
    TRANSCRIPT A 65535\n\
    GBP 1\n\
    GBP 3\n";

// Whether the text names the full journal, and then has the policy and the first entries.
fn begins_full(text: &str) -> bool {
    match text.strip_prefix("JOURNALFULL GBP 65536\n") {
        Some(report) => match report.strip_prefix(POLICY) {
            Some(history) => history.starts_with(FIRST),
            None => false,
        },
        None => false,
    }
}

// Whether the text has the entries between two lines of the script, and the last ones.
fn goes_on_full(text: &str) -> bool {
    text.contains(SECOND)
        && text.contains(LAST)
        && text.ends_with("\nGBP 65536\nTRANSCRIPT B 0\nEND\n")
        && entries(text) == 65_536
}

// The lines that fill it.
fn filling(alloc: Global) -> Result<String, AllocError> {
    let mut lines = String::from_str(alloc, WAITS)?;
    for _ in 0..LINES {
        lines.push_str(ASKS)?;
    }
    Ok(lines)
}

// The report goes out in pieces of many lines.
#[test]
fn a_journal_that_one_caller_fills(rt: HostRuntime) -> Result<(), Fail> {
    let lines = filling(rt.alloc())?;
    let given = Given {
        words: "serial",
        policy: POLICY,
        lines: &lines,
    };
    let ran = given.ran(&rt, rt.alloc(), &[])?;
    assert!(rt; ran.status == 8 && begins_full(&ran.text) && goes_on_full(&ran.text));
    assert!(rt; ran.writes < 200, "{}", ran.writes);
    Ok(())
}
