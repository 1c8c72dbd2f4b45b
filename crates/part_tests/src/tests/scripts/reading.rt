use plex_load::scripts::{ReadFault, Script, Why, read};
use std::alloc::{AllocError, Global};
use std::test::Fail;

const POLICY: &str =
    "FACILITY CF1 100\nFACILITY CF2 100\nSTRUCTURE GBP CACHE 8 8 4 64 DELETE\nPREF GBP CF1 40\nPREF GBP CF2 40\nCONNECTOR A\nCONNECTOR B\n";

// Whether a script has so many of each.
fn has(
    script: &Script,
    facilities: usize,
    structures: usize,
    connectors: usize,
    lines: usize,
) -> bool {
    script.facilities.items().len() == facilities
        && script.structures.items().len() == structures
        && script.connectors.items().len() == connectors
        && script.lines.items().len() == lines
}

#[test]
fn scripts_are_read(rt: HostRuntime) -> Result<(), Fail> {
    let text = format!(in rt.alloc();
        "* a comment\n{POLICY}\r\n\tA  GBP CONNECT DELETE\r\nA GBP READ RETRY 5 RETRY 3\nOP GBP LOSECONN B CF2\nB GBP WRITE P1 5 x*257 CHANGED 3 STG 1\nB GBP TEST 7"
    )?;
    let script = read(rt.alloc(), text.as_bytes())?;
    assert!(rt; has(&script, 2, 1, 2, 5));
    Ok(())
}

// Whether the first fault of lines behind the policy is this one.
fn tells(alloc: Global, lines: &str, line: u32, why: Why) -> Result<bool, AllocError> {
    let text = format!(in alloc; "{POLICY}{lines}")?;
    match read(alloc, text.as_bytes()) {
        Ok(_) => Ok(false),
        Err(fault) => Ok(fault == ReadFault::Script { line, why }),
    }
}

/// Lines behind the policy, the line of the first fault in the text, and why it is one.
const FAULTS: [(&str, u32, Why); 21] = [
    ("A GBP CONNECT", 8, Why::Syntax),
    ("A GBP", 8, Why::Syntax),
    ("A GBP READ P1 07", 8, Why::Syntax),
    ("Z GBP READ P1 0", 8, Why::Syntax),
    ("A GBP EVENTS\nZ GBP READ \u{1}", 9, Why::Unknown),
    ("A GBP EVENTS\nCONNECTOR", 9, Why::Late),
    ("A NOPE", 8, Why::Unknown),
    ("A NOPENOPENOPENOPEN READ P1 0", 8, Why::Limit),
    ("A GBP WRITE P1 0 x*0 CHANGED 1", 8, Why::Limit),
    ("A GBP WRITE P1 0 x*4097 CHANGED 1", 8, Why::Limit),
    ("OP GBP FORCECONN C", 8, Why::Unknown),
    ("OP GBP VARY CF3 OFF", 8, Why::Unknown),
    ("FACILITY CF5 10", 8, Why::Syntax),
    ("CONNECTOR A", 8, Why::Twice),
    ("STRUCTURE X LOCK 8 8 4 KEEP\nPREF X CF1 61", 9, Why::Space),
    ("STRUCTURE X CACHE 8 8 65 64 KEEP", 8, Why::Limit),
    ("STRUCTURE X CACHE 8 8 4 4097 KEEP", 8, Why::Limit),
    ("STRUCTURE X LOCK 8 8 65 KEEP", 8, Why::Limit),
    ("CONNECTOR C\r", 8, Why::Syntax),
    ("A GBP DELETE P1 VERSION 1", 8, Why::Syntax),
    (
        "STRUCTURE MSG LIST 8 8 4 32 KEEP 1 0 NOTHING\nA MSG DELETE #1 VERSION 0",
        9,
        Why::Limit,
    ),
];

#[test]
fn the_first_fault_is_told(rt: HostRuntime) -> Result<(), Fail> {
    for (lines, line, why) in FAULTS {
        assert!(rt; tells(rt.alloc(), lines, line, why)?, "{lines}");
    }
    Ok(())
}
