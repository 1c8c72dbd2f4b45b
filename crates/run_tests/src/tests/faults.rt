//! Reads and writes that fail, one after another, and scripts that are cut.
use super::POLICY;
use super::runs::{Given, run_into, sink_of, source_of};
use std::alloc::{AllocError, Global};
use std::sync::Wait;
use std::test::Fail;
use std::thread::Threads;

/// What one connector does behind the policy.
const LINES: &str = "A GBP CONNECT DELETE\nA GBP READ P1 0\nA GBP TEST 0\n";

// Whether the run ends with this status where a read fails, and the fault alone is told if it is made.
fn ends_at_read<R: Threads + Wait + Sync>(
    rt: &R,
    alloc: Global,
    read: u64,
    wanted: u8,
) -> Result<bool, AllocError> {
    let mut source = source_of(alloc, POLICY, LINES, &[read])?;
    let mut sink = sink_of(alloc, 64, &[])?;
    let status = run_into(rt, alloc, "serial", &mut source, &mut sink)?;
    let told = sink.bytes.as_slice() == b"FAULT READ\n".as_slice();
    let failed = wanted == 4;
    Ok(status == wanted && failed == (source.faults == 1) && failed == told)
}

// Two reads bring the script and its end; no other is made.
#[test]
fn each_read_fails(rt: HostRuntime) -> Result<(), Fail> {
    for (read, wanted) in [(1, 4), (2, 4), (3, 0), (4, 0)] {
        assert!(rt; ends_at_read(&rt, rt.alloc(), read, wanted)?, "{read}");
    }
    Ok(())
}

// What is written in pieces of ten bytes, of which there are more than twenty.
fn whole<R: Threads + Wait + Sync>(rt: &R, alloc: Global) -> Result<Option<Vec<u8>>, AllocError> {
    let mut source = source_of(alloc, POLICY, LINES, &[])?;
    let mut sink = sink_of(alloc, 10, &[])?;
    let status = run_into(rt, alloc, "serial", &mut source, &mut sink)?;
    if status != 0 || sink.calls <= 20 {
        return Ok(None);
    }
    Ok(Some(sink.bytes))
}

// Whether the run ends at a write that fails, behind a front of the whole.
fn ends_at_write<R: Threads + Wait + Sync>(
    rt: &R,
    alloc: Global,
    write: u64,
    whole: &[u8],
) -> Result<bool, AllocError> {
    let mut source = source_of(alloc, POLICY, LINES, &[])?;
    let mut sink = sink_of(alloc, 10, &[write])?;
    let status = run_into(rt, alloc, "serial", &mut source, &mut sink)?;
    let stops = status == 5 && sink.calls == write && sink.faults == 1;
    Ok(stops && whole.starts_with(sink.bytes.as_slice()))
}

// What stands behind the first twenty failing writes is a front each.
#[test]
fn each_write_fails(rt: HostRuntime) -> Result<(), Fail> {
    let whole = whole(&rt, rt.alloc())?.ok_or("no report in pieces")?;
    for write in 1..=20 {
        assert!(rt; ends_at_write(&rt, rt.alloc(), write, &whole)?, "{write}");
    }
    Ok(())
}

/// The first lines of a script: two, five and eight.
const TWO: &str = "FACILITY CF1 100\n\
    FACILITY CF2 100\n";

const FIVE: &str = "FACILITY CF1 100\n\
    FACILITY CF2 100\n\
    STRUCTURE GBP CACHE 8 8 4 64 DELETE\n\
    PREF GBP CF1 40\n\
    PREF GBP CF2 40\n";

const EIGHT: &str = "FACILITY CF1 100\n\
    FACILITY CF2 100\n\
    STRUCTURE GBP CACHE 8 8 4 64 DELETE\n\
    PREF GBP CF1 40\n\
    PREF GBP CF2 40\n\
    CONNECTOR A\n\
    CONNECTOR B\n\
    A GBP CONNECT DELETE\n";

/// Whole lines, what is left of the next one, at which the script is cut, and what is written then.
const CUT: [(&str, &str, &str); 5] = [
    (TWO, "STRUCTURE GB", "SCRIPT 3 SYNTAX\n"),
    (FIVE, "CONNECTOR", "SCRIPT 6 SYNTAX\n"),
    (POLICY, "A GBP", "SCRIPT 8 SYNTAX\n"),
    (POLICY, "A GBP CONNECT", "SCRIPT 8 SYNTAX\n"),
    (EIGHT, "A GBP READ P1", "SCRIPT 9 SYNTAX\n"),
];

#[test]
fn cut_scripts(rt: HostRuntime) -> Result<(), Fail> {
    for (policy, lines, told) in CUT {
        let words = "serial";
        let given = Given {
            words,
            policy,
            lines,
        };
        assert!(rt; given.ends(&rt, rt.alloc(), 3, told)?, "{lines}");
    }
    Ok(())
}
