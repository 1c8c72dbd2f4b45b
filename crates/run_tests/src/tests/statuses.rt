//! How runs end: the statuses, and what is written with each.
ghost use Rattle.std.specs.Prelude.{◌<◌};

use super::loads::USAGE;
use super::runs::{Given, run_into, sink_of, source_of};
use super::{MEMBERS, POLICY, policy_of};
use plex_run::sources::MemSource;
use std::alloc::{AllocError, Global};
use std::sync::Wait;
use std::test::Fail;
use std::thread::Threads;

// Whether a run by the word `serial` into a sink that fails at its second write ends so.
fn ends_at_a_fault<R: Threads + Wait + Sync>(
    rt: &R,
    alloc: Global,
    source: &mut MemSource,
    piece: usize,
    status: u8,
    text: &[u8],
) -> Result<bool, AllocError>
    requires { 0 < piece }
{
    let mut sink = sink_of(alloc, piece, &[2])?;
    let got = run_into(rt, alloc, "serial", source, &mut sink)?;
    Ok(got == status && sink.bytes.as_slice() == text)
}

#[test]
fn failing_sink(rt: HostRuntime) -> Result<(), Fail> {
    let mut source = source_of(rt.alloc(), POLICY, "", &[])?;
    let told = ends_at_a_fault(&rt, rt.alloc(), &mut source, 10, 5, b"FACILITY C")?;
    assert!(rt; told);
    Ok(())
}

// More event rounds than a journal has entries, behind a CONNECT.
fn too_many_rounds(alloc: Global) -> Result<MemSource, AllocError> {
    let mut source = source_of(alloc, POLICY, "A GBP CONNECT DELETE\n", &[])?;
    let events = b"A GBP EVENTS\n".repeat(alloc, 65_536)?;
    source.bytes.extend_from_slice(events.as_slice())?;
    Ok(source)
}

// A full journal is told by the status, whatever the sink does.
#[test]
fn full_journal_and_a_failing_sink(rt: HostRuntime) -> Result<(), Fail> {
    let mut source = too_many_rounds(rt.alloc())?;
    let full = b"JOURNALFULL GBP 65536\n";
    assert!(rt; ends_at_a_fault(&rt, rt.alloc(), &mut source, 64, 8, full)?);
    Ok(())
}

// Where one caller alone has lines, each schedule has the same report.
#[test]
fn read_and_test_on_threads(rt: HostRuntime) -> Result<(), Fail> {
    let given = Given {
        words: "threads",
        policy: POLICY,
        lines: "A GBP CONNECT DELETE\nA GBP READ P1 0\nA GBP TEST 0\n",
    };
    let ran = given.ran(&rt, rt.alloc(), &[])?;
    assert!(rt;
        ran.tells(
            POLICY,
            "HISTORY GBP 3\n1 A CONNECT DELETE -> OK NEW CF1\n2 A READ P1 0 -> NODATA\n3 A DISCONNECT -> OK\n\
             TRANSCRIPT OP 0\nTRANSCRIPT A 4\nGBP 1\nGBP 2\nGBP TEST 0 VALID 2\nGBP 3\nTRANSCRIPT B 0\nEND\n"
        )
    );
    Ok(())
}

#[test]
fn misspelt_policy(rt: HostRuntime) -> Result<(), Fail> {
    let given = Given {
        words: "serial",
        policy: POLICY,
        lines: "* A line that says nothing.\nFACILTY CF3 100\n",
    };
    assert!(rt; given.ends(&rt, rt.alloc(), 3, "SCRIPT 9 SYNTAX\n")?);
    Ok(())
}

// Five lines stand before those of the connectors.
#[test]
fn one_connector_too_many(rt: HostRuntime) -> Result<(), Fail> {
    let policy = policy_of(rt.alloc(), MEMBERS + 1)?;
    let given = Given {
        words: "serial",
        policy: &policy,
        lines: "",
    };
    assert!(rt; given.ends(&rt, rt.alloc(), 3, "SCRIPT 70 LIMIT\n")?);
    Ok(())
}

// Whether a run by these words over a source ends so.
fn ends_with<R: Threads + Wait + Sync>(
    rt: &R,
    alloc: Global,
    words: &str,
    source: &mut MemSource,
    status: u8,
    text: &str,
) -> Result<bool, AllocError> {
    let mut sink = sink_of(alloc, 64, &[])?;
    let got = run_into(rt, alloc, words, source, &mut sink)?;
    Ok(got == status && sink.bytes.as_slice() == text.as_bytes())
}

#[test]
fn oversized_source(rt: HostRuntime) -> Result<(), Fail> {
    let mut source = source_of(rt.alloc(), "", "", &[])?;
    source.bytes.resize(1_048_577, b'*')?;
    assert!(rt;
        ends_with(
            &rt,
            rt.alloc(),
            "serial",
            &mut source,
            7,
            "TOOLONG 1048576\n"
        )?
    );
    Ok(())
}

#[test]
fn failing_source(rt: HostRuntime) -> Result<(), Fail> {
    let mut source = source_of(rt.alloc(), POLICY, "", &[1])?;
    assert!(rt; ends_with(&rt, rt.alloc(), "serial", &mut source, 4, "FAULT READ\n")?);
    Ok(())
}

#[test]
fn missing_words(rt: HostRuntime) -> Result<(), Fail> {
    let mut source = source_of(rt.alloc(), POLICY, "", &[])?;
    let told = ends_with(&rt, rt.alloc(), "", &mut source, 2, USAGE)?;
    assert!(rt; told && source.calls == 0);
    Ok(())
}
