//! Reports that are judged, by the whole program.
use super::runs::{Given, run_into, sink_of, source_of};
use super::{FOUR, FOUR_DONE, FOUR_LINES, MEMBERS, POLICY, policy_of};
use plex_run::sources::MemSource;
use std::alloc::{AllocError, Global};
use std::sync::Wait;
use std::test::Fail;
use std::thread::Threads;

/// Lines of two connectors behind the policy. A report of them begins with the policy, too.
const LINES: &str = "A GBP CONNECT DELETE\n\
    B GBP CONNECT DELETE\n\
    A GBP READ P1 0\n\
    B GBP READ P1 5\n\
    B GBP WRITE P1 5 abc CHANGED 3\n\
    A GBP TEST 0\n\
    B GBP TEST 5\n";

/// What the report has behind the policy, from its line 8 on. It has 28.
const SHOWN: &str = "HISTORY GBP 7\n\
    1 A CONNECT DELETE -> OK NEW CF1\n\
    2 B CONNECT DELETE -> OK NEW CF1\n\
    3 A READ P1 0 -> NODATA\n\
    4 B READ P1 5 -> NODATA\n\
    5 B WRITE P1 5 abc CHANGED 3 -> OK\n\
    6 A DISCONNECT -> OK\n\
    7 B DISCONNECT -> OK\n\
    TRANSCRIPT OP 0\n\
    TRANSCRIPT A 4\n\
    GBP 1\n\
    GBP 3\n\
    GBP TEST 0 INVALID 5\n\
    GBP 6\n\
    TRANSCRIPT B 5\n\
    GBP 2\n\
    GBP 4\n\
    GBP 5\n\
    GBP TEST 5 VALID 5\n\
    GBP 7\n\
    END\n";

/// The line between a script and its report.
const BETWEEN: &str = "REPORT\n";

// The status of an answer.
fn status_of(answer: &str) -> u8 {
    if answer.starts_with("YES ") { 0 } else { 9 }
}

// Whether this text behind the policy is answered so.
fn answered<R: Threads + Wait + Sync>(
    rt: &R,
    alloc: Global,
    rest: &str,
    answer: &str,
) -> Result<bool, AllocError> {
    let given = Given {
        words: "check",
        policy: POLICY,
        lines: rest,
    };
    let text = format!(in alloc; "{answer}\n")?;
    given.ends(rt, alloc, status_of(answer), &text)
}

// The lines, and the report with these histories and transcripts.
fn with_report(alloc: Global, shown: &str) -> Result<String, AllocError> {
    format!(in alloc; "{LINES}{BETWEEN}{POLICY}{shown}")
}

/// A part of the report that stands there once, what stands in its place, and the answer.
type Altered = (&'static str, &'static str, &'static str);

// Whether the report with the other text in place of a part of it is answered so.
fn answers<R: Threads + Wait + Sync>(
    rt: &R,
    alloc: Global,
    part: &str,
    other: &str,
    answer: &str,
) -> Result<bool, AllocError> {
    let Some((front, back)) = SHOWN.split_once(part) else {
        return Ok(false);
    };
    let shown = format!(in alloc; "{front}{other}{back}")?;
    answered(rt, alloc, &with_report(alloc, &shown)?, answer)
}

/// Replies, calls and marks that the machine doesn't have; the first of several that are wrong.
const WRONG_ENTRIES: [Altered; 10] = [
    ("3 -> OK\n", "3 -> NODATA\n", "NO GBP 5"),
    ("3 -> OK\n", "3 -> REFUSED 9 DIRECTORYFULL 8\n", "NO GBP 5"),
    ("3 -> OK\n6 A", "3 -> OK\n7 A", "NO GBP 6"),
    ("5 B WRITE", "4294967295 B WRITE", "NO GBP 5"),
    (
        "3 A READ P1 0 -> NODATA\n4 B READ P1 5 -> NODATA",
        "3 A READ P1 0 -> DATA a CHANGED\n4 B READ P1 5 -> OK",
        "NO GBP 3",
    ),
    (
        "7\n1 A CONNECT DELETE -> OK NEW CF1",
        "7\n1 A CONNECT DELETE -> OK NEW CF2",
        "NO GBP 1",
    ),
    (
        "5 B WRITE P1 5 abc CHANGED 3 -> OK",
        "5 SYS LOST CF2 -> SIMPLEX CF1",
        "NO GBP 5",
    ),
    (
        "5 B WRITE P1 5 abc CHANGED 3 -> OK",
        "5 SYS LOST CF1 -> FAILED",
        "NO GBP 5",
    ),
    (
        "7 B DISCONNECT -> OK",
        "7 SYS LOST CF1 -> FAILED",
        "NO GBP 7",
    ),
    (
        "5 B WRITE P1 5 abc CHANGED 3 -> OK",
        "5 B WRITE P1 5 abc CHANGED 17 -> OK",
        "NO GBP 5",
    ),
];

#[test]
fn wrong_entries(rt: HostRuntime) -> Result<(), Fail> {
    assert!(rt; answered(&rt, rt.alloc(), &with_report(rt.alloc(), SHOWN)?, "YES 7")?);
    for (part, other, answer) in WRONG_ENTRIES {
        assert!(rt; answers(&rt, rt.alloc(), part, other, answer)?, "{other}");
    }
    Ok(())
}

/// What the callers may have been shown, and what not: a test of B's write, which A hadn't seen complete, may
/// tell what stood just before it. Behind its own call the connector is shown no older number.
const ITEMS: [Altered; 18] = [
    ("0 INVALID 5", "0 VALID 5", "YES 7"),
    ("0 INVALID 5", "0 VALID 4", "YES 7"),
    ("0 INVALID 5", "0 VALID 3", "YES 7"),
    ("0 INVALID 5", "0 INVALID 6", "YES 7"),
    ("0 INVALID 5", "0 VALID 6", "NO TRANSCRIPT A 3"),
    ("0 INVALID 5", "0 INVALID 3", "NO TRANSCRIPT A 3"),
    ("0 INVALID 5", "0 INVALID 2", "NO TRANSCRIPT A 3"),
    ("0 INVALID 5", "0 INVALID 0", "NO TRANSCRIPT A 3"),
    ("0 INVALID 5", "0 INVALID 8", "NO TRANSCRIPT A 3"),
    ("0 INVALID 5", "1 INVALID 5", "NO TRANSCRIPT A 3"),
    (
        "TEST 0 INVALID 5",
        "TEST 0 BADINDEX 64",
        "NO TRANSCRIPT A 3",
    ),
    ("TEST 0 INVALID 5", "POST 5", "NO TRANSCRIPT A 3"),
    ("5 VALID 5", "5 VALID 4", "NO TRANSCRIPT B 4"),
    (
        "A 4\nGBP 1\nGBP 3\n",
        "A 4\nGBP 1\nGBP 4\n",
        "NO TRANSCRIPT A 2",
    ),
    (
        "A 4\nGBP 1\nGBP 3\nGBP TEST 0 INVALID 5\nGBP 6\n",
        "A 3\nGBP 1\nGBP 3\nGBP TEST 0 INVALID 5\n",
        "NO TRANSCRIPT A 4",
    ),
    (
        "A 4\nGBP 1\nGBP 3\nGBP TEST 0 INVALID 5\nGBP 6\n",
        "A 0\n",
        "NO TRANSCRIPT A 1",
    ),
    (
        "A 4\nGBP 1\nGBP 3\nGBP TEST 0 INVALID 5\nGBP 6\n",
        "A 5\nGBP 1\nGBP 3\nGBP TEST 0 INVALID 5\nGBP 6\nGBP TEST 0 INVALID 6\n",
        "NO TRANSCRIPT A 5",
    ),
    ("OP 0\n", "OP 1\nGBP POST 0\n", "NO TRANSCRIPT OP 1"),
];

#[test]
fn items(rt: HostRuntime) -> Result<(), Fail> {
    for (part, other, answer) in ITEMS {
        assert!(rt; answers(&rt, rt.alloc(), part, other, answer)?, "{other}");
    }
    Ok(())
}

/// Calls that the script's lines don't make, where the history has them right: no transcript follows.
const OTHER_CALLS: [Altered; 2] = [
    (
        "3 A READ P1 0 -> NODATA",
        "3 A READ P2 0 -> NODATA",
        "NO TRANSCRIPT A 1",
    ),
    (
        "6 A DISCONNECT -> OK",
        "6 A FAIL -> OK",
        "NO TRANSCRIPT A 1",
    ),
];

#[test]
fn other_calls(rt: HostRuntime) -> Result<(), Fail> {
    for (part, other, answer) in OTHER_CALLS {
        assert!(rt; answers(&rt, rt.alloc(), part, other, answer)?, "{other}");
    }
    Ok(())
}

/// Of four structures the first that is wrong is told, whatever those behind it have; and of callers
/// the first. The policy has 13 lines, so the second entry of QUEUE stands in line 20.
const OF_FOUR: [Altered; 8] = [
    ("a CHANGED 1 -> OK", "a CHANGED 1 -> NODATA", "NO PAGES 2"),
    ("DATA b -> ID #1", "DATA b -> ID #2", "NO QUEUE 2"),
    ("EXCL -> GRANTED", "EXCL -> PENDING 1", "NO LOCKS 2"),
    (
        "READ P1 0 -> NODATA",
        "READ P1 0 -> DATA a CHANGED",
        "NO COPIES 2",
    ),
    (
        "GRANTED\n3 C DISCONNECT -> OK\nHISTORY COPIES 3\n1 D CONNECT DELETE -> OK NEW CF1",
        "PENDING 1\n3 C DISCONNECT -> OK\nHISTORY COPIES 3\n1 D CONNECT DELETE -> OK NEW CF2",
        "NO LOCKS 2",
    ),
    (
        "2 B WRITE 0 TAIL DATA b",
        "2 B WRITE P1 0 a CHANGED 1",
        "NO TEXT 20",
    ),
    ("PAGES 2\nPAGES 3", "QUEUE 2\nPAGES 3", "NO TRANSCRIPT A 2"),
    ("QUEUE 1\nQUEUE 2", "QUEUE 2\nQUEUE 1", "NO TRANSCRIPT B 1"),
];

// Whether the report of the four is answered so with the other text in place of a part of it.
fn answers_of_four<R: Threads + Wait + Sync>(
    rt: &R,
    alloc: Global,
    part: &str,
    other: &str,
    answer: &str,
) -> Result<bool, AllocError> {
    let Some((front, back)) = FOUR_DONE.split_once(part) else {
        return Ok(false);
    };
    let rest = format!(in alloc; "{FOUR_LINES}{BETWEEN}{FOUR}{front}{other}{back}")?;
    let given = Given {
        words: "check",
        policy: FOUR,
        lines: &rest,
    };
    let text = format!(in alloc; "{answer}\n")?;
    given.ends(rt, alloc, status_of(answer), &text)
}

#[test]
fn the_first_of_four(rt: HostRuntime) -> Result<(), Fail> {
    for (part, other, answer) in OF_FOUR {
        assert!(rt;
            answers_of_four(&rt, rt.alloc(), part, other, answer)?,
            "{answer}"
        );
    }
    Ok(())
}

/// Lines that no report has: headings, numbers and words.
const HEADINGS: [Altered; 11] = [
    ("GBP 7\n1", "GBP 18446744073709551623\n1", "NO TEXT 8"),
    ("GBP 7\n1", "GBP 18446744073709551619\n1", "NO TEXT 8"),
    ("GBP 7\n1", "GBP 36893488147419103239\n1", "NO TEXT 8"),
    ("GBP 7\n1", "GBP 18446744073709551615\n1", "NO TEXT 16"),
    ("GBP 7\n1", "GBP 3\n1", "NO TEXT 12"),
    ("GBP 7\n1", "GBP 8\n1", "NO TEXT 16"),
    ("GBP 7\n1", "GBP 07\n1", "NO TEXT 8"),
    ("HISTORY GBP", "HISTORY GBQ", "NO TEXT 8"),
    (
        "TRANSCRIPT A 4",
        "TRANSCRIPT A 18446744073709551620",
        "NO TEXT 17",
    ),
    ("TRANSCRIPT A 4", "TRANSCRIPT B 4", "NO TEXT 17"),
    ("END\n", "END\n\n", "NO TEXT 29"),
];

/// The fifth entry stands in line 13.
const ENTRIES: [Altered; 16] = [
    ("5 B WRITE", "4294967296 B WRITE", "NO TEXT 13"),
    ("5 B WRITE", "36893488147419103237 B WRITE", "NO TEXT 13"),
    ("5 B WRITE", "05 B WRITE", "NO TEXT 13"),
    ("5 B WRITE", "5  B WRITE", "NO TEXT 13"),
    ("WRITE P1 5", "WRITE  P1 5", "NO TEXT 13"),
    ("WRITE P1 5", "WRITE\tP1 5", "NO TEXT 13"),
    ("CHANGED 3 -> OK", "CHANGED 3  -> OK", "NO TEXT 13"),
    ("CHANGED 3 -> OK", "CHANGED 3 -> OK ", "NO TEXT 13"),
    ("CHANGED 3 -> OK", "CHANGED 3 -> OK\r", "NO TEXT 13"),
    ("5 abc CHANGED", "5 a*3 CHANGED", "NO TEXT 13"),
    ("CHANGED 3", "CHANGED 3 STG 1", "NO TEXT 13"),
    ("CHANGED 3", "CHANGED 3 RETRY 1", "NO TEXT 13"),
    ("B WRITE P1 5 abc CHANGED 3", "B READLIST 0", "NO TEXT 13"),
    ("CHANGED 3 -> OK", "CHANGED 3 -> EMPTY", "NO TEXT 13"),
    ("5 B WRITE", "5 OP WRITE", "NO TEXT 13"),
    (
        "5 B WRITE P1 5 abc CHANGED 3 -> OK",
        "5 SYS LOST CF1 -> OK",
        "NO TEXT 13",
    ),
];

/// A's test stands in line 20.
const SHOWN_ITEMS: [Altered; 6] = [
    ("INVALID 5", "INVALID 4294967296", "NO TEXT 20"),
    ("TEST 0 INVALID", "TEST 00 INVALID", "NO TEXT 20"),
    ("TEST 0 INVALID", "TEST 0 EMPTY", "NO TEXT 20"),
    ("GBP TEST 0", "GBQ TEST 0", "NO TEXT 20"),
    ("INVALID 5", "INVALID", "NO TEXT 20"),
    ("GBP TEST 0 INVALID 5", "", "NO TEXT 20"),
];

#[test]
fn headings(rt: HostRuntime) -> Result<(), Fail> {
    for (part, other, answer) in HEADINGS {
        assert!(rt; answers(&rt, rt.alloc(), part, other, answer)?, "{other}");
    }
    Ok(())
}

#[test]
fn lines_of_entries(rt: HostRuntime) -> Result<(), Fail> {
    for (part, other, answer) in ENTRIES {
        assert!(rt; answers(&rt, rt.alloc(), part, other, answer)?, "{other}");
    }
    Ok(())
}

#[test]
fn lines_of_items(rt: HostRuntime) -> Result<(), Fail> {
    for (part, other, answer) in SHOWN_ITEMS {
        assert!(rt; answers(&rt, rt.alloc(), part, other, answer)?, "{other}");
    }
    Ok(())
}

// Whether the report's first lines, so many, are answered by the number of the next.
fn is_cut<R: Threads + Wait + Sync>(
    rt: &R,
    alloc: Global,
    lines: usize,
) -> Result<bool, AllocError> {
    let whole = format!(in alloc; "{POLICY}{SHOWN}")?;
    let mut text = format!(in alloc; "{LINES}{BETWEEN}")?;
    for line in whole.lines().take(lines) {
        text.push_str(line)?;
        text.push('\n')?;
    }
    let next = lines.saturating_add(1);
    let answer = format!(in alloc; "NO TEXT {next}")?;
    answered(rt, alloc, &text, &answer)
}

/// How many lines the report has.
const REPORT_LINES: usize = 28;

#[test]
fn cut_at_each_line(rt: HostRuntime) -> Result<(), Fail> {
    for lines in 0..REPORT_LINES {
        assert!(rt; is_cut(&rt, rt.alloc(), lines)?, "{lines}");
    }
    Ok(())
}

// Whether this text alone ends so by the word `check`.
fn ends<R: Threads + Wait + Sync>(
    rt: &R,
    alloc: Global,
    text: &str,
    status: u8,
    told: &str,
) -> Result<bool, AllocError> {
    let given = Given {
        words: "check",
        policy: "",
        lines: text,
    };
    given.ends(rt, alloc, status, told)
}

/// Texts without a line that is exactly REPORT; one whose report is nothing; one with two such lines; one
/// whose script is wrong; and the least that there is.
const TEXTS: [(&str, u8, &str); 11] = [
    ("", 3, "SCRIPT 0 NOREPORT\n"),
    ("FACILITY CF1 100\n", 3, "SCRIPT 0 NOREPORT\n"),
    (
        "REPORT\r\nTRANSCRIPT OP 0\r\nEND\r\n",
        3,
        "SCRIPT 0 NOREPORT\n",
    ),
    (" REPORT\nTRANSCRIPT OP 0\nEND\n", 3, "SCRIPT 0 NOREPORT\n"),
    ("REPORT", 9, "NO TEXT 1\n"),
    ("REPORT\nREPORT\nTRANSCRIPT OP 0\nEND\n", 9, "NO TEXT 1\n"),
    ("REPORT\nTRANSCRIPT OP 0\nEND", 9, "NO TEXT 2\n"),
    ("REPORT\nTRANSCRIPT OP 0\r\nEND\r\n", 9, "NO TEXT 1\n"),
    ("FACILTY CF1 100\nREPORT\n", 3, "SCRIPT 1 SYNTAX\n"),
    ("REPORT\nTRANSCRIPT OP 0\nEND\n", 0, "YES 0\n"),
    (
        "FACILITY CF1 100\r\nREPORT\nFACILITY CF1 100\nTRANSCRIPT OP 0\nEND\n",
        0,
        "YES 0\n",
    ),
];

#[test]
fn whole_texts(rt: HostRuntime) -> Result<(), Fail> {
    for (text, status, told) in TEXTS {
        assert!(rt; ends(&rt, rt.alloc(), text, status, told)?, "{text}");
    }
    Ok(())
}

// What is written of a source by the word `check`, with this status.
fn ends_with<R: Threads + Wait + Sync>(
    rt: &R,
    alloc: Global,
    source: &mut MemSource,
    status: u8,
    told: &str,
) -> Result<bool, AllocError> {
    let mut sink = sink_of(alloc, 64, &[])?;
    let got = run_into(rt, alloc, "check", source, &mut sink)?;
    Ok(got == status && sink.bytes.as_slice() == told.as_bytes())
}

/// The greatest length of a script, a line REPORT and a report together, in bytes.
const TEXT_BYTES: usize = 16_777_216;

/// A line of 64 bytes that says nothing, and how many of them make a script of the greatest length.
const NOTHING: &str = "* A line of sixty-four bytes, with its end, which says nothing.\n";

const MOST_LINES: usize = 16_384;

// A script of the greatest length with these bytes more, and then a report.
fn long_script(alloc: Global, more: &str) -> Result<MemSource, AllocError> {
    let mut source = source_of(alloc, "", "", &[])?;
    let lines = NOTHING.as_bytes().repeat(alloc, MOST_LINES)?;
    source.bytes.extend_from_slice(lines.as_slice())?;
    source.bytes.extend_from_slice(more.as_bytes())?;
    source
        .bytes
        .extend_from_slice(b"REPORT\nTRANSCRIPT OP 0\nEND\n")?;
    Ok(source)
}

#[test]
fn long_scripts(rt: HostRuntime) -> Result<(), Fail> {
    let mut longest = long_script(rt.alloc(), "")?;
    assert!(rt; ends_with(&rt, rt.alloc(), &mut longest, 0, "YES 0\n")?);
    let mut longer = long_script(rt.alloc(), "\n")?;
    assert!(rt; ends_with(&rt, rt.alloc(), &mut longer, 7, "TOOLONG 1048576\n")?);
    Ok(())
}

// A report of so many bytes with its line REPORT, all of them blank lines.
fn long_report(alloc: Global, bytes: usize) -> Result<MemSource, AllocError> {
    let mut source = source_of(alloc, BETWEEN, "", &[])?;
    source.bytes.resize(bytes, b'\n')?;
    Ok(source)
}

#[test]
fn long_texts(rt: HostRuntime) -> Result<(), Fail> {
    let mut longest = long_report(rt.alloc(), TEXT_BYTES)?;
    assert!(rt; ends_with(&rt, rt.alloc(), &mut longest, 9, "NO TEXT 1\n")?);
    let mut longer = long_report(rt.alloc(), TEXT_BYTES + 1)?;
    assert!(rt; ends_with(&rt, rt.alloc(), &mut longer, 7, "TOOLONG 16777216\n")?);
    Ok(())
}

// A text that is too long is told so, whether it has a line REPORT or not.
#[test]
fn long_and_no_report(rt: HostRuntime) -> Result<(), Fail> {
    let mut source = source_of(rt.alloc(), "", "", &[])?;
    source.bytes.resize(TEXT_BYTES + 1, b'*')?;
    assert!(rt; ends_with(&rt, rt.alloc(), &mut source, 7, "TOOLONG 16777216\n")?);
    Ok(())
}

// The script with its report, of which a part may be altered, from a source that fails at these reads.
fn source_with(
    alloc: Global,
    part: &str,
    other: &str,
    fails: &[u64],
) -> Result<MemSource, AllocError> {
    let (front, back) = SHOWN.split_once(part).unwrap_or((SHOWN, ""));
    let shown = format!(in alloc; "{front}{other}{back}")?;
    source_of(alloc, POLICY, &with_report(alloc, &shown)?, fails)
}

#[test]
fn a_read_fails(rt: HostRuntime) -> Result<(), Fail> {
    for (read, status, told) in [
        (1, 4, "FAULT READ\n"),
        (2, 4, "FAULT READ\n"),
        (3, 0, "YES 7\n"),
    ] {
        let mut source = source_with(rt.alloc(), "END\n", "END\n", &[read])?;
        assert!(rt;
            ends_with(&rt, rt.alloc(), &mut source, status, told)?,
            "{read}"
        );
    }
    Ok(())
}

// A yes that isn't written whole is told by the status. A no is told by its own status, whatever the sink does.
#[test]
fn a_write_fails(rt: HostRuntime) -> Result<(), Fail> {
    for (other, status, front) in [("3 -> OK", 5, "YES"), ("3 -> NODATA", 9, "NO ")] {
        let mut source = source_with(rt.alloc(), "3 -> OK", other, &[])?;
        let mut sink = sink_of(rt.alloc(), 3, &[2])?;
        let got = run_into(&rt, rt.alloc(), "check", &mut source, &mut sink)?;
        assert!(rt;
            got == status && sink.bytes.as_slice() == front.as_bytes(),
            "{front}"
        );
    }
    Ok(())
}

// Whether the report of a run by `threads` of these lines is judged with YES and so many entries.
fn is_judged<R: Threads + Wait + Sync>(
    rt: &R,
    alloc: Global,
    policy: &str,
    lines: &str,
) -> Result<bool, AllocError> {
    let words = "threads";
    let ran = Given {
        words,
        policy,
        lines,
    }
    .ran(rt, alloc, &[])?;
    if ran.status != 0 {
        return Ok(false);
    }
    let report = &ran.text;
    let rest = format!(in alloc; "{lines}{BETWEEN}{report}")?;
    let judged = Given {
        words: "check",
        policy,
        lines: &rest,
    }
    .ran(rt, alloc, &[])?;
    let is_yes = judged.status == 0 && judged.text.starts_with("YES ");
    Ok(is_yes && judged.gated == 0 && judged.asked((0, 0), (0, 0)))
}

/// How often each of two connectors writes and tests while the operator has the structure rebuilt.
const ROUNDS: u32 = 100;

/// What both do in the end for a rebuild.
const REBUILT: &str = "A GBP REBUILD CONNECT RETRY 100\nB GBP REBUILD CONNECT RETRY 100\n\
    A GBP COPY 8 RETRY 100\nB GBP COPY 8 RETRY 100\n\
    A GBP REBUILD COMPLETE RETRY 100\nB GBP REBUILD COMPLETE RETRY 100\n\
    A GBP EVENTS\nB GBP EVENTS\n";

// Two connectors write and test, and the operator begins a rebuild again and again.
fn rebuilt_meanwhile(alloc: Global) -> Result<String, AllocError> {
    let mut lines = String::from_str(
        alloc,
        "A GBP CONNECT DELETE RETRY 100\nB GBP CONNECT DELETE RETRY 100\n",
    )?;
    for round in 1..=ROUNDS {
        let line = format!(in alloc;
            "OP GBP REBUILD START 10 10 RETRY 100\n\
             A GBP WRITE NA 0 a{round} CHANGED 1 RETRY 100\nA GBP TEST 0\n\
             B GBP WRITE NB 0 b{round} CHANGED 1 RETRY 100\nB GBP TEST 0\n"
        )?;
        lines.push_str(&line)?;
    }
    lines.push_str(REBUILT)?;
    Ok(lines)
}

#[test]
fn a_run_in_a_rebuild(rt: HostRuntime) -> Result<(), Fail> {
    let lines = rebuilt_meanwhile(rt.alloc())?;
    assert!(rt; is_judged(&rt, rt.alloc(), POLICY, &lines)?);
    Ok(())
}

/// The policy of a load's script, and its connectors.
const LOADED: &str = "FACILITY CF1 1000\n\
    STRUCTURE LOADCACHE CACHE 256 256 4 64 DELETE\n\
    PREF LOADCACHE CF1 512\n\
    CONNECTOR A\nCONNECTOR B\nCONNECTOR C\nCONNECTOR D\n";

/// How many lines each of its connectors has.
const LOADED_LINES: u32 = 1_000;

// The number behind x in a load's script.
fn next_number(x: u64) -> u64 {
    x.wrapping_mul(1_103_515_245).wrapping_add(12_345) % 2_147_483_648
}

// The lines of the script that a load's number makes.
fn loaded(alloc: Global, number: u64) -> Result<String, AllocError> {
    let mut x = number % 2_147_483_648;
    let mut lines = String::new(alloc);
    for who in ["A", "B", "C", "D"] {
        let connect = format!(in alloc; "{who} LOADCACHE CONNECT DELETE\n")?;
        lines.push_str(&connect)?;
        for line in 1..=LOADED_LINES {
            x = next_number(x);
            let page = x / 65_536 % 64;
            let text = match line % 4 {
                0 => format!(in alloc; "{who} LOADCACHE TEST {page}\n")?,
                1 => format!(in alloc;
                    "{who} LOADCACHE WRITE N{page} {page} {who}{line} CHANGED 1\n"
                )?,
                _ => format!(in alloc; "{who} LOADCACHE READ N{page} {page}\n")?,
            };
            lines.push_str(&text)?;
        }
    }
    Ok(lines)
}

#[test]
fn the_script_of_a_load(rt: HostRuntime) -> Result<(), Fail> {
    let lines = loaded(rt.alloc(), 7)?;
    assert!(rt; is_judged(&rt, rt.alloc(), LOADED, &lines)?);
    Ok(())
}

// A connector for each place there is, whose only lines are its CONNECT and its test.
fn all_test(alloc: Global) -> Result<String, AllocError> {
    let mut lines = String::new(alloc);
    for member in 1..=MEMBERS {
        let line = format!(in alloc;
            "C{member} GBP CONNECT DELETE\nC{member} GBP READ P1 0\nC{member} GBP TEST 0\n"
        )?;
        lines.push_str(&line)?;
    }
    Ok(lines)
}

#[test]
fn sixty_four_readers(rt: HostRuntime) -> Result<(), Fail> {
    let policy = policy_of(rt.alloc(), MEMBERS)?;
    let lines = all_test(rt.alloc())?;
    assert!(rt; is_judged(&rt, rt.alloc(), &policy, &lines)?);
    Ok(())
}
