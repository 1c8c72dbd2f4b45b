//! Runs of the program in memory.
ghost use Rattle.std.specs.Prelude.{◌<◌};

use super::gates::{Hold, Turns};
use plex_run::links::ListLink;
use plex_run::run;
use plex_run::sources::{MemSink, MemSource};
use plex_run::types::limits::LINKS;
use std::alloc::{AllocError, Global};
use std::sync::Wait;
use std::thread::Threads;

/// How many bytes a report can have here.
const ROOM: usize = 1 << 22;

/// How many bytes one write takes at most.
const PIECE: usize = 1 << 16;

/// A source of a policy and lines behind it, which fails at these reads.
pub(super) fn source_of(
    alloc: Global,
    policy: &str,
    lines: &str,
    fails: &[u64],
) -> Result<MemSource, AllocError> {
    let mut bytes = Vec::from_slice(alloc, policy.as_bytes())?;
    bytes.extend_from_slice(lines.as_bytes())?;
    Ok(MemSource {
        bytes,
        taken: 0,
        calls: 0,
        fails: Vec::from_slice(alloc, fails)?,
        faults: 0,
    })
}

/// A sink that takes so many bytes at once, and fails at these writes.
pub(super) fn sink_of(alloc: Global, piece: usize, fails: &[u64]) -> Result<MemSink, AllocError>
    requires { 0 < piece }
{
    match MemSink::new(alloc, ROOM, piece, Vec::from_slice(alloc, fails)?) {
        Ok(sink) => Ok(sink),
        Err(_) => Err(AllocError),
    }
}

// The words of a command line.
fn words_of(alloc: Global, line: &str) -> Result<Vec<String>, AllocError> {
    let mut words = Vec::new(alloc);
    for word in line.split_whitespace() {
        words.push(String::from_str(alloc, word)?)?;
    }
    Ok(words)
}

// A link that is down at these calls.
fn link(alloc: Global, fails: &[u64]) -> Result<ListLink, AllocError> {
    Ok(ListLink {
        calls: 0,
        fails: Vec::from_slice(alloc, fails)?,
        faults: 0,
    })
}

/// The links to CF1 and CF2 of the first structure are down at these calls, the others never.
pub(super) fn links_of(
    alloc: Global,
    one: &[u64],
    two: &[u64],
) -> Result<Vec<ListLink>, AllocError> {
    let mut links = Vec::new(alloc);
    links.push(link(alloc, one)?)?;
    links.push(link(alloc, two)?)?;
    for _ in 2..LINKS {
        links.push(link(alloc, &[])?)?;
    }
    Ok(links)
}

// The status of a run by these words.
fn run_over<R: Threads + Wait + Sync>(
    rt: &R,
    alloc: Global,
    words: &str,
    source: &mut MemSource,
    sink: &mut MemSink,
    links: &mut Vec<ListLink>,
    gate: &Turns<'_>,
) -> Result<u8, AllocError> {
    let words = words_of(alloc, words)?;
    if links.len() != LINKS {
        return Ok(u8::MAX);
    }
    Ok(run(rt, alloc, &words, source, sink, links, gate))
}

/// The status of a run by these words, over links that are never down.
pub(super) fn run_into<R: Threads + Wait + Sync>(
    rt: &R,
    alloc: Global,
    words: &str,
    source: &mut MemSource,
    sink: &mut MemSink,
) -> Result<u8, AllocError> {
    let mut links = links_of(alloc, &[], &[])?;
    run_over(rt, alloc, words, source, sink, &mut links, &Turns::new(&[]))
}

/// The words that the program is given, and its script: a policy, and lines behind it.
#[derive(Clone, Copy)]
pub(super) struct Given<'a> {
    pub(super) words: &'a str,
    pub(super) policy: &'a str,
    pub(super) lines: &'a str,
}

/// What a run left: its status, or `u8::MAX` where a line waited in vain; what it wrote, and in how
/// many writes; how many lines came to the gate; and its links.
#[derive(Drop)]
pub(super) struct Ran {
    pub(super) status: u8,
    pub(super) text: String,
    pub(super) writes: u64,
    pub(super) gated: u64,
    links: Vec<ListLink>,
}

// The text that was written.
fn text_of(alloc: Global, sink: MemSink) -> String {
    match String::from_utf8(sink.bytes) {
        Ok(text) => text,
        Err(_) => String::new(alloc),
    }
}

impl<'a> Given<'a> {
    /// The run over these links, where lines wait so.
    pub(super) fn ran_over<R: Threads + Wait + Sync>(
        self,
        rt: &R,
        alloc: Global,
        mut links: Vec<ListLink>,
        holds: &[Hold],
    ) -> Result<Ran, AllocError> {
        let gate = Turns::new(holds);
        let mut source = source_of(alloc, self.policy, self.lines, &[])?;
        let mut sink = sink_of(alloc, PIECE, &[])?;
        let status = run_over(
            rt,
            alloc,
            self.words,
            &mut source,
            &mut sink,
            &mut links,
            &gate,
        )?;
        Ok(Ran {
            status: if gate.is_kept() { status } else { u8::MAX },
            writes: sink.calls,
            gated: gate.lines(),
            text: text_of(alloc, sink),
            links,
        })
    }

    /// The run over links that are never down, where lines wait so.
    pub(super) fn ran<R: Threads + Wait + Sync>(
        self,
        rt: &R,
        alloc: Global,
        holds: &[Hold],
    ) -> Result<Ran, AllocError> {
        self.ran_over(rt, alloc, links_of(alloc, &[], &[])?, holds)
    }

    /// Whether the run ends with this status, and has written this.
    pub(super) fn ends<R: Threads + Wait + Sync>(
        self,
        rt: &R,
        alloc: Global,
        status: u8,
        text: &str,
    ) -> Result<bool, AllocError> {
        let ran = self.ran(rt, alloc, &[])?;
        Ok(ran.status == status && ran.text.as_str() == text)
    }
}

impl Ran {
    /// The report shows this.
    pub(super) fn shows(&self, part: &str) -> bool {
        self.status == 0 && self.text.contains(part)
    }

    /// The report has this behind the policy.
    pub(super) fn tells(&self, policy: &str, rest: &str) -> bool {
        self.status == 0 && self.text.strip_prefix(policy) == Some(rest)
    }

    /// So often were the links of the first structure to CF1 and CF2 asked, and so often down.
    pub(super) fn asked(&self, one: (u64, u64), two: (u64, u64)) -> bool {
        self.was_asked(0, one) && self.was_asked(1, two)
    }

    fn was_asked(&self, at: usize, wanted: (u64, u64)) -> bool {
        match self.links.get(at) {
            Some(link) => link.calls == wanted.0 && link.faults == wanted.1,
            None => false,
        }
    }
}
