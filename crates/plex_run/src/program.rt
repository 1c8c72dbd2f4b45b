//! The program's one call.
ghost use Rattle.std.specs.Prelude.{◌≡◌, ◌⊎◌, ◌↔◌, ℕ, ◌≤◌, ◌<◌, length, IfSome};
ghost use Rattle.std.specs.Io.KnownBytes.{IsAtEnd};
ghost use Rattle.std.specs.Vec.{vec_len};
ghost use Rattle.plex_load.specs.CfTypes.declared.limits.TheConstants.{LINKS};
ghost use Rattle.plex_agent.specs.CfIo.Count.{Rises};
ghost use Rattle.plex_run.specs.declared.way.Way.{Way};
ghost use Rattle.plex_run.specs.declared.way.Work.{Work};
ghost use Rattle.plex_run.specs.declared.way.Work.TheVariants as works;
ghost use Rattle.plex_run.specs.Wires.{wires};
ghost use Rattle.plex_run.specs.StatusLines.{script_line, memory_line};
ghost use Rattle.plex_run.specs.Written.{output, HasFailed, Gains};
ghost use Rattle.plex_run.specs.Words.{Say};
ghost use Rattle.plex_run.specs.Outcome.{IsStatus, status_line, script_limit, EndsWith, EndsRight};
ghost use Rattle.plex_run.specs.Statuses.{OfText};
ghost use Rattle.plex_run.specs.Loading.{EndsLoad};
ghost use Rattle.plex_run.specs.Locks.{EndsLocks};
ghost use Rattle.plex_run.specs.Checking.{EndsCheck};

use crate::checking::checked_in;
use crate::loading::loaded;
use crate::locks::locked_in;
use crate::running::reported;
use crate::status_lines::{script_line, why_text};
use crate::way::{Way, Work, work_of};
use crate::writing::{say, say_no_memory, say_unread, script_too_long};
use plex_agent::Gate;
use plex_agent::links::Link;
use plex_agent::sources::{Sink, Source, read_all};
use plex_load::scripts::{ReadFault, never_both, one_script, read, well_formed};
use run_laws::{only_reading, valid_is_fresh, within_script};
use std::alloc::Global;
use std::sync::Wait;
use std::thread::Threads;

/// The greatest length of a script, in bytes.
pub(crate) const SCRIPT_LIMIT: usize = 1_048_576;

/// A journal with so many entries takes no call.
pub(crate) const JOURNAL_LIMIT: u32 = 65_536;

/// Tells the line for which a text is refused, and why.
pub(crate) fn refused<K: Sink>(alloc: Global, line: u32, why: &[u8], sink: &mut K) -> u8
    ensures refused { result ≡ 3 → Gains (output K.held K.faults sink.old sink.new)
        (script_line line why.now) }
    ensures no_memory { result ≡ 6 → Gains (output K.held K.faults sink.old sink.new)
        memory_line }
    ensures statuses { (result ≡ 3) ⊎ (result ≡ 6) }
    ensures faults { K.faults sink.old ≤ K.faults sink.new }
{
    match script_line(alloc, line, why) {
        Ok(text) => {
            say(sink, &text);
            3
        }
        Err(cause) => {
            say_no_memory(cause, sink);
            6
        }
    }
}

// Reads a script out of a text, runs it, and writes the report.
fn judged<R: Threads + Wait + Sync, K: Sink, L: Link, G: Gate>(
    rt: &R,
    alloc: Global,
    way: Way,
    text: &[u8],
    sink: &mut K,
    links: &mut Vec<L>,
    gate: &G,
) -> u8
    requires text { length text.now ≤ script_limit }
    requires links { vec_len links.old ≡ LINKS }
    ensures ends { EndsRight (wires L.calls L.downs L.faults links.old.items links.new.items)
        way text.now (output K.held K.faults sink.old sink.new) result }
    ensures write_fault { result ≡ 5 → HasFailed (output K.held K.faults sink.old sink.new) }
    ensures no_memory { result ≡ 6 → EndsWith (output K.held K.faults sink.old sink.new)
        memory_line }
    ensures statuses { (result ≡ 0) ⊎ ((result ≡ 8) ⊎ ((result ≡ 5)
        ⊎ ((result ≡ 6) ⊎ (result ≡ 3)))) }
    ensures faults { K.faults sink.old ≤ K.faults sink.new }
    ensures count { length links.new.items ≡ length links.old.items }
    ensures unread { result ≡ 3 → links.new.items ≡ links.old.items }
{
    one_script();
    never_both();
    let script = match read(alloc, text) {
        Ok(script) => script,
        Err(ReadFault::Script { line, why }) => return refused(alloc, line, why_text(why), sink),
        Err(ReadFault::NoMemory(cause)) => {
            say_no_memory(cause, sink);
            return 6;
        }
    };
    well_formed(text, &script);
    valid_is_fresh();
    within_script();
    only_reading();
    reported(rt, alloc, way, &script, sink, links, gate)
}

/// Runs the program: `words` are its words, the script comes from `source`, and what it says goes
/// to `sink`. The answer is the exit status. There are 64 links: structure `s` of the script, from
/// 0, and facility `f`, from 1, use link `4 * s + f - 1`.
///
/// With the one word `serial` the script's lines are done one after another, and its report is
/// always the same. With `threads` each caller's lines are done on a thread of its own, where one
/// can be made; the order in which the calls of several callers come to a structure, and so the
/// report, may then differ from run to run. The gate is told of each line on threads, before and
/// after it.
///
/// With the two words `load` and N, a number from 0 to 4294967295 as scripts spell numbers, nothing
/// is read: the script that N makes (`plex_load::make`) is run on threads, and a summary of its run
/// (`plex_load::summary`) is written in place of a report. No journal gets full by it.
///
/// With the one word `locks` a script's lock requests are done in lock words, each connector's on a
/// thread of its own, where one can be made (`plex_locks::locked`), and what became of them is
/// written (`plex_locks::locks_text`). The script has one lock structure at most, and all of its
/// callers' lines obtain or release locks, without record data and without RETRY. The gate is told
/// of each line.
///
/// With the one word `check` a printed report is checked: the text is a script, a line that is exactly
/// `REPORT`, the first such, and the report. What it says is judged by the script alone
/// (`plex_check::check`), and nothing is run.
///
/// | Status | Comes | Written to the sink |
/// |---|---|---|
/// | 0 | the script was read and run whole, and the report written whole; or the load was run, and its summary written whole; or the locks were done, and what became of them written whole; or the report that came keeps what reports promise, and that was written whole | the report; the summary; what became of the locks; `YES n`, with the number of all entries |
/// | 2 | the words are none of these forms | `USAGE plexrun serial or threads or load N or locks or check` |
/// | 3 | the text is no script, or lock words can't do all of it, or it has no line `REPORT` | `SCRIPT line why` |
/// | 4 | a read failed | `FAULT READ` |
/// | 5 | a write failed while what belongs to 0 was written | a front of it |
/// | 6 | there was no memory | `NOMEMORY`, alone or behind a front of what belongs to 0 or 8 |
/// | 7 | more than 1,048,576 bytes came as a script, or, with `check`, more than 16,777,216 in all | `TOOLONG 1048576`, `TOOLONG 16777216` |
/// | 8 | a call came to a journal of 65,536 entries or more | `JOURNALFULL structure 65536`, and the report: whole unless a write failed |
/// | 9 | the report that came isn't what a report promises | `NO TEXT line`, `NO structure entry`, or `NO TRANSCRIPT caller item` |
///
/// With 3 the line is the first faulty one, and why is LATE, SYNTAX, LIMIT, UNKNOWN, TWICE or
/// SPACE; or else, with `locks`, the first that lock words can't do, and NOTWORDS. With 8 the
/// structure is the first in the policy whose journal got full. Lines are counted from 1. The causes
/// are tried in the order 2, 4, 7, 3, 8, 9, 5; with `check`, 7 for a script that is too long comes
/// behind 3 for a text with no line `REPORT`, which is told as `SCRIPT 0 NOREPORT`. Want of memory
/// may stand in place of any but 2. The
/// report goes out in pieces of 32,768 bytes at most, and a longer line alone; memory is taken for
/// one piece, before anything is written, and for one line at a time. A load has 0, 5 or 6, and
/// neither locks nor a check has 8; with 6 nothing stands before their line.
pub fn run<R: Threads + Wait + Sync, S: Source, K: Sink, L: Link, G: Gate>(
    rt: &R,
    alloc: Global,
    words: &[String],
    source: &mut S,
    sink: &mut K,
    links: &mut Vec<L>,
    gate: &G,
) -> u8
    requires links { vec_len links.old ≡ LINKS }

    // With `serial` or `threads` there is a text, the bytes that the source had left where it tells
    // them, of which the status says what it is and what was written. With 0 and 8 it is a script,
    // and the report that is written shows a legal history of each structure, each caller's calls in them once and in their order, and
    // tests that tell what stood at a numbered point; where a cache's test tells VALID, the
    // connector's copy was fresh there. A history has at most as many marks of a facility as the
    // faults of that structure's link to it rose by; where the link tells its calls, they rose by as
    // many as the history has that ask it; and where it tells which are down, of those that ask it
    // exactly those have a mark. With `serial`, and links that all tell which calls are down, it is
    // the report of the run on one thread. With 0 every caller's work was done, and no other legal
    // histories, with transcripts that follow the script to their ends, have that report, whatever
    // the tests in them tell: only the width of what a test shows counts, a number of at most 64
    // bits, or a word of 32. With 8 a journal got full, which is told before the report; and the
    // script can fill it: the calls of its lines on that structure, as often as each may ask again,
    // their event rounds, and one departure of each connector, with two marks for each, come to
    // 65,536 entries or more. With 5 and 6 a front of such a report may have been written.
    //
    // Where no read failed and there was memory, the text decides which status it is: 7 where it is
    // too long, 3 where it is no script, and else 0, 5 or 8; with `serial`, and links that tell
    // which calls are down, it is 8 exactly where the run on one thread meets a full journal.
    ensures headline { (way : Way) → Say words.now (works.Script way)
        → OfText (S.left source.old) (λ text. EndsRight (wires L.calls L.downs L.faults
        links.old.items links.new.items) way text (output K.held K.faults sink.old sink.new)
        result) }

    // With `load` and a number the summary of a run of the script that it makes is written: with 0
    // whole and nothing else, and with 5 a front of it. That run is one on threads, as above, whose
    // script is what its text says, and no journal got full in it. Nothing is read.
    ensures load { (n : ℕ) → Say words.now (works.Load n) → EndsLoad (wires L.calls L.downs
        L.faults links.old.items links.new.items) n (output K.held K.faults sink.old sink.new)
        result }
    ensures load_unread { (n : ℕ) → Say words.now (works.Load n) → source.new ≡ source.old }

    // With `locks` what became of the script's locks is written: with 0 whole and nothing else, and
    // with 5 a front of it. The text that came says that script, which lock words can do whole. Each
    // connector did its lines in their order. It is told that it held a word, or didn't, exactly
    // where its own earlier outcomes say so. A word that is told to be contended, or raced for, was
    // granted to another connector; one that is contended, in the state that is told. Each word in
    // the end has the value of what the outcomes leave held, and these locks are compatible. Where
    // no read failed and there was memory, the text decides: 7 where it is too long, 3 where it is
    // no script that lock words can do whole, and else 0 or 5.
    ensures locks { Say words.now works.Locks → OfText (S.left source.old)
        (λ text. EndsLocks text (output K.held K.faults sink.old sink.new) result) }

    // With `check` the text is a script, a line that is exactly REPORT, the first such, and what
    // stands behind it. With 0 that is a report of the script, and what it prints shows a legal
    // history of each structure, each caller's calls in them once and in their order, and tests that
    // tell what stood at a numbered point; the line written tells how many entries all histories
    // have. With 9 it isn't: the line written tells the first line, from 1, up to which it begins no
    // report; or the first structure whose history isn't legal, and the first entry of the block
    // with which it breaks off; or, where all histories are legal, the first caller whose transcript
    // is wrong, and the first item after which no right one begins so. Where no read failed and there
    // was memory, the text decides: 7 where it or its script is too long, 3 where there is no such
    // line or no script before it, 9 where the report is wrong, and else 0 or 5.
    ensures check { Say words.now works.Check → OfText (S.left source.old)
        (λ text. EndsCheck text (output K.held K.faults sink.old sink.new) result) }

    // The other causes, and what is written with each.
    ensures usage { (result ≡ 2) ↔ ((work : Work) × Say words.now work → ⊥) }
    ensures read_fault { result ≡ 4 → Rises (S.faults source.old) (S.faults source.new) }
    ensures write_fault { result ≡ 5 → HasFailed (output K.held K.faults sink.old sink.new) }
    ensures no_memory { result ≡ 6 → EndsWith (output K.held K.faults sink.old sink.new)
        memory_line }
    ensures too_long { result ≡ 7 → IfSome (S.left source.old)
        (λ text. script_limit < length text) }
    ensures line { IfSome (status_line result)
        (Gains (output K.held K.faults sink.old sink.new)) }
    ensures statuses { IsStatus result }

    // A text that is judged was read to its end. With faulty words nothing is read.
    ensures at_end { (way : Way) → Say words.now (works.Script way)
        → (result ≡ 0) ⊎ ((result ≡ 3) ⊎ ((result ≡ 5) ⊎ (result ≡ 8)))
        → IsAtEnd (S.left source.new) }
    ensures locks_at_end { Say words.now works.Locks
        → (result ≡ 0) ⊎ ((result ≡ 3) ⊎ (result ≡ 5)) → IsAtEnd (S.left source.new) }
    ensures check_at_end { Say words.now works.Check
        → (result ≡ 0) ⊎ ((result ≡ 3) ⊎ ((result ≡ 5) ⊎ (result ≡ 9)))
        → IsAtEnd (S.left source.new) }
    ensures unread { result ≡ 2 → source.new ≡ source.old }

    // The counts never fall.
    ensures source_faults { S.faults source.old ≤ S.faults source.new }
    ensures sink_faults { K.faults sink.old ≤ K.faults sink.new }

    // The links are put back before it returns, in their order. They are asked in runs alone.
    ensures links { length links.new.items ≡ length links.old.items }
    ensures unasked { (result ≡ 2) ⊎ ((result ≡ 3) ⊎ ((result ≡ 4) ⊎ (result ≡ 7)))
        → links.new.items ≡ links.old.items }
    ensures locks_unasked { Say words.now works.Locks → links.new.items ≡ links.old.items }
    ensures check_unasked { Say words.now works.Check → links.new.items ≡ links.old.items }
{
    let way = match work_of(words) {
        Some(Work::Script(way)) => way,
        Some(Work::Load(n)) => return loaded(rt, alloc, n, sink, links, gate),
        Some(Work::Locks) => return locked_in(rt, alloc, source, sink, gate),
        Some(Work::Check) => return checked_in(alloc, source, sink),
        None => {
            say(
                sink,
                b"USAGE plexrun serial or threads or load N or locks or check\n",
            );
            return 2;
        }
    };
    let text = match read_all(alloc, source, SCRIPT_LIMIT) {
        Ok(text) => text,
        Err(end) => return say_unread(end, script_too_long(), sink),
    };
    judged(rt, alloc, way, &text, sink, links, gate)
}
