//! Counts of what was done in a run.

ghost use Rattle.std.specs.Prelude.{◌≡◌, ◌+◌, length, count_by, sum_by, IfOk};
ghost use Rattle.plex_script.specs.Heard.{any_calls, any_length, own_calls};
ghost use Rattle.plex_load.specs.Counts.{is_call_by};
ghost use Rattle.plex_load.specs.Summary.{calls_by, is_refusal, is_test, tests_of, refusals, refusals_of};

use plex_script::api::{Entry, Reply, What};
use plex_script::types::{ConnId, NoMemory};
use plex_script::{AnyHistory, Shown, Transcript};

// Two counts together.
fn added(count: usize, more: usize) -> Result<usize, NoMemory>
    ensures { IfOk result (λ sum. sum ≡ count + more) }
{
    // No memory holds what is counted past this.
    count.checked_add(more).ok_or(NoMemory::beyond_counts())
}

// The calls of a connector among entries.
fn count_calls<C, R>(entries: &[Entry<C, R>], conn: ConnId) -> usize
    ensures { result ≡ count_by (is_call_by conn) entries.now }
{
    entries
        .iter()
        .filter(|entry| entry.by == conn && matches!(entry.what, What::Call(_)))
        .count()
}

// The calls of a connector in a history.
#[tactic(auto, using(crate::proofs::CallLaws::counted_cache, crate::proofs::CallLaws::counted_list, crate::proofs::CallLaws::counted_lock))]
fn calls_of(history: &AnyHistory, conn: ConnId) -> usize
    ensures { result ≡ length (own_calls (any_calls history.now) conn) }
{
    match history {
        AnyHistory::Cache(history) => count_calls(history.entries(), conn),
        AnyHistory::List(history) => count_calls(history.entries(), conn),
        AnyHistory::Lock(history) => count_calls(history.entries(), conn),
    }
}

/// The calls of a connector in histories.
pub(crate) fn calls_by(histories: &[AnyHistory], conn: ConnId) -> Result<usize, NoMemory>
    ensures { IfOk result (λ count. count ≡ calls_by conn histories.now) }
{
    let mut count = 0;
    for history in histories {
        count = added(count, calls_of(history, conn))?;
    }
    Ok(count)
}

// The tests of bits that a transcript shows.
fn tests_of(transcript: &Transcript) -> usize
    ensures { result ≡ tests_of transcript.now }
{
    let items = transcript.items.items();
    items
        .iter()
        .filter(|item| matches!(item, Shown::Test { .. }))
        .count()
}

/// The tests of bits that transcripts show.
pub(crate) fn tests(transcripts: &[Transcript]) -> Result<usize, NoMemory>
    ensures { IfOk result (λ count. count ≡ sum_by tests_of transcripts.now) }
{
    let mut count = 0;
    for transcript in transcripts {
        count = added(count, tests_of(transcript))?;
    }
    Ok(count)
}

// The entries of a history.
fn entries_of(history: &AnyHistory) -> usize
    ensures { result ≡ any_length history.now }
{
    match history {
        AnyHistory::Cache(history) => history.entries().len(),
        AnyHistory::List(history) => history.entries().len(),
        AnyHistory::Lock(history) => history.entries().len(),
    }
}

/// The entries of histories.
pub(crate) fn entries(histories: &[AnyHistory]) -> Result<usize, NoMemory>
    ensures { IfOk result (λ count. count ≡ sum_by any_length histories.now) }
{
    let mut count = 0;
    for history in histories {
        count = added(count, entries_of(history))?;
    }
    Ok(count)
}

// The entries whose call was refused.
fn refusals<C, R>(entries: &[Entry<C, R>]) -> usize
    ensures { result ≡ refusals entries.now }
{
    entries
        .iter()
        .filter(|entry| matches!(entry.reply, Reply::Refused(_)))
        .count()
}

// The entries of a history whose call was refused.
fn refusals_of(history: &AnyHistory) -> usize
    ensures { result ≡ refusals_of history.now }
{
    match history {
        AnyHistory::Cache(history) => refusals(history.entries()),
        AnyHistory::List(history) => refusals(history.entries()),
        AnyHistory::Lock(history) => refusals(history.entries()),
    }
}

/// The entries of histories whose call was refused.
pub(crate) fn refused(histories: &[AnyHistory]) -> Result<usize, NoMemory>
    ensures { IfOk result (λ count. count ≡ sum_by refusals_of histories.now) }
{
    let mut count = 0;
    for history in histories {
        count = added(count, refusals_of(history))?;
    }
    Ok(count)
}
