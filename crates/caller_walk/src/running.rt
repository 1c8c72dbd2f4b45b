//! One work of a caller.
ghost use Rattle.std.specs.Prelude.{◌≡◌, ◌<◌, ◌*◌, nat_lt, true, false, if◌then◌else◌, Some, length};
ghost use Rattle.std.specs.Option.{option_copied};
ghost use Rattle.caller_slots.specs.RunShown.Kinds.{IsOfKind};
ghost use Rattle.caller_slots.specs.Slots.{act_ran, is_rest};
ghost use Rattle.caller_walk.specs.declared.counts.Due.TheVariants as due;
ghost use Rattle.caller_walk.specs.Counts.{count_one};
ghost use Rattle.caller_walk.specs.Running.{IsCalled, IsDone, leave_ran, place_of, run_from};

use crate::counts::{Count, Due};
use crate::heard::next_heard;
use crate::spots::Spot;
use caller_slots::shown::scripts::types::{ConnId, Kind, StrForm, StrNo};
use caller_slots::shown::scripts::{Act, AnyAsk, AnyHistory, Line, Shown, Step, closing_ask};

// Whether nothing more is asked.
fn is_rest(now: Step) -> bool
    ensures { result ≡ is_rest now }
{
    match now {
        Step::Call { .. } | Step::Next { .. } | Step::Respond { .. } => false,
        Step::Rest => true,
    }
}

// The call of a step, which is due, and the step behind it. None where the call is lacking or asks
// something else.
#[tactic(auto, using(crate::proofs::RunLaws::heard_none, crate::proofs::RunLaws::heard_other, crate::proofs::RunLaws::heard_one))]
fn one_call(
    history: &AnyHistory,
    kind: Kind,
    conn: ConnId,
    on: StrNo,
    line: Option<&AnyAsk>,
    now: Step,
    items: &[Shown],
    spot: &mut Spot,
    count: &mut Count,
) -> Option<Step>
    requires kind { IsOfKind kind history.now }
    requires goes { is_rest now ≡ false }
    ensures { IsCalled kind (option_copied line.entry) on now items.now
        (place_of conn history.now spot.old) (place_of conn history.now spot.new)
        count.old count.new result }
{
    let Some(heard) = next_heard(history, kind, conn, spot.next, now, line) else {
        return None;
    };
    if !heard.as_asked {
        return None;
    }
    let told = heard.told;
    count.take(items, Due::Call { on, no: told.no });
    *spot = Spot {
        linked: told.linked.unwrap_or(spot.linked),
        next: heard.next,
    };
    Some(now.after(&told))
}

// The calls of a work, from its first step on. False where one is lacking or asks something else.
fn run(
    history: &AnyHistory,
    kind: Kind,
    conn: ConnId,
    on: StrNo,
    line: Option<&AnyAsk>,
    first: Step,
    items: &[Shown],
    spot: &mut Spot,
    count: &mut Count,
) -> bool
    requires kind { IsOfKind kind history.now }
    ensures { IsDone items.now
        (run_from kind (option_copied line.entry) on first (place_of conn history.now spot.old))
        count.old count.new (place_of conn history.now spot.new) result }
{
    let mut now = first;
    while !is_rest(now) {
        let Some(next) = one_call(history, kind, conn, on, line, now, items, spot, count) else {
            return false;
        };
        now = next;
    }
    true
}

// What is due of a test of an index, in a vector of so many bits.
fn test_due(on: StrNo, index: u32, len: u32) -> Due
    ensures { result ≡ (if nat_lt index len then due.Test on index
        else due.Outside on index false len) }
{
    if index < len {
        Due::Test { on, index }
    } else {
        Due::Outside {
            on,
            index,
            word: false,
            len,
        }
    }
}

// The same of a test of a word.
fn word_due(on: StrNo, word: u32, len: u32) -> Due
    ensures { result ≡ (if nat_lt (32 * word) len then due.Word on word
        else due.Outside on word true len) }
{
    if 32 * u64::from(word) < u64::from(len) {
        Due::Word { on, word }
    } else {
        Due::Outside {
            on,
            index: word,
            word: true,
            len,
        }
    }
}

// One item is due.
fn one(items: &[Shown], count: &mut Count, due: Due) -> bool
    ensures count { count.new ≡ count_one items.now count.old due }
    ensures done { result ≡ true }
{
    count.take(items, due);
    true
}

/// Does a line. False where a call is lacking or asks something else.
#[tactic(auto, using(crate::proofs::RunLaws::one_through, crate::proofs::RunLaws::test_through, crate::proofs::RunLaws::word_through))]
pub(crate) fn act(
    history: &AnyHistory,
    form: &StrForm,
    conn: ConnId,
    line: &Line,
    items: &[Shown],
    spot: &mut Spot,
    count: &mut Count,
) -> bool
    requires kind { IsOfKind form.now.kind history.now }
    ensures { IsDone items.now (act_ran form.now line.now.on line.now.retry line.now.act
        (place_of conn history.now spot.old))
        count.old count.new (place_of conn history.now spot.new) result }
{
    let on = line.on;
    match &line.act {
        Act::Call(ask) => {
            let first = Step::Call { asks: line.retry };
            run(
                history,
                form.kind,
                conn,
                on,
                Some(ask),
                first,
                items,
                spot,
                count,
            )
        }
        Act::Events => {
            let first = Step::first(&line.act, line.retry);
            run(
                history, form.kind, conn, on, None, first, items, spot, count,
            )
        }
        Act::Test(index) => one(items, count, test_due(on, *index, form.vector)),
        Act::TestWord(word) => one(items, count, word_due(on, *word, form.vector)),
        Act::Post => one(items, count, Due::Posted { on }),
        Act::Take => one(items, count, Due::Took { on }),
    }
}

/// Departs from a structure at which the caller is active. False as for a line.
#[tactic(auto, using(crate::proofs::RunLaws::leaves_not, crate::proofs::RunLaws::leaves_so))]
pub(crate) fn leave(
    history: &AnyHistory,
    kind: Kind,
    conn: ConnId,
    on: StrNo,
    items: &[Shown],
    spot: &mut Spot,
    count: &mut Count,
) -> bool
    requires kind { IsOfKind kind history.now }
    ensures { IsDone items.now (leave_ran kind on (place_of conn history.now spot.old))
        count.old count.new (place_of conn history.now spot.new) result }
{
    if !spot.linked {
        return true;
    }
    let ask = closing_ask(kind);
    let first = Step::Call { asks: 0 };
    run(
        history,
        kind,
        conn,
        on,
        Some(&ask),
        first,
        items,
        spot,
        count,
    )
}
