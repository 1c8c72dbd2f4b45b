ghost use Rattle.std.specs.Prelude.{◌≡◌, ◌+◌, ◌<◌, ◌≤◌, IfOk, IfSome, All, None, length, take, true};
ghost use Rattle.engine_api.specs.Asking.{MayAsk};
ghost use Rattle.engine_api.specs.declared.asks.What.TheVariants as what;
ghost use Rattle.block_judge.specs.Fits.{IsBlockJudged};
ghost use Rattle.block_laws.specs.Blocks.{IsBadBlock};
ghost use Rattle.vector_waits.specs.Waits.{IsQueue};
ghost use Rattle.history_check.specs.Judging.{IsAskable, IsAt, end_judged};
ghost use Rattle.history_check.specs.Queues.{HasTestsOf, IsAsked, IsToldAt, Pairs};

use crate::judged::Judged;
use crate::queues::{ask_before, ask_behind};
use block_judge::block_fits;
use call_same::Same;
use cf_types::NoMemory;
use engine_api::{Ask, Engine, Entry, What};
use std::alloc::Global;
use struct_machine::links::Steady;
use struct_machine::{Changed, Machine};
use vector_waits::Queue;

// A block behind so many entries, and the tests at the number of its call: what stands before the
// block and behind it.
fn block_told<E: Engine>(
    alloc: Global,
    machine: &mut Machine<E, Steady>,
    changed: &mut Changed,
    count: usize,
    marks: &[Entry<E::Cmd, E::Reply>],
    entry: &Entry<E::Cmd, E::Reply>,
    ask: &Ask<E::Cmd>,
    queues: &mut [Queue],
    number: usize,
) -> Result<bool, NoMemory>
where
    E::Reply: Same,
    requires may { MayAsk entry.now.by ask.now }
    requires asks { entry.now.what ≡ what.Call ask.now }
    requires room { count < 18446744073709551613 }
    requires queues { All (IsQueue number) queues.old }
    ensures form { machine.new.form ≡ machine.old.form }
    ensures judged { IfOk result (IsBlockJudged E.meaning machine.old.form machine.old.machine
        machine.new.machine count marks.now entry.now ask.now) }
    ensures told { IfOk result (λ fits. fits ≡ true → Pairs (IsToldAt E.meaning
        machine.old.machine machine.new.machine number) queues.old queues.new) }
    ensures same { Pairs HasTestsOf queues.old queues.new }
{
    ask_before(machine, queues, number);
    if !block_fits(alloc, machine, changed, count, marks, entry, ask)? {
        return Ok(false);
    }
    ask_behind(machine, queues, number);
    Ok(true)
}

/// One entry more: a mark is of the block that began, and a call ends it. Where the next block
/// begins, if the history is legal up to there; and the tests up to there are settled.
pub(crate) fn next_block<E: Engine>(
    alloc: Global,
    machine: &mut Machine<E, Steady>,
    changed: &mut Changed,
    entries: &[Entry<E::Cmd, E::Reply>],
    start: usize,
    now: usize,
    queues: &mut [Queue],
) -> Result<Option<usize>, NoMemory>
where
    E::Reply: Same,
    requires askable { All IsAskable entries.now }
    requires room { length entries.now < 18446744073709551613 }
    requires more { now < length entries.now }
    requires at { IsAt E.meaning machine.old.form machine.old.machine entries.now start now }
    requires asked { All (IsAsked E.meaning machine.old.form (take start entries.now))
        queues.old }
    ensures form { machine.new.form ≡ machine.old.form }
    ensures at { IfOk result (λ found. IfSome found (λ next. IsAt E.meaning machine.new.form
        machine.new.machine entries.now next (now + 1))) }
    ensures bad { IfOk result (λ found. found ≡ None
        → IsBadBlock E.meaning machine.new.form entries.now (start + 1)) }
    ensures asked { IfOk result (λ found. IfSome found (λ next. All (IsAsked E.meaning
        machine.new.form (take next entries.now)) queues.new)) }
    ensures same { Pairs HasTestsOf queues.old queues.new }
{
    let entry = &entries[now];
    match &entry.what {
        What::Lost(_) => Ok(Some(start)),
        What::Call(ask) => {
            let marks = &entries[start..now];
            let fits = block_told(
                alloc,
                machine,
                changed,
                start,
                marks,
                entry,
                ask,
                queues,
                now + 1,
            )?;
            if !fits {
                return Ok(None);
            }
            Ok(Some(now + 1))
        }
    }
}

/// At the end of a history, where its last block began: marks that no call follows are bad.
pub(crate) fn at_end(start: usize, count: usize) -> Judged
    requires { start < 18446744073709551613 }
    ensures { result ≡ end_judged start count }
{
    if start == count {
        Judged::Legal
    } else {
        Judged::Bad { place: start + 1 }
    }
}
