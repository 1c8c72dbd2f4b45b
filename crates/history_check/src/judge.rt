ghost use Rattle.std.specs.Prelude.{◌≡◌, ◌<◌, IfOk, IsTrue, All, length};
ghost use Rattle.vector_waits.specs.Waits.{AreSettled};
ghost use Rattle.history_check.specs.Queues.{HasTestsOf, IsRising, Pairs};
ghost use Rattle.history_check.specs.declared.judged.Judged.TheVariants as judged;
ghost use Rattle.cf_types.specs.Forms.{IsForm};
ghost use Rattle.engine_api.specs.Machine.{opening};
ghost use Rattle.history_check.specs.Judging.{IsAskable, IsJudged};

use crate::blocks::{at_end, next_block};
use crate::judged::Judged;
use crate::queues::start as start_queues;
use call_same::Same;
use cf_types::{NoMemory, StrForm};
use engine_api::{Engine, Entry};
use std::alloc::Global;
use struct_machine::links::{Links, Steady};
use struct_machine::shells::copy_form;
use struct_machine::{Changed, Machine};
use vector_waits::Queue;

/// Judges the history of a structure of this form: replays its calls, each behind the marks before
/// it, with a machine whose links are never down, takes each mark at its word where the call may
/// have it, and compares numbers and replies. On the way it asks the tests of each caller, which
/// stand in the order of their numbers: where the history is legal, those are told that show what
/// stood.
///
/// # Errors
///
/// Want of memory. The tests are those of before, and nothing is said of which are told.
pub fn judge_history<E: Engine>(
    alloc: Global,
    form: &StrForm,
    entries: &[Entry<E::Cmd, E::Reply>],
    queues: &mut [Queue],
) -> Result<Judged, NoMemory>
where
    E::Reply: Same,
    requires formed { IsForm form.now }
    requires kind { IsTrue (E.is_kind form.now.kind) }
    requires askable { All IsAskable entries.now }
    requires room { length entries.now < 18446744073709551613 }
    requires rising { All IsRising queues.old }
    ensures judged { IfOk result (IsJudged E.meaning form.now entries.now) }
    ensures told { IfOk result (λ found. found ≡ judged.Legal
        → All (AreSettled E.meaning form.now entries.now) queues.new) }
    ensures same { Pairs HasTestsOf queues.old queues.new }
{
    let mut machine = bare_machine::<E>(alloc, form)?;
    judge_all(alloc, &mut machine, entries, queues)
}

// The structure's machine before the first call.
fn bare_machine<E: Engine>(alloc: Global, form: &StrForm) -> Result<Machine<E, Steady>, NoMemory>
    requires formed { IsForm form.now }
    requires kind { IsTrue (E.is_kind form.now.kind) }
    ensures form { IfOk result (λ machine. machine.form ≡ form.now) }
    ensures machine { IfOk result (λ machine. machine.machine ≡ opening E.meaning form.now) }
{
    let form = copy_form(alloc, form)?;
    let links = Links {
        one: Steady,
        two: Steady,
        three: Steady,
        four: Steady,
    };
    match Machine::start(alloc, form, 0, links) {
        Ok(machine) => Ok(machine),
        Err((_, cause)) => Err(cause),
    }
}

// Judges all entries, with a machine before the first call.
fn judge_all<E: Engine>(
    alloc: Global,
    machine: &mut Machine<E, Steady>,
    entries: &[Entry<E::Cmd, E::Reply>],
    queues: &mut [Queue],
) -> Result<Judged, NoMemory>
where
    E::Reply: Same,
    requires opening { machine.old.machine ≡ opening E.meaning machine.old.form }
    requires askable { All IsAskable entries.now }
    requires room { length entries.now < 18446744073709551613 }
    requires rising { All IsRising queues.old }
    ensures form { machine.new.form ≡ machine.old.form }
    ensures judged { IfOk result (IsJudged E.meaning machine.old.form entries.now) }
    ensures told { IfOk result (λ found. found ≡ judged.Legal
        → All (AreSettled E.meaning machine.old.form entries.now) queues.new) }
    ensures same { Pairs HasTestsOf queues.old queues.new }
{
    start_queues(machine, queues);
    let mut changed = Changed::none(alloc);
    let mut start = 0;
    for now in 0..entries.len() {
        match next_block(alloc, machine, &mut changed, entries, start, now, queues)? {
            Some(next) => start = next,
            None => return Ok(Judged::Bad { place: start + 1 }),
        }
    }
    Ok(at_end(start, entries.len()))
}
