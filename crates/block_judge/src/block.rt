ghost use Rattle.std.specs.Prelude.{◌≡◌, ◌↔◌, ◌+◌, ◌<◌, ◌∷◌, [], IfOk, true};
ghost use Rattle.cf_types.specs.Forms.{IsFacility};
ghost use Rattle.engine_api.specs.Asking.{MayAsk};
ghost use Rattle.engine_api.specs.declared.asks.What.TheVariants as what;
ghost use Rattle.engine_api.specs.Machine.{step, loss_step};
ghost use Rattle.engine_api.specs.Shell.{stands_at as is_place};
ghost use Rattle.block_laws.specs.Steps.{CallFits, MarkFits};
ghost use Rattle.block_judge.specs.Fits.{IsBlockJudged};

use crate::judging::{call_fits, mark_fits};
use crate::marks::{facility, may_mark, may_mark_both};
use call_same::Same;
use cf_types::{CfId, NoMemory};
use engine_api::{Ask, Engine, Entry};
use std::alloc::Global;
use struct_machine::links::Steady;
use struct_machine::{Changed, Machine};

// A mark of what stands there, and the call behind it.
fn mark_and_call<E: Engine>(
    alloc: Global,
    machine: &mut Machine<E, Steady>,
    changed: &mut Changed,
    count: usize,
    mark: &Entry<E::Cmd, E::Reply>,
    cf: CfId,
    entry: &Entry<E::Cmd, E::Reply>,
    ask: &Ask<E::Cmd>,
) -> Result<bool, NoMemory>
where
    E::Reply: Same,
    requires may { MayAsk entry.now.by ask.now }
    requires room { count < 18446744073709551614 }
    requires facility { IsFacility cf }
    requires there { is_place machine.old.machine.shell cf ≡ true }
    ensures form { machine.new.form ≡ machine.old.form }
    ensures fits { IfOk result (λ fits. (fits ≡ true) ↔ (MarkFits E.meaning machine.old.form
        machine.old.machine count mark.now cf × CallFits E.meaning machine.old.form
        (loss_step E.meaning machine.old.form machine.old.machine cf).machine (count + 1)
        entry.now ask.now)) }
    ensures left { IfOk result (λ fits. fits ≡ true → machine.new.machine
        ≡ (step E.meaning machine.old.form (loss_step E.meaning machine.old.form
        machine.old.machine cf).machine entry.now.by ask.now).machine) }
{
    if !mark_fits(machine, count, mark, cf)? {
        return Ok(false);
    }
    call_fits(alloc, machine, changed, count + 1, entry, ask)
}

// Two marks of what stands there, the second behind the first's loss, and the call behind them.
fn marks_and_call<E: Engine>(
    alloc: Global,
    machine: &mut Machine<E, Steady>,
    changed: &mut Changed,
    count: usize,
    mark: &Entry<E::Cmd, E::Reply>,
    cf: CfId,
    other: &Entry<E::Cmd, E::Reply>,
    next: CfId,
    entry: &Entry<E::Cmd, E::Reply>,
    ask: &Ask<E::Cmd>,
) -> Result<bool, NoMemory>
where
    E::Reply: Same,
    requires may { MayAsk entry.now.by ask.now }
    requires room { count < 18446744073709551613 }
    requires facility { IsFacility cf }
    requires other { IsFacility next }
    requires there { is_place machine.old.machine.shell cf ≡ true }
    requires behind { is_place (loss_step E.meaning machine.old.form machine.old.machine
        cf).machine.shell next ≡ true }
    ensures form { machine.new.form ≡ machine.old.form }
    ensures fits { IfOk result (λ fits. (fits ≡ true) ↔ (MarkFits E.meaning machine.old.form
        machine.old.machine count mark.now cf × MarkFits E.meaning machine.old.form
        (loss_step E.meaning machine.old.form machine.old.machine cf).machine (count + 1)
        other.now next × CallFits E.meaning machine.old.form
        (loss_step E.meaning machine.old.form (loss_step E.meaning machine.old.form
        machine.old.machine cf).machine next).machine (count + 1 + 1) entry.now ask.now)) }
    ensures left { IfOk result (λ fits. fits ≡ true → machine.new.machine
        ≡ (step E.meaning machine.old.form (loss_step E.meaning machine.old.form
        (loss_step E.meaning machine.old.form machine.old.machine cf).machine
        next).machine entry.now.by ask.now).machine) }
{
    if !mark_fits(machine, count, mark, cf)? {
        return Ok(false);
    }
    mark_and_call(alloc, machine, changed, count + 1, other, next, entry, ask)
}

// A call without marks.
fn alone_fits<E: Engine>(
    alloc: Global,
    machine: &mut Machine<E, Steady>,
    changed: &mut Changed,
    count: usize,
    entry: &Entry<E::Cmd, E::Reply>,
    ask: &Ask<E::Cmd>,
) -> Result<bool, NoMemory>
where
    E::Reply: Same,
    requires may { MayAsk entry.now.by ask.now }
    requires asks { entry.now.what ≡ what.Call ask.now }
    requires room { count < 18446744073709551615 }
    ensures form { machine.new.form ≡ machine.old.form }
    ensures judged { IfOk result (IsBlockJudged E.meaning machine.old.form machine.old.machine
        machine.new.machine count [] entry.now ask.now) }
{
    call_fits(alloc, machine, changed, count, entry, ask)
}

// One mark and its call.
fn marked_fits<E: Engine>(
    alloc: Global,
    machine: &mut Machine<E, Steady>,
    changed: &mut Changed,
    count: usize,
    mark: &Entry<E::Cmd, E::Reply>,
    entry: &Entry<E::Cmd, E::Reply>,
    ask: &Ask<E::Cmd>,
) -> Result<bool, NoMemory>
where
    E::Reply: Same,
    requires may { MayAsk entry.now.by ask.now }
    requires asks { entry.now.what ≡ what.Call ask.now }
    requires room { count < 18446744073709551614 }
    ensures form { machine.new.form ≡ machine.old.form }
    ensures judged { IfOk result (IsBlockJudged E.meaning machine.old.form machine.old.machine
        machine.new.machine count (mark.now ∷ []) entry.now ask.now) }
{
    let Some(cf) = facility(mark) else {
        return Ok(false);
    };
    if !may_mark(machine.asks(entry.by, ask), cf) {
        return Ok(false);
    }
    mark_and_call(alloc, machine, changed, count, mark, cf, entry, ask)
}

// Two marks and their call.
fn twice_fits<E: Engine>(
    alloc: Global,
    machine: &mut Machine<E, Steady>,
    changed: &mut Changed,
    count: usize,
    mark: &Entry<E::Cmd, E::Reply>,
    other: &Entry<E::Cmd, E::Reply>,
    entry: &Entry<E::Cmd, E::Reply>,
    ask: &Ask<E::Cmd>,
) -> Result<bool, NoMemory>
where
    E::Reply: Same,
    requires may { MayAsk entry.now.by ask.now }
    requires asks { entry.now.what ≡ what.Call ask.now }
    requires room { count < 18446744073709551613 }
    ensures form { machine.new.form ≡ machine.old.form }
    ensures judged { IfOk result (IsBlockJudged E.meaning machine.old.form machine.old.machine
        machine.new.machine count (mark.now ∷ other.now ∷ []) entry.now ask.now) }
{
    let Some(cf) = facility(mark) else {
        return Ok(false);
    };
    let Some(next) = facility(other) else {
        return Ok(false);
    };
    if !may_mark_both(machine.asks(entry.by, ask), cf, next) {
        return Ok(false);
    }
    marks_and_call(
        alloc, machine, changed, count, mark, cf, other, next, entry, ask,
    )
}

/// Whether marks and the call behind them are the machine's next entries, behind so many. The
/// machine goes on over those that are: with them all, it stands behind the call.
///
/// # Errors
///
/// Want of memory. The machine's form stays, and of its state nothing is said.
pub fn block_fits<E: Engine>(
    alloc: Global,
    machine: &mut Machine<E, Steady>,
    changed: &mut Changed,
    count: usize,
    marks: &[Entry<E::Cmd, E::Reply>],
    entry: &Entry<E::Cmd, E::Reply>,
    ask: &Ask<E::Cmd>,
) -> Result<bool, NoMemory>
where
    E::Reply: Same,
    requires may { MayAsk entry.now.by ask.now }
    requires asks { entry.now.what ≡ what.Call ask.now }
    requires room { count < 18446744073709551613 }
    ensures form { machine.new.form ≡ machine.old.form }
    ensures judged { IfOk result (IsBlockJudged E.meaning machine.old.form machine.old.machine
        machine.new.machine count marks.now entry.now ask.now) }
{
    match marks {
        [] => alone_fits(alloc, machine, changed, count, entry, ask),
        [mark] => marked_fits(alloc, machine, changed, count, mark, entry, ask),
        [mark, other] => twice_fits(alloc, machine, changed, count, mark, other, entry, ask),
        _ => Ok(false),
    }
}
