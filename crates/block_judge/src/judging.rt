ghost use Rattle.std.specs.Prelude.{◌≡◌, ◌↔◌, ◌+◌, ◌<◌, IfOk, OnOk, true};
ghost use Rattle.cf_types.specs.Forms.{IsFacility};
ghost use Rattle.engine_api.specs.Asking.{MayAsk};
ghost use Rattle.engine_api.specs.Machine.{step, loss_step};
ghost use Rattle.engine_api.specs.Shell.{stands_at as is_place};
ghost use Rattle.block_judge.specs.Fits.{IsShell};
ghost use Rattle.block_laws.specs.Steps.{CallFits, MarkFits};

use call_same::Same;
use cf_types::{CfId, ConnId, NoMemory, ShellReply};
use engine_api::{Ask, Engine, Entry, Reply};
use std::alloc::Global;
use struct_machine::links::Steady;
use struct_machine::{Changed, Machine};

// Whether a reply is this one, to a common command.
fn is_shell<R>(reply: &Reply<R>, told: &ShellReply) -> bool
    ensures { (result ≡ true) ↔ IsShell reply.now told.now }
{
    match reply {
        Reply::Shell(shell) => shell.is_same(told),
        _ => false,
    }
}

// The machine's next call, over links that are never down.
fn next_reply<E: Engine>(
    alloc: Global,
    machine: &mut Machine<E, Steady>,
    changed: &mut Changed,
    by: ConnId,
    ask: &Ask<E::Cmd>,
) -> Result<Reply<E::Reply>, NoMemory>
    requires may { MayAsk by ask.now }
    ensures form { machine.new.form ≡ machine.old.form }
    ensures step { IfOk result (λ reply. record { reply = reply; machine = machine.new.machine }
        ≡ step E.meaning machine.old.form machine.old.machine by ask.now) }
{
    machine.answer(alloc, by, ask, changed)
}

/// Whether an entry is the machine's next call, behind so many entries. The machine does the call.
///
/// # Errors
///
/// Want of memory. The machine's form stays, and of its state nothing is said.
pub(crate) fn call_fits<E: Engine>(
    alloc: Global,
    machine: &mut Machine<E, Steady>,
    changed: &mut Changed,
    count: usize,
    entry: &Entry<E::Cmd, E::Reply>,
    ask: &Ask<E::Cmd>,
) -> Result<bool, NoMemory>
where
    E::Reply: Same,
    requires may { MayAsk entry.now.by ask.now }
    requires room { count < 18446744073709551615 }
    ensures form { machine.new.form ≡ machine.old.form }
    ensures fits { IfOk result (λ fits. (fits ≡ true) ↔ CallFits E.meaning machine.old.form
        machine.old.machine count entry.now ask.now) }
    ensures left { OnOk result (machine.new.machine
        ≡ (step E.meaning machine.old.form machine.old.machine entry.now.by ask.now).machine) }
{
    let reply = next_reply(alloc, machine, changed, entry.by, ask)?;
    Ok(entry.no as usize == count + 1 && entry.reply.is_same(&reply))
}

/// Whether an entry is the mark that the machine makes of a loss in this facility, behind so many
/// entries. The machine takes the loss.
///
/// # Errors
///
/// Want of memory. The machine's form stays, and of its state nothing is said.
pub(crate) fn mark_fits<E: Engine>(
    machine: &mut Machine<E, Steady>,
    count: usize,
    entry: &Entry<E::Cmd, E::Reply>,
    cf: CfId,
) -> Result<bool, NoMemory>
    requires facility { IsFacility cf }
    requires there { is_place machine.old.machine.shell cf ≡ true }
    requires room { count < 18446744073709551615 }
    ensures form { machine.new.form ≡ machine.old.form }
    ensures fits { IfOk result (λ fits. (fits ≡ true) ↔ MarkFits E.meaning machine.old.form
        machine.old.machine count entry.now cf) }
    ensures left { OnOk result (machine.new.machine
        ≡ (loss_step E.meaning machine.old.form machine.old.machine cf).machine) }
{
    let lost = machine.lose(cf)?;
    Ok(entry.no as usize == count + 1 && entry.by.0 == 0 && is_shell(&entry.reply, &lost.reply()))
}
