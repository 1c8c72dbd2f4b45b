//! The waits of one caller, asked of the machine.
ghost use Rattle.std.specs.Prelude.{◌≡◌, ◌+◌, ◌<◌, ◌≤◌, length, map};
ghost use Rattle.cf_types.specs.Forms.{IsCaller};
ghost use Rattle.struct_machine.specs.StructureView.{stands_at};
ghost use Rattle.vector_waits.specs.Waits.{same_bit, told_before, before_block, told_behind, behind_block, untold, AreRising, ArePast};

use crate::wait::Wait;
use cf_types::ConnId;
use engine_api::Engine;
use struct_machine::Machine;
use struct_machine::links::Link;

// Whether a bit is the one that is shown.
fn same_bit(stood: bool, bit: bool) -> bool
    ensures { result ≡ same_bit stood bit }
{
    if stood { bit } else { !bit }
}

// Whether a wait is told before the block of a call of this number.
fn told_before<E: Engine, L: Link>(
    machine: &Machine<E, L>,
    conn: ConnId,
    wait: Wait,
    number: usize,
) -> bool
    requires { IsCaller conn }
    ensures { result ≡ told_before number (stands_at E.meaning machine.now.machine conn) wait }
{
    if wait.at as usize != number {
        return wait.told;
    }
    if wait.sure >= wait.at {
        return false;
    }
    same_bit(machine.stands(conn, wait.index), wait.bit)
}

// Whether a wait is told behind it.
fn told_behind<E: Engine, L: Link>(
    machine: &Machine<E, L>,
    conn: ConnId,
    wait: Wait,
    number: usize,
) -> bool
    requires { IsCaller conn }
    ensures { result ≡ told_behind number (stands_at E.meaning machine.now.machine conn) wait }
{
    if wait.at as usize != number || wait.told {
        return wait.told;
    }
    if wait.at < wait.sure {
        return false;
    }
    same_bit(machine.stands(conn, wait.index), wait.bit)
}

/// Nothing is told yet.
pub(crate) fn forget(waits: &mut [Wait])
    ensures { waits.new ≡ map untold waits.old }
{
    for wait in waits.iter_mut() {
        wait.told = false;
    }
}

/// Asks what stands before the block of a call of this number.
pub(crate) fn ask_before<E: Engine, L: Link>(
    machine: &Machine<E, L>,
    conn: ConnId,
    waits: &mut [Wait],
    next: usize,
    number: usize,
)
    requires caller { IsCaller conn }
    requires rising { AreRising waits.old }
    requires past { ArePast waits.old next number }
    ensures { waits.new
        ≡ map (before_block number (stands_at E.meaning machine.now.machine conn)) waits.old }
{
    for k in next..waits.len() {
        let wait = waits[k];
        if wait.at as usize > number {
            return;
        }
        waits[k].told = told_before(machine, conn, wait, number);
    }
}

/// Asks what stands behind it. How many waits the history has passed then.
pub(crate) fn ask_behind<E: Engine, L: Link>(
    machine: &Machine<E, L>,
    conn: ConnId,
    waits: &mut [Wait],
    next: usize,
    number: usize,
) -> usize
    requires caller { IsCaller conn }
    requires rising { AreRising waits.old }
    requires past { ArePast waits.old next number }
    ensures waits { waits.new
        ≡ map (behind_block number (stands_at E.meaning machine.now.machine conn)) waits.old }
    ensures past { ArePast waits.old result (number + 1) }
{
    for k in next..waits.len() {
        let wait = waits[k];
        if wait.at as usize > number {
            return k;
        }
        waits[k].told = told_behind(machine, conn, wait, number);
    }
    waits.len()
}
