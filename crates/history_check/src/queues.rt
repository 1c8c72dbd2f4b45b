//! The tests of all callers, asked one caller after another.
ghost use Rattle.std.specs.Prelude.{◌≡◌, All, []};
ghost use Rattle.engine_api.specs.Machine.{opening};
ghost use Rattle.struct_machine.specs.StructureView.{stands_at};
ghost use Rattle.vector_waits.specs.Waits.{IsQueue};
ghost use Rattle.history_check.specs.Queues.{HasTestsOf, IsAsked, IsAskedBefore, IsAskedBehind, IsBegun, IsRising, Pairs};

use engine_api::Engine;
use struct_machine::Machine;
use struct_machine::links::Steady;
use vector_waits::Queue;

// Nothing is told yet.
fn begin(queues: &mut [Queue])
    ensures { Pairs IsBegun queues.old queues.new }
{
    for queue in queues.iter_mut() {
        queue.begin();
    }
}

/// The machine stands before the block of a call of this number.
pub(crate) fn ask_before<E: Engine>(
    machine: &Machine<E, Steady>,
    queues: &mut [Queue],
    number: usize,
)
    requires { All (IsQueue number) queues.old }
    ensures { Pairs (IsAskedBefore number (stands_at E.meaning machine.now.machine))
        queues.old queues.new }
{
    for queue in queues.iter_mut() {
        queue.ask_before(machine, number);
    }
}

/// The machine stands behind that call.
pub(crate) fn ask_behind<E: Engine>(
    machine: &Machine<E, Steady>,
    queues: &mut [Queue],
    number: usize,
)
    requires { All (IsQueue number) queues.old }
    ensures { Pairs (IsAskedBehind number (stands_at E.meaning machine.now.machine))
        queues.old queues.new }
{
    for queue in queues.iter_mut() {
        queue.ask_behind(machine, number);
    }
}

/// The history begins: of the tests those are settled that show no call's number.
pub(crate) fn start<E: Engine>(machine: &Machine<E, Steady>, queues: &mut [Queue])
    requires opening { machine.now.machine ≡ opening E.meaning machine.now.form }
    requires rising { All IsRising queues.old }
    ensures asked { All (IsAsked E.meaning machine.now.form []) queues.new }
    ensures same { Pairs HasTestsOf queues.old queues.new }
{
    begin(queues);
    ask_behind(machine, queues, 0);
}
