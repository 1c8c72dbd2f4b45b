ghost use Rattle.std.specs.Prelude.{◌≡◌, length};
ghost use Rattle.check_model.specs.declared.checked.Checked.{Checked as Answer};
ghost use Rattle.check_model.specs.Judged.{Judges};
ghost use Rattle.check_model.specs.Printings.{AreDone};

use crate::printed::Printed;
use caller_slots::shown::scripts::Script;

/// What is printed of a script is answered in one way: so each answer comes exactly where its
/// meaning says.
pub fn one_answer(script: &Script, printed: &Printed)
    requires structures { length printed.now.histories ≡ length script.now.structures }
    requires done { AreDone printed.now }
    ensures { (one other : Answer) → Judges script.now printed.now one
        → Judges script.now printed.now other → one ≡ other }
{
    let _ = script;
    let _ = printed;
}
