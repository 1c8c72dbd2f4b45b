ghost use Rattle.std.specs.Prelude.{◌≡◌, ℕ, List};
ghost use Rattle.plex_script.specs.Limits.{KeepsLimits};
ghost use Rattle.report_texts.specs.Texts.{IsReport};
ghost use Rattle.report_read.specs.Picked.{ArePicked};

use check_model::Printed;
use plex_script::Script;

/// A text is the report of one reading whose entries are the ones that are meant.
pub fn one_report(script: &Script, one: &Printed, other: &Printed)
    requires keeps { KeepsLimits script.now }
    ensures { (text : List ℕ) → IsReport script.now text one.now → ArePicked script.now one.now
        → IsReport script.now text other.now → ArePicked script.now other.now
        → one.now ≡ other.now }
{
    let _ = script;
    let _ = one;
    let _ = other;
}
