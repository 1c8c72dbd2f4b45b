ghost use Rattle.std.specs.Prelude.{◌≡◌, ℕ, ◌+◌, List, ◌++◌, drop};
ghost use Rattle.plex_script.specs.Limits.{KeepsLimits};
ghost use Rattle.report_texts.specs.Texts.{IsFirstUnread};
ghost use Rattle.report_fronts.specs.Fronts.{IsStuck, Stands};
ghost use Rattle.report_fronts.specs.Slots.{Slot};

use plex_script::Script;

/// Where a text can't go on as a report, its first unread line stands.
pub fn first_unread(script: &Script, text: &[u8])
    requires { KeepsLimits script.now }
    ensures { (from count : ℕ) (lines : List (List ℕ)) (left : List Slot)
        → Stands script.now text.now from count lines left
        → IsStuck script.now left (drop from text.now)
        → IsFirstUnread script.now text.now (count + 1) }
{
    let _ = script;
    let _ = text;
}
