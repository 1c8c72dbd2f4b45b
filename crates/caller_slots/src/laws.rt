ghost use Rattle.std.specs.Prelude.{◌≡◌, ◌<◌, ◌↔◌, ◌++◌, ℕ, List, All, length, take, slice_get, Some};
ghost use Rattle.run_shown.specs.CfTypes.declared.forms.StrForm.{StrForm};
ghost use Rattle.run_shown.specs.CfTypes.declared.numbers.StrNo.{StrNo};
ghost use Rattle.run_shown.specs.PlexScript.declared.asks.AnyHistory.{AnyHistory};
ghost use Rattle.run_shown.specs.PlexScript.declared.transcripts.Shown.{Shown};
ghost use Rattle.run_shown.specs.PlexScript.Heard.{calls_on};
ghost use Rattle.run_shown.specs.PlexScript.Follows.{Follows};
ghost use Rattle.run_shown.specs.Headline.{TestsTell};
ghost use Rattle.run_shown.specs.Kinds.{IsAnyLegal, Rising};
ghost use Rattle.caller_slots.specs.Asked.{AreAsked};
ghost use Rattle.caller_slots.specs.Slots.{AreNotes, AreUsed, Ends, Fills, IsFilled, slots_of};

use run_shown::scripts::types::{ConnId, Listing};
use run_shown::scripts::{AnyHistory, Script, Shown};

/// A transcript follows the script exactly where its items fill the slots that the caller's own
/// calls give, each of these calls has its slot, and what POSTs and TAKEs show is right.
pub fn follows_by_slots(
    script: &Script,
    histories: &Listing<AnyHistory>,
    conn: ConnId,
    items: &Listing<Shown>,
)
    requires structures { length histories.now ≡ length script.now.structures }
    requires known { All (λ line. line.on.0 < length script.now.structures) script.now.lines }
    requires rising { (on : StrNo) → Rising 0 (calls_on histories.now on) }
    ensures { Follows script.now histories.now conn items.now
        ↔ IsFilled script.now histories.now conn items.now }
{}

/// Where a caller's calls are those that its lines ask, a beginning of a transcript that fills its
/// slots, and whose notes and tests are right, goes on to one that follows the script, whose tests
/// tell what stood.
pub fn goes_on(
    script: &Script,
    histories: &Listing<AnyHistory>,
    conn: ConnId,
    items: &Listing<Shown>,
)
    requires structures { length histories.now ≡ length script.now.structures }
    requires known { All (λ line. line.on.0 < length script.now.structures) script.now.lines }
    requires rising { (on : StrNo) → Rising 0 (calls_on histories.now on) }
    requires legal { (x : ℕ) (form : StrForm) (entries : AnyHistory)
        → slice_get script.now.structures x ≡ Some form
        → slice_get histories.now x ≡ Some entries → IsAnyLegal form entries }
    requires ends { (slots_of script.now histories.now conn).end ≡ Ends }
    requires used { AreUsed (slots_of script.now histories.now conn).places }
    requires asked { AreAsked (slots_of script.now histories.now conn).slots }
    requires fills { Fills (take (length items.now)
        (slots_of script.now histories.now conn).slots) items.now }
    requires notes { AreNotes histories.now items.now }
    requires tests { TestsTell script.now.structures histories.now conn items.now }
    ensures { (more : List Shown) × Follows script.now histories.now conn (items.now ++ more)
        × TestsTell script.now.structures histories.now conn (items.now ++ more) }
{}
