ghost use Rattle.std.specs.Prelude.{◌≡◌, Bool, List};
ghost use Rattle.cf_types.specs.declared.forms.Caps.{Caps};
ghost use Rattle.cf_types.specs.declared.lock_commands.LockCmd.{LockCmd};
ghost use Rattle.cf_types.specs.declared.numbers.ConnId.{ConnId};
ghost use Rattle.engine_api.specs.Meaning.{Held};
ghost use Rattle.engine_api.specs.declared.shapes.Shape.{Shape};
ghost use Rattle.lock_model.specs.Contents.{Content, OwnersAreCompatible};
ghost use Rattle.lock_model.specs.Meaning.{lock_meaning};
ghost use Rattle.run_laws.specs.LockApplied.{Deed, IsHeldAfter, content_applied};
ghost use Rattle.run_laws.specs.Entries.{step_at, replies_of};
ghost use Rattle.run_laws.specs.LockHistories.{content_after};

use cf_types::{LockCmd, LockReply, StrForm};
use engine_api::History;

/// After every history of a lock structure any two owners of one resource are compatible: both
/// share it, or they are one connector.
pub fn owners_compatible(form: &StrForm, history: &History<LockCmd, LockReply>)
    ensures { OwnersAreCompatible (content_after form.now history.now) }
{}

/// The same of what an engine's `apply` leaves of a lock structure that was empty at first,
/// whatever commands, each at a capacity of its own, departures and returns came before.
pub fn after_apply()
    ensures { (held : Held Content) (deeds : List Deed) (by : ConnId) (cmd : LockCmd)
        → IsHeldAfter deeds held
        → OwnersAreCompatible (content_applied held by cmd) }
{}

/// What a command answers, leaves and sends depends on how many records there may be, and not on
/// the number of table entries, neither on that of the capacity nor on the one that the policy
/// states, so that two structures that differ in it do the same; and so do all answers to a list of
/// commands, and what a departure leaves and sends.
pub fn table_entries_play_no_part()
    ensures step { (a b : Caps) → a.elements ≡ b.elements
        → (one other : Shape) (content : Content) (by : ConnId) (cmd : LockCmd)
        → step_at a one content by cmd ≡ step_at b other content by cmd }
    ensures replies { (a b : Caps) → a.elements ≡ b.elements
        → (one other : Shape) (content : Content) (commands : List (ConnId × LockCmd))
        → replies_of a one content commands ≡ replies_of b other content commands }
    ensures leave { (one other : Shape) (content : Content) (conn : ConnId) (keep : Bool)
        → lock_meaning.leave one content conn keep ≡ lock_meaning.leave other content conn keep }
{}
