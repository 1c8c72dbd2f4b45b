ghost use Rattle.std.specs.Prelude.{◌<◌, List, length};
ghost use Rattle.cf_types.specs.declared.list_commands.ListCmd.{ListCmd};
ghost use Rattle.cf_types.specs.declared.numbers.ConnId.{ConnId};
ghost use Rattle.engine_api.specs.Meaning.{Held};
ghost use Rattle.list_model.specs.Contents.{Content};
ghost use Rattle.run_laws.specs.ListApplied.{Deed, IsHeldAfter, content_applied, told_then};
ghost use Rattle.run_laws.specs.ListHistories.{IsLegalList, content_after, told_in};
ghost use Rattle.run_laws.specs.Versions.{AreVersioned};

use cf_types::{QueueCmd, QueueReply, StrForm};
use engine_api::History;

/// After every legal history of a list structure that has fewer entries than there are versions: a
/// record's version is 1 plus the number of accepted UPDATEs that answered its id after the
/// accepted WRITE that made it, which is the last one that answered this id.
pub fn versions(form: &StrForm, history: &History<QueueCmd, QueueReply>)
    requires legal { IsLegalList form.now history.now }
    requires few { length history.now < 4294967295 }
    ensures { AreVersioned (told_in history.now) (content_after form.now history.now).lists }
{}

/// The same of what an engine's `apply` leaves of a list structure that was empty at first,
/// whatever commands, each at a capacity of its own, departures and returns came before.
pub fn after_apply()
    ensures { (held : Held Content) (deeds : List Deed) (by : ConnId) (cmd : ListCmd)
        → IsHeldAfter deeds held → length (told_then held deeds by cmd) < 4294967295
        → AreVersioned (told_then held deeds by cmd) (content_applied held by cmd).lists }
{}
